// Where a fold stands.
ghost use Rattle.std.specs.Prelude.{◌≡◌, ◌+◌, ◌-◌, ◌<◌, ◌≤◌, Some, None, IfSome, true};
ghost use Rattle.card_events.specs.Billing.{closing, due};
ghost use Rattle.card_events.specs.Range.{last_request_day};
ghost use Rattle.card_model.specs.CycleDays.{IsOpening};
ghost use Rattle.card_dayend.specs.Spans.{AreDatesOf, HoldDay, IsCycleOf};

use card_events::{Anchor, Day, closing_date, cycle_of, due_date};

/// The dates of a cycle, from a day of it on: its number, that day, its closing, and the day after the due date of the cycle
/// before it. The first cycle has none before it.
#[derive(Clone, Copy)]
pub struct CycleDates {
    pub number: u32,
    pub first: Day,
    pub closing: Day,
    pub after_due: Option<Day>,
}

/// Where a fold stands: the places from which its next post and its next issued statement are looked for, and the dates of the
/// cycle that it read last. It is for speed alone.
#[derive(Clone, Copy)]
pub struct Cursor {
    pub posts: usize,
    pub issues: usize,
    pub cycle: Option<CycleDates>,
}

// The closing of the cycle that holds a day.
fn closing_of(anchor: &Anchor, number: u32, _day: Day) -> Day
    requires { IsCycleOf anchor.now number _day }
    ensures { result ≡ closing anchor.now number }
{
    closing_date(anchor, number)
}

// The day after the due date of the cycle before it.
fn after_due(anchor: &Anchor, number: u32, _day: Day) -> Option<Day>
    requires { IsCycleOf anchor.now number _day }
    ensures none { number ≡ 1 → result ≡ None }
    ensures some { 1 < number → result ≡ Some (due anchor.now (number - 1) + 1) }
{
    if number == 1 {
        return None;
    }
    Some(due_date(anchor, number - 1).next())
}

// The dates of the cycle that holds a day, from that day on.
fn dates_of(anchor: &Anchor, day: Day) -> CycleDates
    requires opening { IsOpening anchor.now }
    requires opened { anchor.now.opened ≤ day }
    requires last { day ≤ last_request_day }
    ensures { HoldDay anchor.now result day }
{
    let number = cycle_of(*anchor, day);
    let closing = closing_of(anchor, number, day);
    let after_due = after_due(anchor, number, day);
    CycleDates {
        number,
        first: day,
        closing,
        after_due,
    }
}

// Whether dates are of the cycle that holds a day.
fn hold(dates: &CycleDates, day: Day) -> bool
    ensures first { result ≡ true → dates.now.first ≤ day }
    ensures upto { result ≡ true → day ≤ dates.now.closing }
{
    if day < dates.first {
        return false;
    }
    day <= dates.closing
}

// The dates of the cycle that holds a day: those that were read last, where it does.
pub fn dates_at(anchor: &Anchor, day: Day, read: &Option<CycleDates>) -> CycleDates
    requires opening { IsOpening anchor.now }
    requires opened { anchor.now.opened ≤ day }
    requires last { day ≤ last_request_day }
    requires read { IfSome read.now (AreDatesOf anchor.now) }
    ensures { HoldDay anchor.now result day }
{
    match read {
        Some(dates) => {
            if hold(dates, day) {
                *dates
            } else {
                dates_of(anchor, day)
            }
        }
        None => dates_of(anchor, day),
    }
}
