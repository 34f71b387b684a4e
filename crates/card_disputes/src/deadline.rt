// The days by which something is to be done.
ghost use Rattle.std.specs.Prelude.{◌≡◌, ℕ, ◌+◌, ◌≤◌, Some, None, min};
ghost use Rattle.card_events.specs.Range.{last_reckoned_day, last_request_day};
ghost use Rattle.card_events.specs.Billing.{IsCloseDay, closing, cycle_of};
ghost use Rattle.card_model.specs.Deadlines as spec;

use card_events::{Anchor, Calendar, Day, LOWER_DAYS, closing, cycle_of, next_business};

/// The last day for the acknowledgement of a Dispute of this day: 30 days after it (12 CFR 1026.13(c)(1)). The day is a day
/// of requests.
pub fn ack_by(day: Day) -> Day
    requires { day ≤ last_request_day }
    ensures { result ≡ spec.ack_by day }
{
    day.plus(30)
}

/// The last day for lower rates after a review of this day that found so: 45 days after it (12 CFR 1026.59(a)(2)(i)). The
/// day is a day of requests.
pub fn lower_by(day: Day) -> Day
    requires { day ≤ last_request_day }
    ensures { result ≡ spec.lower_by day }
{
    day.plus(LOWER_DAYS)
}

// The cycle that holds a day, the first for days before the opening.
pub fn cycle_on(anchor: &Anchor, day: Day) -> u32
    requires close_day { IsCloseDay anchor.now.close_day }
    requires opened { anchor.now.opened ≤ last_reckoned_day }
    requires dated { day ≤ last_reckoned_day }
    ensures value { result ≡ cycle_of anchor.now day }
    ensures bound { result ≤ last_reckoned_day + 1 }
{
    if day < anchor.opened {
        cycle_of(*anchor, anchor.opened)
    } else {
        cycle_of(*anchor, day)
    }
}

// the earlier of a day and another one, where there is one
fn sooner(day: Day, other: Option<Day>) -> Day
    ensures none { other ≡ None → result ≡ day }
    ensures some { (d : ℕ) → other ≡ Some d → result ≡ min d day }
{
    match other {
        Some(other) if other < day => other,
        _ => day,
    }
}

/// The last day for the resolution of a Dispute of this day: the second closing after that of the day's cycle, and 90 days
/// after the day at the latest (12 CFR 1026.13(c)(2)). The day is a day of requests, and so is the opening day.
pub fn resolve_by(anchor: &Anchor, day: Day) -> Day
    requires close_day { IsCloseDay anchor.now.close_day }
    requires opened { anchor.now.opened ≤ last_request_day }
    requires dated { day ≤ last_request_day }
    ensures { result ≡ spec.resolve_by anchor.now day }
{
    let second = closing(*anchor, cycle_on(anchor, day) + 2);
    sooner(day.plus(90), second)
}

/// The last day for a refund that was asked for on this day: the seventh business day after it (12 CFR 1026.11(a)(2)). The
/// day is a day of requests.
pub fn refund_by(day: Day, calendar: &Calendar) -> Day
    requires { day ≤ last_request_day }
    ensures { result ≡ spec.refund_by calendar.now day }
{
    let mut last = day;
    for _ in 0..7_u8 {
        last = next_business(last, calendar);
    }
    last
}
