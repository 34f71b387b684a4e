// Sums of the year to date.
ghost use Rattle.std.specs.Prelude.{◌≡◌, ◌≤◌, ◌==◌, ◌^◌, if◌then◌else◌};
ghost use Rattle.std.specs.List.{All};
ghost use Rattle.card_events.specs.Civil.{date_of};
ghost use Rattle.card_model.specs.Cycles.{amounts_sum};
ghost use Rattle.card_model.specs.Fees.{fees_sum};
ghost use Rattle.card_model.specs.Sheets.{year_sum};
ghost use Rattle.card_statement.specs.Years.{IsYearOf};

use card_closing::Cycle;
use card_events::Day;

// The first and the last day of a calendar year.
#[derive(Clone, Copy)]
struct Year {
    first: Day,
    last: Day,
}

// The calendar year of a day.
fn year_of(day: Day) -> Year
    ensures { IsYearOf day result.first result.last }
{
    let (year, _, _) = day.ymd();
    Year {
        first: Day::from_ymd(year, 1, 1).unwrap(),
        last: Day::from_ymd(year, 12, 31).unwrap(),
    }
}

// Whether a cycle closed in the calendar year of a day.
fn in_year(cycle: &Cycle, year: &Year, _closing: Day) -> bool
    requires { IsYearOf _closing year.now.first year.now.last }
    ensures { result ≡ ((date_of cycle.now.closing).year == (date_of _closing).year) }
{
    let _in_calendar = (cycle.closing.number(), _closing.number());
    year.first <= cycle.closing && cycle.closing <= year.last
}

// The fees of a cycle, where it closed in that year.
fn fees_in(cycle: &Cycle, year: &Year, closing: Day) -> u128
    requires { IsYearOf closing year.now.first year.now.last }
    ensures { result ≡ (if (date_of cycle.now.closing).year == (date_of closing).year then fees_sum cycle.now.fees else 0) }
{
    if in_year(cycle, year, closing) {
        cycle.fees.sum()
    } else {
        0
    }
}

// The interest of a cycle, where it closed in that year.
fn interest_in(cycle: &Cycle, year: &Year, closing: Day) -> u128
    requires { IsYearOf closing year.now.first year.now.last }
    ensures { result ≡ (if (date_of cycle.now.closing).year == (date_of closing).year then amounts_sum cycle.now.interest else 0) }
{
    if in_year(cycle, year, closing) {
        cycle.interest.sum()
    } else {
        0
    }
}

/// The cents of the penalty fees of the cycles that closed in the calendar year of a closing (12 CFR 1026.7(b)(6)(iii)). Those
/// of each cycle are at most 10^17. It doesn't allocate.
pub fn fees_year(cycles: &[Cycle], closing: Day) -> u128
    requires small { All (λ d. fees_sum d.fees ≤ 10 ^ 17) cycles.now }
    ensures { result ≡ year_sum (λ d. fees_sum d.fees) closing cycles.now }
{
    let year = year_of(closing);
    let mut sum = 0;
    for i in 0..cycles.len() {
        sum += fees_in(&cycles[i], &year, closing);
    }
    sum
}

/// The cents of the interest of the cycles that closed in the calendar year of a closing (12 CFR 1026.7(b)(6)(ii)). Those of
/// each cycle are at most 10^17. It doesn't allocate.
pub fn interest_year(cycles: &[Cycle], closing: Day) -> u128
    requires small { All (λ d. amounts_sum d.interest ≤ 10 ^ 17) cycles.now }
    ensures { result ≡ year_sum (λ d. amounts_sum d.interest) closing cycles.now }
{
    let year = year_of(closing);
    let mut sum = 0;
    for i in 0..cycles.len() {
        sum += interest_in(&cycles[i], &year, closing);
    }
    sum
}
