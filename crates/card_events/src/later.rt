ghost use Rattle.std.specs.Prelude.{◌≡◌, ◌≤◌, Some};
ghost use Rattle.card_events.specs.Range.{last_reckoned_day};
ghost use Rattle.card_events.specs.Later.{clipped_day_at, six_months_after, year_after};

use crate::Day;

/// The same day of the sixth month after a day, or that month's last day where it has no such day. The day is at most
/// 2100-12-31.
pub fn six_months_after(day: Day) -> Day
    requires { day ≤ last_reckoned_day }
    ensures { result ≡ six_months_after day }
{
    let (year, month, d) = day.ymd();
    if month > 6 {
        Day::clipped(year + 1, month - 6, d)
    } else {
        Day::clipped(year, month + 6, d)
    }
}

/// The same day a year after a day, and March 1 after February 29. The day is at most 2100-12-31.
pub fn year_after(day: Day) -> Day
    requires { day ≤ last_reckoned_day }
    ensures { result ≡ year_after day }
{
    let (year, month, d) = day.ymd();
    if month == 2 && d == 29 {
        Day::clipped(year + 1, 3, 1)
    } else {
        Day::clipped(year + 1, month, d)
    }
}
