// When a penalty begins, and whether it ends with a due date.
ghost use Rattle.std.specs.Prelude.{◌≡◌, ◌+◌, ◌≤◌, length, nat_lt};
ghost use Rattle.card_events.specs.Range.{last_calendar_day};
ghost use Rattle.card_model.specs.DueDates as model;

use crate::Cycle;
use card_events::{Day, NOTICE_DAYS};
use card_model::Interval;

/// The day on which a penalty begins that is notified on a day: 45 days after it (12 CFR 1026.9(g)(1)(i)). The day is at most
/// 2102-11-17.
pub fn begin_after(day: Day) -> Day
    requires { day + 45 ≤ last_calendar_day }
    ensures { result ≡ day + 45 }
{
    day.plus(NOTICE_DAYS)
}

/// Whether the due date of a closed cycle lies after a day.
pub fn is_due_after(cycle: &Cycle, day: Day) -> bool
    ensures { result ≡ nat_lt day cycle.now.due }
{
    day < cycle.due
}

// How many due dates lie after a day.
fn dues_after(cycles: &[Cycle], day: Day) -> usize
    ensures { result ≡ length (model.due_after_day day cycles.now) }
{
    let mut count = 0;
    for cycle in cycles {
        if is_due_after(cycle, day) {
            count += 1;
        }
    }
    count
}

/// Whether a penalty has no end yet and six due dates of the closed cycles lie after its first day: it then ends with the last
/// of them where all six were met (12 CFR 1026.55(b)(4)(ii)). It doesn't allocate.
pub fn awaits_end(cycles: &[Cycle], penalty: &Interval) -> bool
    ensures { result ≡ model.awaits_end cycles.now penalty.now }
{
    penalty.last.is_none() && dues_after(cycles, penalty.begins) == 6
}
