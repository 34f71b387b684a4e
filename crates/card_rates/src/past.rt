// The penalties as they stood at the end of an earlier day.
ghost use Rattle.std.specs.Prelude.{◌≡◌, ◌+◌, ◌++◌, [], ◌∷◌, nat_le, IfOk, OnOk};
ghost use Rattle.card_model.specs.Cuts.{as_of, ended_before, penalties_at};

use crate::segment::number_of;
use card_events::{Day, NOTICE_DAYS, NoMemory};
use card_model::Interval;
use std::alloc::Global;

// Whether a penalty had begun, or was to begin within the 45 days after its post.
fn is_known(penalty: &Interval, day: Day) -> bool
    ensures { result ≡ nat_le penalty.now.begins (day + 45) }
{
    number_of(penalty.begins) <= number_of(day) + NOTICE_DAYS
}

// Whether a penalty's last day lies before a day, so that its end was known at the end of that day.
fn had_ended(last: &Option<Day>, day: Day) -> bool
    ensures { result ≡ ended_before day last.now }
{
    match last {
        None => false,
        Some(last) => *last < day,
    }
}

// A penalty without an end that wasn't known yet.
fn as_of(penalty: &Interval, day: Day) -> Interval
    ensures { result ≡ as_of day penalty.now }
{
    if had_ended(&penalty.last, day) {
        *penalty
    } else {
        Interval {
            begins: penalty.begins,
            last: None,
        }
    }
}

// Adds a penalty as it stood, where it was known.
fn push_as_of(list: &mut Vec<Interval>, penalty: &Interval, day: Day) -> Result<(), NoMemory>
    ensures { OnOk result (list.new.items ≡ list.old.items ++ penalties_at day (penalty.now ∷ [])) }
{
    if is_known(penalty, day) {
        list.extend_from_slice(&[as_of(penalty, day)])?;
    }
    Ok(())
}

// The penalties as they stood at the end of a day, in memory of their own.
pub fn penalties_at(
    alloc: Global,
    penalties: &[Interval],
    day: Day,
) -> Result<Vec<Interval>, NoMemory>
    ensures { IfOk result (λ list. list.items ≡ penalties_at day penalties.now) }
{
    let mut list = Vec::new(alloc);
    for penalty in penalties {
        push_as_of(&mut list, penalty, day)?;
    }
    Ok(list)
}
