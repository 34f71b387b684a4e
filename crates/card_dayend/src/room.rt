// Room in a list that grows by one a cycle.
ghost use Rattle.std.specs.Prelude.{◌≡◌, ◌<◌, ◌≤◌, ◌++◌, [], ◌∷◌, OnOk, OnErr, vec_len, vec_capacity};

use card_events::NoMemory;

/// Room for one more in a list that grows by one a cycle, which most often is there; else it grows by an eighth, since lists that
/// double stand half empty.
pub fn make_cycle_room<T: Drop>(list: &mut Vec<T>) -> Result<(), NoMemory>
    ensures items { list.new.items ≡ list.old.items }
    ensures capacity { vec_capacity list.old ≤ vec_capacity list.new }
    ensures room { OnOk result (vec_len list.new < vec_capacity list.new) }
{
    if list.len() < list.capacity() {
        return Ok(());
    }
    list.reserve_exact(list.len() / 8 + 1)?;
    Ok(())
}

// One more at the end. If memory runs out, the list is as it was.
pub fn push<T: Drop>(list: &mut Vec<T>, item: T) -> Result<(), NoMemory>
    ensures items { OnOk result (list.new.items ≡ list.old.items ++ item ∷ []) }
    ensures err { OnErr result (list.new.items ≡ list.old.items) }
    ensures capacity { vec_capacity list.old ≤ vec_capacity list.new }
{
    make_cycle_room(list)?;
    list.push_reserved(item);
    Ok(())
}
