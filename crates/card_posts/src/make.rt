// The lists of an account that was just opened, room in them, and copies of them.
ghost use Rattle.std.specs.Prelude.{◌≡◌, ◌<◌, ◌≤◌, [], ◌∷◌, true, IfOk, OnOk, vec_len, vec_capacity};
ghost use Rattle.card_events.specs.Billing.{IsCloseDay};
ghost use Rattle.card_events.specs.History.{is_open, opening_in, terms_in};
ghost use Rattle.card_events.specs.declared.kept.Kept.{Kept};
ghost use Rattle.card_waits.specs.Waits.{AreWaits};

use card_events::{Anchor, Kept, NoMemory, Post};
use card_waits::WaitTable;
use std::alloc::Global;

// What the post that opens an account says of its cycles.
pub fn opening(post: &Post) -> Anchor
    requires opens { is_open post.now ≡ true }
    requires close_day { IsCloseDay (terms_in post.now).close }
    ensures { result ≡ record { opened = opening_in post.now; close_day = (terms_in post.now).close } }
{
    match post {
        Post::Open { day, terms } | Post::OpenVariable { day, terms } => Anchor {
            opened: *day,
            close_day: terms.close.get() as u8,
        },
        _ => unreachable!(),
    }
}

// Room for one more in a list, which most often is there; else it grows by half and by so many, since lists that double stand half
// empty.
pub fn make_room_in<T: Drop>(list: &mut Vec<T>, least: usize) -> Result<(), NoMemory>
    requires some { 0 < least }
    requires few { least ≤ 4 }
    ensures items { list.new.items ≡ list.old.items }
    ensures spare { vec_len list.old < vec_capacity list.old → vec_len list.new < vec_capacity list.new }
    ensures room { OnOk result (vec_len list.new < vec_capacity list.new) }
{
    if list.len() < list.capacity() {
        return Ok(());
    }
    list.reserve_exact(list.len() / 2 + least)?;
    Ok(())
}

// A list of one item.
pub fn one<T: Drop>(alloc: Global, item: T) -> Result<Vec<T>, NoMemory>
    ensures { IfOk result (λ v. v.items ≡ item ∷ []) }
{
    let mut list = Vec::new(alloc);
    list.push(item)?;
    Ok(list)
}

// The table of posts that wait, for the post that opens an account alone.
pub fn waits_of(alloc: Global, post: &Post) -> Result<WaitTable, NoMemory>
    requires { is_open post.now ≡ true }
    ensures { IfOk result (λ w. (k : Kept) → k.post ≡ post.now → AreWaits (k ∷ []) w) }
{
    let mut waits = WaitTable::new(alloc)?;
    waits.make_room()?;
    waits.enter(post);
    Ok(waits)
}

fn copy_kept(kept: &Kept) -> Kept
    ensures { result ≡ kept.now }
{
    Kept {
        number: kept.number,
        key: kept.key.copy(),
        accepted: kept.accepted,
        post: kept.post,
    }
}

// The same posts.
pub fn copy_history(alloc: Global, history: &[Kept]) -> Result<Vec<Kept>, NoMemory>
    ensures { IfOk result (λ v. v.items ≡ history.now) }
{
    let mut copied = Vec::new(alloc);
    for i in 0..history.len() {
        copied.push(copy_kept(&history[i]))?;
    }
    Ok(copied)
}
