// Slots in the order in which they are folded.
ghost use Rattle.std.specs.Prelude.{◌≡◌, ◌+◌, ◌<◌, ◌≤◌, List, length, slice_set, vec_len, vec_capacity};
ghost use Rattle.std.specs.List.{insert, remove};
ghost use Rattle.card_events.specs.Limits.{post_limit};
ghost use Rattle.card_events.specs.declared.kept.Kept.{Kept};
ghost use Rattle.card_posts.specs.Effect.{corrected_with, slot_by, slots_from};
ghost use Rattle.card_posts.specs.Order.{before, placed, in_order, IsAscending, IsPlace, without};
ghost use Rattle.card_posts.specs.Posted.{cents_limit, slot_with};

use crate::effect::Effect;
use card_events::Slot;

// The slot of a post.
pub fn slot(number: u32, effect: &Effect) -> Slot
    ensures value { result ≡ slot_by number effect.now }
    ensures small { effect.now.cents ≤ cents_limit }
{
    Slot {
        day: effect.day,
        number,
        cents: effect.cents.get() as i64,
    }
}

// The slot of the post with a number.
pub fn slot_with(effects: &[Effect], number: u64) -> Option<Slot>
    requires few { length effects.now ≤ post_limit }
    ensures { (history : List Kept) → length effects.now ≡ length history → result ≡ slot_with number (corrected_with 1 5 history effects.now) }
{
    if number == 0 {
        return None;
    }
    match effects.get(number as usize - 1) {
        Some(effect) => Some(slot(number as u32, effect)),
        None => None,
    }
}

fn is_before(a: &Slot, b: &Slot) -> bool
    ensures { result ≡ before a.now b.now }
{
    a.day < b.day || a.day == b.day && a.number < b.number
}

// where a slot belongs, behind those that come before it
fn place_among(order: &[Slot], slot: &Slot) -> usize
    requires { IsAscending order.now }
    ensures { IsPlace slot.now order.now result }
{
    order.partition_point(|other| is_before(other, slot))
}

// where a slot belongs, which most often is behind the last
fn place_of(order: &[Slot], slot: &Slot) -> usize
    requires { IsAscending order.now }
    ensures { IsPlace slot.now order.now result }
{
    let count = order.len();
    if count > 0 && is_before(&order[count - 1], slot) {
        return count;
    }
    place_among(order, slot)
}

// Puts a slot into its place, with room for it.
pub fn place(order: &mut Vec<Slot>, slot: Slot)
    requires order { IsAscending order.old.items }
    requires room { vec_len order.old < vec_capacity order.old }
    ensures order { order.new.items ≡ placed slot order.old.items }
    ensures len { vec_len order.new ≡ vec_len order.old + 1 }
    ensures capacity { vec_capacity order.old ≤ vec_capacity order.new }
{
    let at = place_of(order, &slot);
    let _ = order.insert(at, slot);
}

// Takes the slot of a post out of its place.
pub fn take_out(order: &mut Vec<Slot>, effects: &[Effect], i: usize)
    requires few { length effects.now ≤ post_limit }
    requires order { order.old.items ≡ in_order (slots_from 1 effects.now) }
    requires known { i < length effects.now }
    ensures order { order.new.items ≡ in_order (without i (slots_from 1 effects.now)) }
    ensures len { vec_len order.new + 1 ≡ vec_len order.old }
    ensures capacity { vec_capacity order.new ≡ vec_capacity order.old }
{
    let old = slot(i as u32 + 1, &effects[i]);
    let from = place_of(order, &old);
    let _ = order.remove(from);
}

// moves the slot at a place back to an earlier one, and puts another in its stead
fn move_back(order: &mut [Slot], from: usize, to: usize, slot: Slot)
    requires earlier { to ≤ from }
    requires known { from < length order.old }
    ensures { order.new ≡ insert (remove order.old from) to slot }
{
    order[to..from + 1].rotate_right(1);
    order[to] = slot;
}

// moves the slot at a place on to a later one, and puts another in its stead
fn move_on(order: &mut [Slot], from: usize, to: usize, slot: Slot)
    requires later { from ≤ to }
    requires known { to < length order.old }
    ensures { order.new ≡ insert (remove order.old from) to slot }
{
    order[from..to + 1].rotate_left(1);
    order[to] = slot;
}

// Moves the slot of a post to where it belongs now.
pub fn change(order: &mut Vec<Slot>, effects: &[Effect], i: usize, now: &Effect)
    requires few { length effects.now ≤ post_limit }
    requires order { order.old.items ≡ in_order (slots_from 1 effects.now) }
    requires known { i < length effects.now }
    ensures order { order.new.items ≡ in_order (slots_from 1 (slice_set effects.now i now.now)) }
    ensures small { now.now.cents ≤ cents_limit }
    ensures len { vec_len order.new ≡ vec_len order.old }
    ensures capacity { vec_capacity order.old ≤ vec_capacity order.new }
{
    let number = i as u32 + 1;
    let old = slot(number, &effects[i]);
    let new = slot(number, now);
    let from = place_of(order, &old);
    let to = place_of(order, &new);
    if to <= from {
        move_back(order, from, to, new);
    } else {
        move_on(order, from, to - 1, new);
    }
}
