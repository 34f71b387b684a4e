// The place of a day among the posts.
ghost use Rattle.std.specs.Prelude.{◌≡◌, ◌≤◌, ℕ, List, nat_lt, true};
ghost use Rattle.card_posts.specs.Posted.{StandsFor};
ghost use Rattle.card_rates.specs.Days.{place_of};
ghost use Rattle.card_rates.specs.SlotLaws.{IsCut};

use card_events::{Day, Slot};
use card_posts::Posts;
use card_rates::first_place;

// Whether a slot is of an earlier day.
fn is_early(slot: &Slot, day: Day) -> bool
    ensures { result ≡ nat_lt slot.now.day day }
{
    slot.day < day
}

// Whether the slot in front of a place, where there is one, is of an earlier day.
fn is_at_most(slots: &[Slot], near: usize, day: Day) -> bool
    ensures { (place : ℕ) → IsCut slots.now day place → result ≡ true → near ≤ place }
{
    if near == 0 {
        return false;
    }
    let before = near - 1;
    if slots.len() <= before {
        return false;
    }
    is_early(&slots[before], day)
}

// The place of a day, from a place on that isn't behind it.
fn place_from(slots: &[Slot], near: usize, day: Day) -> usize
    ensures { (end : ℕ) → IsCut slots.now day end → near ≤ end → result ≡ end }
{
    for place in near..slots.len() {
        if !is_early(&slots[place], day) {
            return place;
        }
    }
    slots.len()
}

/// The place of a day in the order in which posts are folded, as `first_place` gives it: that of its first post or, where it has
/// none, of the first post of a later day. It is looked for from a place on, where that isn't behind it. It doesn't allocate.
pub fn place_near(posts: &Posts, near: usize, day: Day) -> usize
    ensures { (holidays : List ℕ) → StandsFor holidays posts.now → result ≡ place_of day posts.now.corrected }
{
    let slots = posts.in_order();
    if is_at_most(slots, near, day) {
        return place_from(slots, near, day);
    }
    first_place(posts, day)
}
