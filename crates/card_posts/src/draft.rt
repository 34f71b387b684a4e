// A post that is entered for a while, and taken back.
ghost use Rattle.std.specs.Prelude.{◌≡◌, ◌-◌, ◌<◌, ◌≤◌, length, take, vec_len, vec_capacity, false, IsOk, IfOk, None};
ghost use Rattle.card_events.specs.Limits.{post_limit};
ghost use Rattle.card_keys.specs.Buckets.{HasRoom, IsIndex};
ghost use Rattle.card_waits.specs.Waits.{AreWaits, HasRoom as HasWaitRoom};
ghost use Rattle.card_posts.specs.Corrections.{corrects};
ghost use Rattle.card_posts.specs.Draft.{HasSpareIfNone, IsCopy, IsCopyIfAny, IsRoomyIfAny, corrections_before, effects_before, slots_before};
ghost use Rattle.card_posts.specs.Effect.{slots_from};
ghost use Rattle.card_posts.specs.Later.{HasSpare};
ghost use Rattle.card_posts.specs.Order.{in_order};

use crate::correction_table::CorrectionTable;
use crate::effect::Effect;
use crate::order::take_out;
use crate::refresh::is_correction;
use card_events::{Day, Kept, NoMemory, Post, Slot};
use card_keys::{KeyTable, leave_key};
use card_waits::WaitTable;
use std::alloc::Global;

// What was kept beside the posts before one that corrects others.
#[derive(Drop)]
pub struct Beside {
    pub corrections: CorrectionTable,
    pub effects: Vec<Effect>,
    pub order: Vec<Slot>,
}

/// A post that was entered behind the others for a while: the first day on which the corrected list differs, and what takes the
/// post back.
#[derive(Drop)]
pub struct Draft {
    pub(crate) from: Day,
    pub(crate) before: Option<Beside>,
}

impl Draft {
    ghost use Rattle.std.specs.Prelude.{◌≡◌};

    /// The earliest day on which the corrected list differs from what it was.
    pub fn from(&self) -> Day
        ensures { result ≡ self.now.from }
    {
        self.from
    }
}

// A list in memory of its own, with room for one more.
fn copy_with_room<T: Copy>(alloc: Global, list: &[T]) -> Result<Vec<T>, NoMemory>
    ensures items { IfOk result (λ copy. copy.items ≡ list.now) }
    ensures room { IfOk result (λ copy. vec_len copy < vec_capacity copy) }
{
    let mut copy = Vec::from_slice(alloc, list)?;
    copy.reserve(1)?;
    Ok(copy)
}

// What is kept beside the posts, in memory of its own.
fn copy_beside(
    alloc: Global,
    corrections: &CorrectionTable,
    effects: &[Effect],
    order: &[Slot],
) -> Result<Beside, NoMemory>
    ensures { IfOk result (IsCopy corrections.now.each effects.now order.now) }
{
    Ok(Beside {
        corrections: corrections.copy(alloc)?,
        effects: copy_with_room(alloc, effects)?,
        order: copy_with_room(alloc, order)?,
    })
}

// The same where the post corrects others, and nothing where it doesn't.
pub fn beside_if_corrected(
    alloc: Global,
    post: &Post,
    corrections: &CorrectionTable,
    effects: &[Effect],
    order: &[Slot],
) -> Result<Option<Beside>, NoMemory>
    ensures copy { IfOk result (IsCopyIfAny post.now corrections.now.each effects.now order.now) }
    ensures alone { corrects post.now ≡ false → IsOk result }
{
    if is_correction(post) {
        Ok(Some(copy_beside(alloc, corrections, effects, order)?))
    } else {
        Ok(None)
    }
}

// Takes out what counts for the last post, which corrects no other.
fn pop_last(corrections: &mut CorrectionTable, effects: &mut Vec<Effect>, order: &mut Vec<Slot>)
    requires spare { HasSpare corrections.old }
    requires corrections { 1 ≤ length corrections.old.each }
    requires effects { 1 ≤ length effects.old.items }
    requires few { length effects.old.items ≤ post_limit }
    requires order { order.old.items ≡ in_order (slots_from 1 effects.old.items) }
    ensures corrections { corrections.new.each ≡ corrections_before None corrections.old.each }
    ensures effects { effects.new.items ≡ effects_before None effects.old.items }
    ensures order { order.new.items ≡ slots_before None effects.old.items }
    ensures correction_room { HasSpare corrections.new }
    ensures effect_room { vec_len effects.new < vec_capacity effects.new }
    ensures slot_room { vec_len order.new < vec_capacity order.new }
{
    take_out(order, effects, effects.len() - 1);
    corrections.pop();
    let _ = effects.pop();
}

// Puts back what stood beside the posts before the last one: what was kept, or else all but what counts for the last.
pub fn put_back(
    before: Option<Beside>,
    corrections: &mut CorrectionTable,
    effects: &mut Vec<Effect>,
    order: &mut Vec<Slot>,
)
    requires room { IsRoomyIfAny before }
    requires spare { HasSpareIfNone before corrections.old }
    requires corrections { 1 ≤ length corrections.old.each }
    requires effects { 1 ≤ length effects.old.items }
    requires few { length effects.old.items ≤ post_limit }
    requires order { order.old.items ≡ in_order (slots_from 1 effects.old.items) }
    ensures corrections { corrections.new.each ≡ corrections_before before corrections.old.each }
    ensures effects { effects.new.items ≡ effects_before before effects.old.items }
    ensures order { order.new.items ≡ slots_before before effects.old.items }
    ensures correction_room { HasSpare corrections.new }
    ensures effect_room { vec_len effects.new < vec_capacity effects.new }
    ensures slot_room { vec_len order.new < vec_capacity order.new }
{
    match before {
        Some(kept) => {
            *corrections = kept.corrections;
            *effects = kept.effects;
            *order = kept.order;
        }
        None => pop_last(corrections, effects, order),
    }
}

// Takes the last post out of the history, and out of the index of keys and the table of posts that wait.
pub fn take_last(history: &mut Vec<Kept>, index: &mut KeyTable, waits: &mut WaitTable)
    requires some { 1 ≤ length history.old.items }
    requires few { length history.old.items ≤ post_limit }
    requires index { IsIndex history.old.items index.old }
    requires waits { AreWaits history.old.items waits.old }
    ensures history { history.new.items ≡ take (length history.old.items - 1) history.old.items }
    ensures index { IsIndex history.new.items index.new }
    ensures waits { AreWaits history.new.items waits.new }
    ensures history_room { vec_len history.new < vec_capacity history.new }
    ensures index_room { HasRoom 1 index.new }
    ensures wait_room { HasWaitRoom waits.new }
{
    if let Some(last) = history.pop() {
        leave_key(history, index, &last);
        waits.leave(history, &last);
    }
}
