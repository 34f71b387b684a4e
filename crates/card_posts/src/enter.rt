// Entering a post, with room made for it.
ghost use Rattle.std.specs.Prelude.{◌≡◌, ◌+◌, ◌<◌, ◌≤◌, ◌++◌, [], ◌∷◌, List, false, length, take, vec_len, vec_capacity};
ghost use Rattle.card_events.specs.Limits.{post_limit};
ghost use Rattle.card_events.specs.declared.kept.Kept.{Kept};
ghost use Rattle.card_waits.specs.Waits as spec_waits;
ghost use Rattle.card_posts.specs.Change.{IsFirstChange, IsMoved};
ghost use Rattle.card_posts.specs.Corrections.{corrections_from, corrects};
ghost use Rattle.card_posts.specs.Effect.{AreSmall, corrected_with, slots_from};
ghost use Rattle.card_posts.specs.Effect as spec;
ghost use Rattle.card_posts.specs.Later.{HasSpare};
ghost use Rattle.card_posts.specs.Order.{in_order};
ghost use Rattle.card_posts.specs.Posted.{target_of};
ghost use Rattle.card_posts.specs.Stored.{AreBeside, IsKept, IsTimely};

use crate::correction::{changed_by, note};
use crate::correction_table::CorrectionTable;
use crate::effect::{Effect, effect_now};
use crate::order::{place, slot};
use crate::refresh::{sooner, update};
use card_events::{Anchor, Calendar, Day, Kept, Slot};

// appends a post, and what later ones say of it, which is nothing
fn append(history: &mut Vec<Kept>, corrections: &mut CorrectionTable, anchor: &Anchor, kept: Kept)
    requires kept { IsKept anchor.now history.old.items }
    requires few { length history.old.items < post_limit }
    requires number { kept.number ≡ length history.old.items + 1 }
    requires earlier { target_of kept.post ≤ length history.old.items }
    requires timely { IsTimely anchor.now.opened kept }
    requires corrections { corrections.old.each ≡ corrections_from history.old.items 1 history.old.items }
    requires room_history { vec_len history.old < vec_capacity history.old }
    requires room_corrections { HasSpare corrections.old }
    ensures history { history.new.items ≡ history.old.items ++ kept ∷ [] }
    ensures kept { IsKept anchor.now history.new.items }
    ensures corrections { corrections.new.each ≡ corrections_from history.new.items 1 history.new.items }
    ensures spare { corrects kept.post ≡ false → HasSpare corrections.new }
{
    note(history, corrections, &kept.post);
    corrections.push();
    history.push_reserved(kept);
}

// Brings the corrected list up to the last post of the history, which corrects the one with a number, 0 for none. Answers the first
// day on which it differs.
fn follow(
    history: &[Kept],
    corrections: &CorrectionTable,
    effects: &mut Vec<Effect>,
    order: &mut Vec<Slot>,
    anchor: &Anchor,
    calendar: &Calendar,
    number: u64,
    waiting: &[u32],
) -> Day
    requires kept { IsKept anchor.now history.now }
    requires corrections { corrections.now.each ≡ corrections_from history.now 1 history.now }
    requires length { length history.now ≡ length effects.old.items + 1 }
    requires small { AreSmall effects.old.items }
    requires order { order.old.items ≡ in_order (slots_from 1 effects.old.items) }
    requires room_effects { vec_len effects.old < vec_capacity effects.old }
    requires room_order { vec_len order.old < vec_capacity order.old }
    requires moved { IsMoved number waiting.now effects.old.items (take (length effects.old.items) (spec.effects anchor.now calendar.now history.now)) }
    ensures effects { effects.new.items ≡ spec.effects anchor.now calendar.now history.now }
    ensures small { AreSmall effects.new.items }
    ensures order { order.new.items ≡ in_order (slots_from 1 effects.new.items) }
    ensures from { (h : List Kept) (k : Kept) → history.now ≡ h ++ k ∷ [] → IsFirstChange result (corrected_with 1 5 h effects.old.items) (corrected_with 1 5 history.now effects.new.items) }
{
    let count = effects.len();
    let changed = update(
        history,
        corrections,
        effects,
        order,
        anchor,
        calendar,
        number,
        waiting,
    );
    let effect = effect_now(history, corrections, effects, count, anchor, calendar);
    let from = sooner(effect.day, changed);
    place(order, slot(count as u32 + 1, &effect));
    effects.push_reserved(effect);
    from
}

// Enters a post, with room made for it, where the corrected list is that of the history, and these are the numbers of its posts
// that wait. Answers the first day on which the list differs.
pub fn enter(
    history: &mut Vec<Kept>,
    corrections: &mut CorrectionTable,
    effects: &mut Vec<Effect>,
    order: &mut Vec<Slot>,
    anchor: &Anchor,
    calendar: &Calendar,
    kept: Kept,
    waiting: &[u32],
) -> Day
    requires kept { IsKept anchor.now history.old.items }
    requires waiting { waiting.now ≡ spec_waits.waiting history.old.items }
    requires beside { AreBeside history.old.items corrections.old.each effects.old.items order.old.items }
    requires stands { effects.old.items ≡ spec.effects anchor.now calendar.now history.old.items }
    requires few { length history.old.items < post_limit }
    requires number { kept.number ≡ length history.old.items + 1 }
    requires earlier { target_of kept.post ≤ length history.old.items }
    requires timely { IsTimely anchor.now.opened kept }
    requires room_history { vec_len history.old < vec_capacity history.old }
    requires room_corrections { HasSpare corrections.old }
    requires room_effects { vec_len effects.old < vec_capacity effects.old }
    requires room_order { vec_len order.old < vec_capacity order.old }
    ensures history { history.new.items ≡ history.old.items ++ kept ∷ [] }
    ensures kept { IsKept anchor.now history.new.items }
    ensures beside { AreBeside history.new.items corrections.new.each effects.new.items order.new.items }
    ensures spare { corrects kept.post ≡ false → HasSpare corrections.new }
    ensures stands { effects.new.items ≡ spec.effects anchor.now calendar.now history.new.items }
    ensures from { IsFirstChange result (corrected_with 1 5 history.old.items effects.old.items) (corrected_with 1 5 history.new.items effects.new.items) }
{
    let number = changed_by(history, &kept.post);
    append(history, corrections, anchor, kept);
    follow(
        history,
        corrections,
        effects,
        order,
        anchor,
        calendar,
        number,
        waiting,
    )
}
