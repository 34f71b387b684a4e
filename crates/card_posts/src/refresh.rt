// Bringing what counts for earlier posts, and their order, up to a correction.
ghost use Rattle.std.specs.Prelude.{◌≡◌, ◌-◌, ◌<◌, ◌≤◌, min, length, take, slice_index_or, slice_set, vec_len, vec_capacity};
ghost use Rattle.card_events.specs.Limits.{post_limit};
ghost use Rattle.card_events.specs.Range.{last_calendar_day};
ghost use Rattle.card_posts.specs.Change.{AgreeBut, IsMoved, after_one, first_change, following, stands};
ghost use Rattle.card_posts.specs.Corrections.{corrections_from, corrects};
ghost use Rattle.card_posts.specs.Effect as spec;
ghost use Rattle.card_posts.specs.Stored.{AreOrdered, IsKept};
ghost use Rattle.card_posts.specs.declared.effect.Effect.{Effect};

use crate::correction_table::CorrectionTable;
use crate::effect::{Effect, effect_now};
use crate::order::change;
use card_events::{Anchor, Calendar, Day, Kept, Post, Slot};

// whether nothing of it has changed
fn stands(before: &Effect, now: &Effect) -> bool
    ensures { result ≡ stands before.now now.now }
{
    before.day == now.day && before.cents == now.cents
}

// The earlier of two days.
pub fn sooner(a: Day, b: Day) -> Day
    ensures value { result ≡ min a b }
    ensures bound { a ≤ last_calendar_day }
{
    if a.number() < b.number() { a } else { b }
}

// Whether a post changes what counts for earlier ones.
pub fn is_correction(post: &Post) -> bool
    ensures { result ≡ corrects post.now }
{
    matches!(post, Post::Amend { .. } | Post::Resolve { .. })
}

// The first day known to differ, after one more post was looked at.
pub fn after_one(first: Day, before: &Effect, now: &Effect) -> Day
    ensures { result ≡ after_one first before.now now.now }
{
    if stands(before, now) {
        return first;
    }
    sooner(first, sooner(before.day, now.day))
}

// brings one post, and its place in the order, up to what counts now
fn refresh_one(effects: &mut [Effect], order: &mut Vec<Slot>, i: usize, now: &Effect)
    requires few { length effects.old ≤ post_limit }
    requires known { i < length effects.old }
    requires ordered { AreOrdered order.old.items effects.old }
    ensures effects { effects.new ≡ slice_set effects.old i now.now }
    ensures ordered { AreOrdered order.new.items effects.new }
    ensures len { vec_len order.new ≡ vec_len order.old }
    ensures capacity { vec_capacity order.old ≤ vec_capacity order.new }
{
    if stands(&effects[i], now) {
        return;
    }
    change(order, effects, i, now);
    effects[i] = *now;
}

// brings the posts with these numbers up to what the history says, where the others are
fn refresh(
    history: &[Kept],
    corrections: &CorrectionTable,
    effects: &mut [Effect],
    order: &mut Vec<Slot>,
    anchor: &Anchor,
    calendar: &Calendar,
    numbers: &[u32],
)
    requires kept { IsKept anchor.now history.now }
    requires corrections { corrections.now.each ≡ corrections_from history.now 1 history.now }
    requires length { length effects.old ≤ length history.now }
    requires ordered { AreOrdered order.old.items effects.old }
    requires others { AgreeBut numbers.now effects.old (take (length effects.old) (spec.effects anchor.now calendar.now history.now)) }
    ensures effects { effects.new ≡ take (length effects.old) (spec.effects anchor.now calendar.now history.now) }
    ensures ordered { AreOrdered order.new.items effects.new }
    ensures len { vec_len order.new ≡ vec_len order.old }
    ensures capacity { vec_capacity order.old ≤ vec_capacity order.new }
{
    for j in 0..numbers.len() {
        let i = numbers[j] as usize - 1;
        let now = effect_now(history, corrections, effects, i, anchor, calendar);
        refresh_one(effects, order, i, &now);
    }
}

// the posts for which something else may count with one that is corrected
fn following<'a>(before: &Effect, now: &Effect, waiting: &'a [u32]) -> &'a [u32]
    ensures { result.now ≡ following before.now now.now waiting.now }
{
    // What waits depends on the day of the post that it names, not on its cents.
    if before.day == now.day {
        &waiting[..0]
    } else {
        waiting
    }
}

// Brings earlier posts up to a new one, which stands last in the history: the one that it corrects, and those that follow that
// one. Answers the first day known to differ.
pub fn update(
    history: &[Kept],
    corrections: &CorrectionTable,
    effects: &mut [Effect],
    order: &mut Vec<Slot>,
    anchor: &Anchor,
    calendar: &Calendar,
    number: u64,
    waiting: &[u32],
) -> Day
    requires kept { IsKept anchor.now history.now }
    requires corrections { corrections.now.each ≡ corrections_from history.now 1 history.now }
    requires length { length effects.old ≤ length history.now }
    requires ordered { AreOrdered order.old.items effects.old }
    requires moved { IsMoved number waiting.now effects.old (take (length effects.old) (spec.effects anchor.now calendar.now history.now)) }
    ensures effects { effects.new ≡ take (length effects.old) (spec.effects anchor.now calendar.now history.now) }
    ensures ordered { AreOrdered order.new.items effects.new }
    ensures first { result ≡ first_change last_calendar_day effects.old effects.new }
    ensures len { vec_len order.new ≡ vec_len order.old }
    ensures capacity { vec_capacity order.old ≤ vec_capacity order.new }
{
    let last = Day::last();
    if number == 0 {
        return last;
    }
    let i = number as usize - 1;
    let before = effects[i];
    let now = effect_now(history, corrections, effects, i, anchor, calendar);
    refresh_one(effects, order, i, &now);
    let numbers = following(&before, &now, waiting);
    refresh(
        history,
        corrections,
        effects,
        order,
        anchor,
        calendar,
        numbers,
    );
    after_one(last, &before, &now)
}
