// What counts for each post now, by number.
ghost use Rattle.std.specs.Prelude.{◌≡◌, ℕ, ◌+◌, ◌-◌, ◌<◌, ◌≤◌, ◌++◌, false, List, [], ◌∷◌, Option, Some, max, length, take, slice_index_or, unwrap_or};
ghost use Rattle.card_events.specs.Range.{last_request_day};
ghost use Rattle.card_events.specs.Billing.{IsCloseDay};
ghost use Rattle.card_events.specs.Business.{credit_day, is_mail, last_minute};
ghost use Rattle.card_events.specs.History.{amend_of, amended_cents, amended_day, cents_of, effective_day};
ghost use Rattle.card_events.specs.declared.kept.Kept.{Kept};
ghost use Rattle.card_posts.specs.Corrections.{correction_of, changed_by, corrections_from};
ghost use Rattle.card_posts.specs.Effect.{IsAmendDated, awaits, day_alone, day_awaited, effect_of, own_day};
ghost use Rattle.card_posts.specs.Effect as spec;
ghost use Rattle.card_posts.specs.Posted.{IsReceived, cents_limit, target_of};
ghost use Rattle.card_posts.specs.Stored.{IsKept, IsTimely};
ghost use Rattle.card_posts.specs.declared.effect.Effect.{Effect};
ghost use Rattle.card_events.specs.declared.anchor.Anchor.{Anchor};

use crate::correction::{Correction, nothing, with_post};
use crate::correction_table::CorrectionTable;
use card_events::{Anchor, Calendar, Channel, Day, Kept, Num, Post, credit_day, numbered};

// What counts for a post now: its effective day and its corrected cents.
#[derive(Clone, Copy)]
pub struct Effect {
    pub day: Day,
    pub cents: Num,
}

// the day that the last Amend gives, or else the post's own
fn amended_day(correction: &Correction, own: Day) -> Day
    ensures { result ≡ amended_day correction.now.amend own }
{
    match correction.amend {
        Some((day, _)) => day,
        None => own,
    }
}

// the cents that the last Amend gives, or else the post's own
fn amended_cents(correction: &Correction, own: Num) -> Num
    ensures { result ≡ amended_cents correction.now.amend own }
{
    match correction.amend {
        Some((_, cents)) => cents,
        None => own,
    }
}

// the cents less a sum, and not below 0
fn less(cents: Num, sum: u64) -> Num
    ensures value { result ≡ cents - sum }
    ensures bound { cents ≤ cents_limit }
{
    Num::new(cents.get().saturating_sub(sum)).unwrap()
}

// No cents.
pub fn no_cents() -> Num
    ensures { result ≡ 0 }
{
    Num::new(0).unwrap()
}

// the corrected cents of a post
fn cents_now(post: &Post, correction: &Correction) -> Num
    ensures { (history : List Kept) (n : ℕ) → correction.now ≡ correction_of history n → result ≡ cents_of history n post.now }
{
    match post {
        Post::Charge { cents, .. } => {
            let stands = amended_cents(correction, *cents);
            less(stands, correction.confirmed)
        }
        Post::Credit { cents, .. } | Post::Payment { cents, .. } => {
            amended_cents(correction, *cents)
        }
        Post::Dispute { cents, .. }
        | Post::Resolve { cents, .. }
        | Post::Refund { cents }
        | Post::Amend { cents, .. } => *cents,
        _ => no_cents(),
    }
}

// a post's own day, and that of acceptance where it has none
fn own_day(accepted: Day, post: &Post) -> Day
    ensures { result ≡ own_day accepted post.now }
{
    match *post {
        Post::Open { day, .. }
        | Post::OpenVariable { day, .. }
        | Post::Charge { day, .. }
        | Post::Credit { day, .. }
        | Post::Payment { day, .. }
        | Post::Return { day, .. }
        | Post::Plan { day, .. }
        | Post::Notice { day, .. }
        | Post::Lower { day, .. }
        | Post::Review { day, .. }
        | Post::Dispute { day, .. }
        | Post::Ack { day, .. }
        | Post::Resolve { day, .. }
        | Post::AskRefund { day }
        | Post::Amend { day, .. } => day,
        Post::Penalty | Post::Refund { .. } | Post::Bill { .. } => accepted,
    }
}

// The post that a post is about, and 0 for what is about none
pub fn target_of(post: &Post) -> u64
    ensures { result ≡ target_of post.now }
{
    match post {
        Post::Return { target, .. }
        | Post::Dispute { target, .. }
        | Post::Resolve { target, .. }
        | Post::Amend { target, .. } => target.get(),
        _ => 0,
    }
}

// whether a post counts no earlier than another one
fn awaits(post: &Post, target: &Post) -> bool
    ensures { result ≡ awaits post.now target.now }
{
    match (post, target) {
        (Post::Return { .. }, Post::Payment { .. })
        | (Post::Dispute { .. }, Post::Charge { .. })
        | (Post::Resolve { .. }, Post::Dispute { .. }) => true,
        _ => false,
    }
}

// the effective day of the post that a post waits for, where what counts for all posts before it is known
fn awaited_day(history: &[Kept], effects: &[Effect], post: &Post, i: usize) -> Option<Day>
    requires earlier { target_of post.now ≤ i }
    requires known { i ≤ length history.now }
    requires length { i ≤ length effects.now }
    ensures { (a : Anchor) (holidays : List ℕ) → take i effects.now ≡ take i (spec.effects a holidays history.now) → unwrap_or result 0 ≡ day_awaited a holidays history.now post.now }
{
    let target = target_of(post);
    match numbered(history, target) {
        Some(kept) if awaits(post, &kept.post) => Some(effects[target as usize - 1].day),
        _ => None,
    }
}

// the later of a day and another one, where there is one
fn later(day: Day, other: Option<Day>) -> Day
    ensures { result ≡ max day (unwrap_or other 0) }
{
    match other {
        Some(other) if other > day => other,
        _ => day,
    }
}

// the day as of which a payment is credited
fn credited(
    anchor: &Anchor,
    receipt: Day,
    minute: Num,
    channel: Channel,
    calendar: &Calendar,
) -> Day
    requires close_day { IsCloseDay anchor.now.close_day }
    requires opened { anchor.now.opened ≤ receipt }
    requires last { receipt ≤ last_request_day }
    requires minute { minute ≤ last_minute }
    ensures { result ≡ credit_day anchor.now calendar.now receipt minute (is_mail channel) }
{
    credit_day(*anchor, receipt, minute.get() as u16, channel, calendar)
}

// the effective day of a post by itself: its own or that of the last Amend, as of which a payment is credited
fn day_alone(
    accepted: Day,
    post: &Post,
    correction: &Correction,
    anchor: &Anchor,
    calendar: &Calendar,
) -> Day
    requires close_day { IsCloseDay anchor.now.close_day }
    requires dated { accepted ≤ last_request_day }
    requires received { IsReceived anchor.now.opened accepted post.now }
    requires amend { IsAmendDated anchor.now.opened correction.now.amend }
    ensures { result ≡ day_alone anchor.now calendar.now correction.now.amend accepted post.now }
{
    match *post {
        Post::Charge { day, .. } => amended_day(correction, day),
        Post::Credit { day, .. } => amended_day(correction, day),
        Post::Payment {
            day,
            minute,
            channel,
            ..
        } => {
            let receipt = amended_day(correction, day);
            credited(anchor, receipt, minute, channel, calendar)
        }
        _ => own_day(accepted, post),
    }
}

// the effective day of post i + 1, where what counts for all posts before it is known
fn day_now(
    history: &[Kept],
    effects: &[Effect],
    i: usize,
    kept: &Kept,
    correction: &Correction,
    anchor: &Anchor,
    calendar: &Calendar,
) -> Day
    requires close_day { IsCloseDay anchor.now.close_day }
    requires timely { IsTimely anchor.now.opened kept.now }
    requires amend { IsAmendDated anchor.now.opened correction.now.amend }
    requires correction { correction.now ≡ correction_of history.now (i + 1) }
    requires earlier { target_of kept.now.post ≤ i }
    requires known { i ≤ length history.now }
    requires length { i ≤ length effects.now }
    requires front { take i effects.now ≡ take i (spec.effects anchor.now calendar.now history.now) }
    ensures { result ≡ effective_day anchor.now calendar.now history.now (i + 1) kept.now.accepted kept.now.post }
{
    let alone = day_alone(kept.accepted, &kept.post, correction, anchor, calendar);
    later(alone, awaited_day(history, effects, &kept.post, i))
}

// The effective day of a post of which nothing is said yet, where what counts for all posts before it is known.
pub fn day_of_next(
    history: &[Kept],
    effects: &[Effect],
    accepted: Day,
    post: &Post,
    anchor: &Anchor,
    calendar: &Calendar,
) -> Day
    requires kept { IsKept anchor.now history.now }
    requires effects { effects.now ≡ spec.effects anchor.now calendar.now history.now }
    requires target { target_of post.now ≤ length history.now }
    requires dated { accepted ≤ last_request_day }
    requires received { IsReceived anchor.now.opened accepted post.now }
    ensures { result ≡ effective_day anchor.now calendar.now history.now (1 + length history.now) accepted post.now }
{
    let alone = day_alone(accepted, post, &nothing(), anchor, calendar);
    later(alone, awaited_day(history, effects, post, history.len()))
}

// What counts for the earlier post that one more post corrects, with that post.
pub fn effect_with(
    history: &[Kept],
    corrections: &CorrectionTable,
    effects: &[Effect],
    number: u64,
    post: &Post,
    anchor: &Anchor,
    calendar: &Calendar,
) -> Effect
    requires kept { IsKept anchor.now history.now }
    requires corrections { corrections.now.each ≡ corrections_from history.now 1 history.now }
    requires effects { effects.now ≡ spec.effects anchor.now calendar.now history.now }
    requires target { target_of post.now ≤ length history.now }
    requires number { number ≡ changed_by history.now post.now }
    requires some { 0 < number }
    requires known { number ≤ length history.now }
    requires dated { IsAmendDated anchor.now.opened (amend_of number post.now) }
    ensures { (k d : Kept) → k.post ≡ post.now → result ≡ effect_of anchor.now calendar.now (history.now ++ k ∷ []) number (slice_index_or history.now (number - 1) d) }
{
    let i = number as usize - 1;
    let kept = &history[i];
    let before = corrections.at(i);
    let correction = with_post(&before, post);
    let alone = day_alone(kept.accepted, &kept.post, &correction, anchor, calendar);
    Effect {
        day: later(alone, awaited_day(history, effects, &kept.post, i)),
        cents: cents_now(&kept.post, &correction),
    }
}

// What counts for post i + 1, where what counts for all posts before it is known.
pub fn effect_now(
    history: &[Kept],
    corrections: &CorrectionTable,
    effects: &[Effect],
    i: usize,
    anchor: &Anchor,
    calendar: &Calendar,
) -> Effect
    requires kept { IsKept anchor.now history.now }
    requires corrections { corrections.now.each ≡ corrections_from history.now 1 history.now }
    requires known { i < length history.now }
    requires length { i ≤ length effects.now }
    requires front { take i effects.now ≡ take i (spec.effects anchor.now calendar.now history.now) }
    ensures { (d : Effect) → result ≡ slice_index_or (spec.effects anchor.now calendar.now history.now) i d }
{
    let kept = &history[i];
    let correction = corrections.at(i);
    Effect {
        day: day_now(history, effects, i, kept, &correction, anchor, calendar),
        cents: cents_now(&kept.post, &correction),
    }
}
