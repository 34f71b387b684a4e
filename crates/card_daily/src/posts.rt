// The posts of a day, in order.
ghost use Rattle.std.specs.Prelude.{◌≡◌, ◌+◌, ◌-◌, ◌<◌, ◌≤◌, ℕ, Bool, true, false, nat_lt, List, [], length, min, Option, OnOk, OnErr, option_copied, pos, ◌≤ℤ◌, slice_index_or, unsigned_abs};
ghost use Rattle.card_events.specs.Limits.{post_limit};
ghost use Rattle.card_model.specs.Limits.{balance_limit};
ghost use Rattle.card_events.specs.Range.{last_request_day};
ghost use Rattle.card_bounds.specs.Bounds.{moved};
ghost use Rattle.card_events.specs.Billing.{IsCloseDay};
ghost use Rattle.card_events.specs.declared.anchor.Channel.{Channel};
ghost use Rattle.card_effects.specs.Returned.{AreReturnable, parts_of};
ghost use Rattle.card_effects.specs.Entering.{FollowsWhereAsked, MayMove};
ghost use Rattle.card_events.specs.History.{CorrectedPost, anchor_of};
ghost use Rattle.card_events.specs.declared.post.Post.TheVariants as post;
ghost use Rattle.card_closing.specs.Rows.{Rows};
ghost use Rattle.card_effects.specs.Accounts.{AreOf};
ghost use Rattle.card_model.specs.Books.{Account, Book};
ghost use Rattle.card_model.specs.CycleDays.{IsOpening};
ghost use Rattle.card_model.specs.Cycles.{Cycle, IssuedRow, Seen, last_cycle};
ghost use Rattle.card_model.specs.Deadlines.{resolves};
ghost use Rattle.card_model.specs.Effects.{effect, moved_by, second_closing};
ghost use Rattle.card_model.specs.Payments as model;
ghost use Rattle.card_model.specs.Payments.{returns};
ghost use Rattle.card_model.specs.Segments.{SegmentTerms};
ghost use Rattle.card_segments.specs.Balances.{AreWithin};
ghost use Rattle.card_rates.specs.Days.{day_post};
ghost use Rattle.card_rates.specs.SlotLaws.{IsCut};
ghost use Rattle.card_daily.specs.Given.{IsDayOf, Tallies, seen_in};
ghost use Rattle.card_daily.specs.Posts.{EntersIf, EntersPost, EntersWith, HasBegun, IsUnreturned, LeavesRest, done_by, is_penalty, place_in};
ghost use Rattle.card_daily.specs.Returns.{SeesPayment};
ghost use Rattle.card_daily.specs.Stands.{AreAmid, AreClosedBefore, Begins, before, posts_of, KeepsRoom};

use crate::due::due_cycle;
use crate::holds::{enter_dispute, enter_resolve};
use crate::penalties::begin_penalty;
use crate::place::place_near;
use crate::returns::enter_return;
use crate::{Inputs, State, Track};
use card_closing::Cycle;
use card_effects::{charge, credit, payment, refund, repay};
use card_events::{Anchor, Cents, Day, NoMemory, Place, Post, Slot, closing, cycle_of};
use card_fees::{Tally, minimum_left};
use card_rates::{DayPost, RateBook, folded_at};
use std::alloc::Global;

// The closing after that of a day's cycle.
fn following_closing(anchor: &Anchor, day: Day) -> Day
    requires anchor { IsOpening anchor.now }
    requires opened { anchor.now.opened ≤ day }
    requires last { day ≤ last_request_day }
    ensures { (a : Account) → a.anchor ≡ anchor.now → result ≡ second_closing a day }
{
    closing(*anchor, cycle_of(*anchor, day) + 1).unwrap()
}

// The same where the rates have a deferred plan, which alone reads it, else the day itself.
fn closing_to_ask(rates: &RateBook, anchor: &Anchor, day: Day) -> Day
    requires anchor { IsOpening anchor.now }
    requires opened { anchor.now.opened ≤ day }
    requires last { day ≤ last_request_day }
    ensures { (a : Account) (seen : Seen) → a.anchor ≡ anchor.now → seen.day ≡ day → FollowsWhereAsked rates.now result a seen }
{
    if rates.may_accrue() {
        following_closing(anchor, day)
    } else {
        day
    }
}

// The lesser of two amounts.
fn lesser(cents: Cents, left: u64) -> Cents
    requires { pos 0 ≤ℤ cents }
    ensures value { result ≡ pos (min (unsigned_abs cents) left) }
    ensures low { pos 0 ≤ℤ result }
    ensures within { result ≤ℤ cents }
{
    (cents as u64).min(left) as i64
}

// What is left of the minimum payment of the last closed cycle for the payment of a day with this number.
fn left_of(inputs: &Inputs, day: Day, number: u32, cycle: &Cycle, tally: &mut Tally) -> u64
    requires dated { IsDayOf inputs.now day }
    requires cycle { last_cycle (before inputs.now day).cycles ≡ Some cycle.now }
    requires tally { Tallies inputs.now day tally.old }
    ensures value { (p : CorrectedPost) → p.day ≡ day → p.number ≡ number → result ≡ model.minimum_left (seen_in inputs.now day) p (Some cycle.now) }
    ensures tally { Tallies inputs.now day tally.new }
{
    let _anchor = inputs.anchor();
    let due = due_cycle(inputs, day, cycle);
    minimum_left(inputs.posts(), &due, day, number, tally)
}

// The same, 0 where no cycle is closed.
fn left_if_any(
    inputs: &Inputs,
    day: Day,
    number: u32,
    last: Option<&Cycle>,
    tally: &mut Tally,
) -> u64
    requires dated { IsDayOf inputs.now day }
    requires last { option_copied last ≡ last_cycle (before inputs.now day).cycles }
    requires tally { Tallies inputs.now day tally.old }
    ensures value { (p : CorrectedPost) → p.day ≡ day → p.number ≡ number → result ≡ model.minimum_left (seen_in inputs.now day) p (last_cycle (before inputs.now day).cycles) }
    ensures tally { Tallies inputs.now day tally.new }
{
    match last {
        Some(cycle) => left_of(inputs, day, number, cycle, tally),
        None => 0,
    }
}

// Enters a charge.
fn enter_charge(
    slot: &Slot,
    place: &Place,
    state: &mut State,
    track: &mut Track,
) -> Result<(), NoMemory>
    requires asked { MayMove state.old.segments state.old.rates slot.now.cents }
    ensures stands { OnOk result ((a : Account) (seen : Seen) (on cents : ℕ) → EntersWith a seen (post.Charge on place.now cents) slot.now state.old state.new track.old track.new) }
    ensures left { LeavesRest result state.old state.new track.old track.new }
    ensures room { KeepsRoom track.old track.new }
{
    charge(
        &mut state.segments,
        &state.rates,
        slot,
        place,
        &mut track.entries,
    )
}

// Enters a refund.
fn enter_refund(slot: &Slot, state: &mut State, track: &mut Track) -> Result<(), NoMemory>
    requires asked { MayMove state.old.segments state.old.rates slot.now.cents }
    ensures stands { OnOk result ((a : Account) (seen : Seen) (cents : ℕ) → EntersWith a seen (post.Refund cents) slot.now state.old state.new track.old track.new) }
    ensures left { LeavesRest result state.old state.new track.old track.new }
    ensures room { KeepsRoom track.old track.new }
{
    refund(&mut state.segments, &state.rates, slot, &mut track.entries)
}

// Enters a payment. Its parts count as repaid.
fn enter_payment(
    alloc: Global,
    inputs: &Inputs,
    slot: &Slot,
    state: &mut State,
    track: &mut Track,
    tally: &mut Tally,
) -> Result<(), NoMemory>
    requires closed { AreClosedBefore inputs.now slot.now.day track.old.cycles.items }
    requires asked { MayMove state.old.segments state.old.rates slot.now.cents }
    requires rows { length state.old.rows.items + 2 ≡ length state.old.segments.balances }
    requires tally { Tallies inputs.now slot.now.day tally.old }
    ensures stands { OnOk result ((on minute cents : ℕ) (by : Channel) → EntersIf IsUnreturned inputs.now (post.Payment on minute by cents) slot.now state.old state.new track.old track.new) }
    ensures left { LeavesRest result state.old state.new track.old track.new }
    ensures room { KeepsRoom track.old track.new }
    ensures tally { Tallies inputs.now slot.now.day tally.new }
{
    let anchor = inputs.anchor();
    let left = left_if_any(inputs, slot.day, slot.number, track.cycles.last(), tally);
    let parts = payment(
        alloc,
        &mut state.segments,
        &state.rates,
        inputs.index(),
        slot,
        lesser(slot.cents, left),
        closing_to_ask(&state.rates, &anchor, slot.day),
        &mut track.entries,
    )?;
    repay(&mut state.rows, &parts, slot)?;
    Ok(())
}

// Enters a merchant's credit. Its parts count as repaid.
fn enter_credit(
    alloc: Global,
    inputs: &Inputs,
    slot: &Slot,
    place: &Place,
    state: &mut State,
    track: &mut Track,
) -> Result<(), NoMemory>
    requires dated { IsDayOf inputs.now slot.now.day }
    requires asked { MayMove state.old.segments state.old.rates slot.now.cents }
    requires rows { length state.old.rows.items + 2 ≡ length state.old.segments.balances }
    ensures stands { OnOk result ((on cents : ℕ) → EntersIf HasBegun inputs.now (post.Credit on place.now cents) slot.now state.old state.new track.old track.new) }
    ensures left { LeavesRest result state.old state.new track.old track.new }
    ensures room { KeepsRoom track.old track.new }
{
    let anchor = inputs.anchor();
    let parts = credit(
        alloc,
        &mut state.segments,
        &state.rates,
        inputs.index(),
        slot,
        place,
        closing_to_ask(&state.rates, &anchor, slot.day),
        &mut track.entries,
    )?;
    repay(&mut state.rows, &parts, slot)?;
    Ok(())
}

// Enters a post of its day. The kinds that aren't named change nothing.
fn enter_post(
    alloc: Global,
    inputs: &Inputs,
    post: &DayPost,
    state: &mut State,
    track: &mut Track,
    tally: &mut Tally,
) -> Result<(), NoMemory>
    requires closed { AreClosedBefore inputs.now post.now.slot.day track.old.cycles.items }
    requires asked { MayMove state.old.segments state.old.rates post.now.slot.cents }
    requires rows { length state.old.rows.items + 2 ≡ length state.old.segments.balances }
    requires parts { (n : ℕ) → AreReturnable (length state.old.segments.balances) (parts_of n track.old.entries.items) }
    requires kind { is_penalty post.now.post ≡ false }
    requires account { AreOf inputs.now.history state.old.segments.segments state.old.rates }
    requires moved { moved track.old.entries.items ≤ balance_limit }
    requires held { (n : ℕ) → resolves n post.now.post ≡ true → pos (moved_by n track.old.entries.items) ≤ℤ slice_index_or state.old.segments.balances 1 (pos 0) }
    requires named { (n : ℕ) → returns n post.now.post ≡ true → (n ≤ post_limit) × SeesPayment inputs.now post.now.slot.day n }
    requires tally { Tallies inputs.now post.now.slot.day tally.old }
    ensures stands { OnOk result (EntersPost inputs.now post.now state.old state.new track.old track.new) }
    ensures left { LeavesRest result state.old state.new track.old track.new }
    ensures room { KeepsRoom track.old track.new }
    ensures tally { Tallies inputs.now post.now.slot.day tally.new }
{
    let slot = &post.slot;
    match &post.post {
        Post::Charge { place, .. } => enter_charge(slot, place, state, track),
        Post::Credit { place, .. } => enter_credit(alloc, inputs, slot, place, state, track),
        Post::Payment { .. } => enter_payment(alloc, inputs, slot, state, track, tally),
        Post::Refund { .. } => enter_refund(slot, state, track),
        Post::Return { target, .. } => {
            enter_return(alloc, inputs, slot, target.get() as u32, state, track)
        }
        Post::Dispute { target, cents, .. } => {
            enter_dispute(inputs, slot, *target, *cents, state, track)
        }
        Post::Resolve { target, .. } => enter_resolve(inputs, slot, *target, state, track),
        _ => Ok(()),
    }
}

// Enters the post at a place of a day, where its kind is folded.
fn enter(
    alloc: Global,
    inputs: &Inputs,
    day: Day,
    place: usize,
    state: &mut State,
    track: &mut Track,
    tally: &mut Tally,
) -> Result<(), NoMemory>
    requires dated { IsDayOf inputs.now day }
    requires from { place_in inputs.now day ≤ place }
    requires within { place < place_in inputs.now day + length (posts_of inputs.now day) }
    requires amid { AreAmid inputs.now day (done_by inputs.now day place) state.old track.old }
    requires tally { Tallies inputs.now day tally.old }
    ensures amid { OnOk result (AreAmid inputs.now day (done_by inputs.now day (place + 1)) state.new track.new) }
    ensures begins { Begins track.old track.new }
    ensures room { KeepsRoom track.old track.new }
    ensures tally { Tallies inputs.now day tally.new }
{
    let _anchor = inputs.anchor();
    // what the length says is needed as a fact: a balance for each segment, five of them at least, and at most 64
    let _count = state.segments.len();
    match folded_at(inputs.posts(), place) {
        Some(post) => match &post.post {
            Post::Penalty => begin_penalty(inputs, day, &track.cycles, &mut state.rates),
            _ => enter_post(alloc, inputs, &post, state, track, tally),
        },
        None => Ok(()),
    }
}

// Whether a slot is of a later day.
fn is_after(slot: &Slot, day: Day) -> bool
    ensures { result ≡ nat_lt day slot.now.day }
{
    slot.day > day
}

// The place behind a day's last slot, from that of its first on.
fn end_of(slots: &[Slot], first: usize, day: Day) -> usize
    ensures { (end : ℕ) → IsCut slots.now (day + 1) end → first ≤ end → result ≡ end }
{
    for place in first..slots.len() {
        if is_after(&slots[place], day) {
            return place;
        }
    }
    slots.len()
}

/// Enters the posts of a day, in order of number: charges, refunds, payments, merchants' credits, returned payments, disputes and
/// their resolutions (12 CFR 1026.10, .11(a), .13, .52(b), .53), and the kinds that change no balance. A Penalty begins 45 days
/// later where the account is sixty days late (12 CFR 1026.9(g), .55(b)(4)). The day isn't before the opening day and at most
/// 2099-12-31; the days before it are folded, and what its due date brought. Its posts are looked for from a place on, as
/// `place_near` does: for speed alone. What the tally counted of payments and credits is right for the account's posts up to the
/// day, and stays so, also if memory runs out; state and track are then of no use, but that the track begins with what it held.
pub fn post_day(
    alloc: Global,
    inputs: &Inputs,
    day: Day,
    near: usize,
    state: &mut State,
    track: &mut Track,
    tally: &mut Tally,
) -> Result<(), NoMemory>
    requires dated { IsDayOf inputs.now day }
    requires amid { AreAmid inputs.now day [] state.old track.old }
    requires tally { Tallies inputs.now day tally.old }
    ensures posted { OnOk result (AreAmid inputs.now day (posts_of inputs.now day) state.new track.new) }
    ensures begins { Begins track.old track.new }
    ensures room { KeepsRoom track.old track.new }
    ensures tally { Tallies inputs.now day tally.new }
{
    let posts = inputs.posts();
    let first = place_near(posts, near, day);
    let end = end_of(posts.in_order(), first, day);
    for place in first..end {
        enter(alloc, inputs, day, place, state, track, tally)?;
    }
    Ok(())
}
