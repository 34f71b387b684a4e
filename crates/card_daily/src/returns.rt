// A payment that is returned: its parts are owed again, and a fee may be due.
ghost use Rattle.std.specs.Prelude.{◌≡◌, ◌+◌, ◌-◌, ◌<◌, ◌≤◌, ℕ, Bool, nat_lt, List, Some, None, Option, OnOk, OnErr, length, pos, ◌≤ℤ◌, option_copied, option_map, vec_len, vec_capacity};
ghost use Rattle.card_model.specs.Limits.{balance_limit};
ghost use Rattle.card_events.specs.Range.{last_request_day};
ghost use Rattle.card_effects.specs.Returned.{AreOfThose, AreReturnable, parts_of};
ghost use Rattle.card_effects.specs.Standing.{AreRated, IsSlotOf};
ghost use Rattle.card_events.specs.History.{CorrectedPost, slot_of};
ghost use Rattle.card_events.specs.declared.post.Post.TheVariants as post;
ghost use Rattle.card_closing.specs.Growth.{IsOfNoCredit, or_post};
ghost use Rattle.card_closing.specs.Rows.{Rows};
ghost use Rattle.card_model.specs.Books.{Book};
ghost use Rattle.card_model.specs.Cycles.{Cycle};
ghost use Rattle.card_model.specs.Effects as model;
ghost use Rattle.card_model.specs.Fees.{last_due, penalty_fee};
ghost use Rattle.card_model.specs.Payments.{asked};
ghost use Rattle.card_model.specs.Segments.{SegmentTerms, last_that};
ghost use Rattle.card_model.specs.declared.fee.FeeKind.TheVariants as kind;
ghost use Rattle.card_segments.specs.Balances.{AreWithin};
ghost use Rattle.card_daily.specs.Given.{account_in, opened_in, row_in, seen_in};
ghost use Rattle.card_daily.specs.Returns.{IsDueBy, SeesPayment, fee_of, fees_with};
ghost use Rattle.card_daily.specs.Posts.{EntersReturn, LeavesRest};
ghost use Rattle.card_daily.specs.Stands.{AreClosedBefore, KeepsRoom};

use crate::due::{due_cycle, fees_of, minimum_of, push_fee};
use crate::{Inputs, State, Track};
use card_closing::Cycle;
use card_effects::{returned, unpay};
use card_events::{Cents, Day, NoMemory, Slot};
use card_fees::{asked, capped_fee, returned_fee};
use card_model::Fee;
use std::alloc::Global;

// Whether a cycle closed before a day.
fn is_closed(cycle: &Cycle, day: Day) -> bool
    ensures { result ≡ nat_lt cycle.now.closing day }
{
    cycle.closing < day
}

// Whether it was due before a day.
fn is_due(cycle: &Cycle, day: Day) -> bool
    ensures { result ≡ nat_lt cycle.now.due day }
{
    cycle.due < day
}

// The last cycle that closed before a day.
fn closed_before(cycles: &[Cycle], day: Day) -> Option<&Cycle>
    ensures { option_copied result ≡ last_that (λ c. nat_lt c.closing day) cycles.now }
{
    for place in (0..cycles.len()).rev() {
        let cycle = &cycles[place];
        if is_closed(cycle, day) {
            return Some(cycle);
        }
    }
    None
}

// The last cycle whose due date lies before a day.
fn due_before(cycles: &[Cycle], day: Day) -> Option<&Cycle>
    ensures { option_copied result ≡ last_due day cycles.now }
{
    for place in (0..cycles.len()).rev() {
        let cycle = &cycles[place];
        if is_due(cycle, day) {
            return Some(cycle);
        }
    }
    None
}

// The cycle whose due date a payment was for. A void payment has none.
fn meant_for(cycles: &[Cycle], payment: Option<Slot>) -> Option<&Cycle>
    ensures { (p : Option CorrectedPost) → payment ≡ option_map slot_of p → option_copied result ≡ model.meant_for cycles.now p }
{
    match payment {
        Some(slot) => {
            if slot.cents == 0 {
                None
            } else {
                closed_before(cycles, slot.day)
            }
        }
        None => None,
    }
}

// What the due date of a cycle asks for, 0 where there is none.
fn asked_by(inputs: &Inputs, day: Day, cycle: Option<&Cycle>) -> u64
    requires due { (c : Cycle) → option_copied cycle ≡ Some c → IsDueBy inputs.now day c }
    requires last { day ≤ last_request_day }
    ensures { result ≡ asked (seen_in inputs.now day).issued (option_copied cycle.entry) }
{
    match cycle {
        Some(cycle) => asked(&due_cycle(inputs, day, cycle)),
        None => 0,
    }
}

// The fee for the due date of a cycle, for which a payment was meant that is returned.
fn fee_for(inputs: &Inputs, day: Day, fees: &[Fee], cycles: &[Cycle], meant: &Cycle) -> Option<Fee>
    requires closed { AreClosedBefore inputs.now day cycles.now }
    ensures { (b : Book) → b.cycles ≡ cycles.now → b.fees ≡ fees.now → result ≡ penalty_fee (row_in inputs.now (day - opened_in inputs.now)) (seen_in inputs.now day) b kind.Returned meant.now }
{
    let anchor = inputs.anchor();
    let least = asked_by(inputs, day, due_before(cycles, day));
    let issued = fees_of(inputs.issued_since(cycles.len() as u64 + 1, day));
    match returned_fee(
        inputs.fees(),
        fees,
        anchor,
        meant.number,
        day,
        minimum_of(meant),
        least,
    ) {
        Some(fee) => capped_fee(issued, &fee),
        None => None,
    }
}

// The fee for a payment that is returned on a day, by its number.
fn fee_of(inputs: &Inputs, day: Day, payment: u32, fees: &[Fee], cycles: &[Cycle]) -> Option<Fee>
    requires closed { AreClosedBefore inputs.now day cycles.now }
    requires seen { SeesPayment inputs.now day payment }
    ensures { (b : Book) → b.cycles ≡ cycles.now → b.fees ≡ fees.now → result ≡ fee_of inputs.now day payment b }
{
    let slot = inputs.posts().slot(payment as u64);
    match meant_for(cycles, slot) {
        Some(meant) => fee_for(inputs, day, fees, cycles, meant),
        None => None,
    }
}

// Adds a fee, where there is one, for which room was made.
fn push_if_any(list: &mut Vec<Fee>, fee: Option<Fee>)
    requires { vec_len list.old < vec_capacity list.old }
    ensures items { list.new.items ≡ fees_with fee list.old.items }
    ensures capacity { vec_capacity list.old ≤ vec_capacity list.new }
{
    if let Some(fee) = fee {
        push_fee(list, fee);
    }
}

/// Enters the return of a payment, by its number. What the payment brought no longer counts as repaid.
pub(crate) fn enter_return(
    alloc: Global,
    inputs: &Inputs,
    slot: &Slot,
    payment: u32,
    state: &mut State,
    track: &mut Track,
) -> Result<(), NoMemory>
    requires closed { AreClosedBefore inputs.now slot.now.day track.old.cycles.items }
    requires rated { AreRated state.old.segments.segments state.old.rates }
    requires small { AreWithin balance_limit state.old.segments.balances }
    requires parts { AreReturnable (length state.old.segments.balances) (parts_of payment track.old.entries.items) }
    requires seen { SeesPayment inputs.now slot.now.day payment }
    ensures stands { OnOk result (EntersReturn inputs.now payment slot.now state.old state.new track.old track.new) }
    ensures left { LeavesRest result state.old state.new track.old track.new }
    ensures room { KeepsRoom track.old track.new }
{
    let _anchor = inputs.anchor();
    let charged = fee_of(inputs, slot.day, payment, &track.fees, &track.cycles);
    track.fees.reserve(1)?;
    returned(
        alloc,
        &mut state.segments,
        &state.rates,
        slot,
        payment,
        &charged,
        &mut track.entries,
    )?;
    // The payment was folded before its Return, so at the day's end the rows leave out all that was returned by then.
    unpay(&mut state.rows, payment);
    push_if_any(&mut track.fees, charged);
    Ok(())
}
