// What a due date brings on the day after it.
ghost use Rattle.std.specs.Prelude.{◌≡◌, ◌+◌, ◌-◌, ◌<◌, ◌≤◌, ◌==◌, ℕ, List, [], ◌∷◌, ◌++◌, Some, None, OnOk, OnErr, pos, ◌≤ℤ◌, option_copied, option_map, vec_len, vec_capacity};
ghost use Rattle.card_model.specs.Limits.{balance_limit};
ghost use Rattle.card_events.specs.Range.{last_request_day, last_calendar_day};
ghost use Rattle.card_fees.specs.Asked.{is_due_by};
ghost use Rattle.card_effects.specs.Entering.{ChargesFee, MayMove};
ghost use Rattle.card_model.specs.Books.{Account, Book};
ghost use Rattle.card_segments.specs.Balances.{AreWithin};
ghost use Rattle.card_daily.specs.Due as spec;
ghost use Rattle.card_daily.specs.Due.{AreCharged};
ghost use Rattle.card_events.specs.History.{anchor_of};
ghost use Rattle.card_model.specs.CycleDays.{HasItsDays};
ghost use Rattle.card_fees.specs.DueLaws.{issue_day, issued_fees};
ghost use Rattle.card_model.specs.Caps.{row_for};
ghost use Rattle.card_model.specs.Cycles.{Cycle, Seen, last_cycle};
ghost use Rattle.card_model.specs.Fees as model;
ghost use Rattle.card_model.specs.Fees.{with_fee};
ghost use Rattle.card_model.specs.Payments.{due_cycle_of};
ghost use Rattle.card_daily.specs.Given.{IsDayOf, Tallies, opened_in, row_in, seen_in};
ghost use Rattle.card_daily.specs.Stands.{AreAmid, AreBefore, Begins, before, KeepsRoom};

use crate::penalties::end_penalties;
use crate::{Inputs, Issued, State, Track};
use card_closing::Cycle;
use card_effects::fee;
use card_events::{Cents, Day, NoMemory};
use card_fees::{DueCycle, Tally, due_fee};
use card_model::Fee;
use card_statement::has_due_payment;

// The day of an issued statement.
fn issue_day(issued: Option<&Issued>) -> Option<Day>
    ensures { result ≡ option_map (λ r. r.day) (option_copied issued.entry) }
{
    match issued {
        Some(row) => Some(row.day),
        None => None,
    }
}

// Its minimum payment in cents.
pub(crate) fn minimum_of(cycle: &Cycle) -> u64
    ensures { result ≡ cycle.now.minimum }
{
    cycle.minimum as u64
}

// Its grace amount in cents.
fn grace_of(cycle: &Cycle) -> u64
    ensures { result ≡ cycle.now.grace_amount }
{
    cycle.grace_amount as u64
}

// A closed cycle with its due payment.
fn with_due_payment(cycle: &Cycle, has_due_payment: bool) -> DueCycle
    ensures { result ≡ record { cycle = cycle.now.number; closing = cycle.now.closing; due = cycle.now.due; minimum = cycle.now.minimum; grace_amount = cycle.now.grace_amount; has_due_payment = has_due_payment } }
{
    DueCycle {
        cycle: cycle.number,
        closing: cycle.closing,
        due: cycle.due,
        minimum: minimum_of(cycle),
        grace_amount: grace_of(cycle),
        has_due_payment,
    }
}

// Whether a statement was issued before a day, and at least 21 days before its due date.
fn is_due(issued: Option<Day>, due: Day, day: Day) -> bool
    ensures { result ≡ is_due_by due day issued }
{
    match issued {
        Some(issue) => issue < day && has_due_payment(issue, due),
        None => false,
    }
}

/// A closed cycle as its due date sees it on a day: its minimum payment and grace amount in cents, and whether it has a due
/// payment by that day (12 CFR 1026.5(b)(2)(ii)). The cycle is one of the calendar, with a due date up to 2102-12-31.
pub fn due_cycle(inputs: &Inputs, day: Day, cycle: &Cycle) -> DueCycle
    requires days { HasItsDays (anchor_of inputs.now.history) cycle.now.number cycle.now }
    requires number { 1 ≤ cycle.now.number }
    requires last { cycle.now.due ≤ last_calendar_day }
    ensures { result ≡ due_cycle_of (seen_in inputs.now day).issued cycle.now }
{
    let _anchor = inputs.anchor();
    let issued = issue_day(inputs.issued_since(cycle.number as u64, cycle.closing));
    with_due_payment(cycle, is_due(issued, cycle.due, day))
}

// The penalty fees that an issued statement has.
pub(crate) fn fees_of(issued: Option<&Issued>) -> Option<&[Fee]>
    ensures { option_copied result ≡ issued_fees (option_copied issued.entry) }
{
    match issued {
        Some(row) => Some(row.statement.fees.items()),
        None => None,
    }
}

// The late fee for the due date of the last closed cycle, on the day after it.
fn late_fee(
    inputs: &Inputs,
    day: Day,
    fees: &[Fee],
    cycle: &Cycle,
    tally: &mut Tally,
) -> Option<Fee>
    requires dated { IsDayOf inputs.now day }
    requires cycle { last_cycle (before inputs.now day).cycles ≡ Some cycle.now }
    requires due { day ≡ cycle.now.due + 1 }
    requires fees { fees.now ≡ (before inputs.now day).fees }
    requires tally { Tallies inputs.now day tally.old }
    ensures value { result ≡ model.late_fee (row_in inputs.now (day - opened_in inputs.now)) (seen_in inputs.now day) (before inputs.now day) cycle.now }
    ensures tally { Tallies inputs.now day tally.new }
{
    let anchor = inputs.anchor();
    let due = due_cycle(inputs, day, cycle);
    let issued = fees_of(inputs.issued_since(cycle.number as u64 + 1, day));
    due_fee(
        inputs.fees(),
        fees,
        inputs.posts(),
        &anchor,
        &due,
        issued,
        tally,
    )
}

pub(crate) fn is_day_after(due: Day, day: Day) -> bool
    ensures { result ≡ (day == due + 1) }
{
    day.number() == due.number() + 1
}

// The late fee that a day begins with.
#[tactic(auto, unfolding(crate::specs::Due::fee_due))]
fn fee_due(
    inputs: &Inputs,
    day: Day,
    fees: &[Fee],
    last: Option<&Cycle>,
    tally: &mut Tally,
) -> Option<Fee>
    requires dated { IsDayOf inputs.now day }
    requires last { option_copied last ≡ last_cycle (before inputs.now day).cycles }
    requires fees { fees.now ≡ (before inputs.now day).fees }
    requires tally { Tallies inputs.now day tally.old }
    ensures value { result ≡ spec.fee_due inputs.now day }
    ensures tally { Tallies inputs.now day tally.new }
{
    match last {
        Some(cycle) => {
            if is_day_after(cycle.due, day) {
                late_fee(inputs, day, fees, cycle, tally)
            } else {
                None
            }
        }
        None => None,
    }
}

// Charges the fee that a day begins with.
fn charge(day: Day, late: Fee, state: &mut State, track: &mut Track) -> Result<(), NoMemory>
    requires { MayMove state.old.segments state.old.rates late.cents }
    ensures stands { OnOk result (ChargesFee day 0 (Some late) state.old.rates state.old.segments track.old.entries.items state.new.segments track.new.entries.items) }
    ensures segments { OnOk result (state.new.segments.segments ≡ state.old.segments.segments) }
    ensures fees { OnOk result (track.new.fees.items ≡ track.old.fees.items ++ late ∷ []) }
    ensures rates { OnOk result (state.new.rates ≡ state.old.rates) }
    ensures rows { OnOk result (state.new.rows.items ≡ state.old.rows.items) }
    ensures accruals { OnOk result (state.new.accruals.items ≡ state.old.accruals.items) }
    ensures cycles { track.new.cycles.items ≡ track.old.cycles.items }
    ensures err { OnErr result (track.new.entries.items ≡ track.old.entries.items) }
    ensures err_fees { OnErr result (track.new.fees.items ≡ track.old.fees.items) }
    ensures room { KeepsRoom track.old track.new }
{
    track.fees.reserve(1)?;
    fee(
        &mut state.segments,
        &state.rates,
        day,
        0,
        &late,
        &mut track.entries,
    )?;
    push_fee(&mut track.fees, late);
    Ok(())
}

// Charges the late fee that a day begins with, where one is due.
fn charge_late(
    inputs: &Inputs,
    day: Day,
    state: &mut State,
    track: &mut Track,
    tally: &mut Tally,
) -> Result<(), NoMemory>
    requires dated { IsDayOf inputs.now day }
    requires before { AreBefore inputs.now day state.old track.old }
    requires tally { Tallies inputs.now day tally.old }
    ensures charged { OnOk result (AreCharged inputs.now day state.new track.new) }
    ensures begins { Begins track.old track.new }
    ensures room { KeepsRoom track.old track.new }
    ensures tally { Tallies inputs.now day tally.new }
{
    let _anchor = inputs.anchor();
    if let Some(late) = fee_due(inputs, day, &track.fees, track.cycles.last(), tally) {
        charge(day, late, state, track)?;
    }
    Ok(())
}

/// On the day after the last cycle's due date, charges the late fee where it wasn't met (12 CFR 1026.52(b)(1)(ii)), and ends
/// with that due date each penalty rate without an end whose six due dates were met (12 CFR 1026.55(b)(4)(ii)); on other
/// days it does nothing. The day isn't before the opening day and at most 2099-12-31, and the days before it are folded. What the
/// tally counted of payments and credits is right for the account's posts up to the day, and stays so, also if memory runs out;
/// state and track are then of no use, but that the track begins with what it held.
pub fn due_day(
    inputs: &Inputs,
    day: Day,
    state: &mut State,
    track: &mut Track,
    tally: &mut Tally,
) -> Result<(), NoMemory>
    requires dated { IsDayOf inputs.now day }
    requires before { AreBefore inputs.now day state.old track.old }
    requires tally { Tallies inputs.now day tally.old }
    ensures amid { OnOk result (AreAmid inputs.now day [] state.new track.new) }
    ensures begins { Begins track.old track.new }
    ensures room { KeepsRoom track.old track.new }
    ensures tally { Tallies inputs.now day tally.new }
{
    charge_late(inputs, day, state, track, tally)?;
    end_penalties(inputs, day, &track.cycles, &mut state.rates);
    Ok(())
}

// One more, for which room was made.
pub(crate) fn push_fee(list: &mut Vec<Fee>, fee: Fee)
    requires { vec_len list.old < vec_capacity list.old }
    ensures items { list.new.items ≡ list.old.items ++ fee ∷ [] }
    ensures capacity { vec_capacity list.old ≤ vec_capacity list.new }
{
    let _ = list.push(fee);
}
