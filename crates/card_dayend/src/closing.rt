// The closing of a cycle, and the days that close none.
ghost use Rattle.std.specs.Prelude.{◌≡◌, ◌+◌, ◌<◌, ◌≤◌, ◌==◌, ℕ, OnOk, Some, map, pos, ◌≤ℤ◌, option_copied};
ghost use Rattle.card_events.specs.Range.{last_request_day, last_calendar_day};
ghost use Rattle.card_closing.specs.Closes.{IsOfBook};
ghost use Rattle.card_closing.specs.Interest as interest;
ghost use Rattle.card_events.specs.Billing as billing;
ghost use Rattle.card_events.specs.Civil.{day_of_month};
ghost use Rattle.card_fees.specs.DueLaws.{AreDueBy, AreOfTheCalendar, due_cycle_at};
ghost use Rattle.card_events.specs.History.{anchor_of};
ghost use Rattle.card_closing.specs.Rows.{Rows, no_rows};
ghost use Rattle.card_model.specs.Closing as model;
ghost use Rattle.card_model.specs.Cycles.{Cycle, last_cycle};
ghost use Rattle.card_model.specs.Folds.{cycle_at};
ghost use Rattle.card_model.specs.Payments as payments;
ghost use Rattle.card_daily.specs.Closing.{IsClosing};
ghost use Rattle.card_daily.specs.Given.{IsDayOf, Tallies, account_in, seen_in};
ghost use Rattle.card_daily.specs.Stands.{AreBefore, ArePosted, Begins, posted, KeepsRoom};

use crate::room::push;
use card_closing::{Closing, Cycle, CycleRows, GraceCase, close};
use card_daily::{Inputs, Issued, State, Track, due_cycle};
use card_events::{Anchor, Cents, Day, NoMemory, closing, cycle_of, due};
use card_fees::{DueCycle, Tally, past_due, purchase_case};
use std::alloc::Global;

// Whether cycles close on a day.
fn is_closing(anchor: &Anchor, day: Day) -> bool
    ensures { result ≡ (day_of_month day == anchor.now.close_day) }
{
    day.ymd().2 == anchor.close_day
}

// The first day of the cycle that follows the last closed one.
fn first_day(inputs: &Inputs, last: Option<&Cycle>) -> Day
    requires { (c : Cycle) → option_copied last ≡ Some c → c.closing < last_calendar_day }
    ensures { result ≡ model.first_of (account_in inputs.now) (option_copied last.entry) }
{
    match last {
        Some(cycle) => cycle.closing.next(),
        None => inputs.anchor().opened,
    }
}

// The due date of a cycle that closes on a day.
fn due_date(anchor: &Anchor, number: u32, day: Day) -> Day
    requires closing { IsClosing anchor.now number day }
    requires last { day ≤ last_request_day }
    ensures { result ≡ billing.due_after anchor.now.close_day day }
{
    due(*anchor, number).unwrap()
}

// The closing after it.
fn next_closing(anchor: &Anchor, number: u32, day: Day) -> Day
    requires closing { IsClosing anchor.now number day }
    requires last { day ≤ last_request_day }
    ensures { result ≡ billing.next_on anchor.now.close_day (day + 1) }
{
    closing(*anchor, number + 1).unwrap()
}

// What was owed at the closing before.
fn previous(last: Option<&Cycle>) -> Cents
    ensures { result ≡ model.previous_of (option_copied last.entry) }
{
    match last {
        Some(cycle) => cycle.new_balance,
        None => 0,
    }
}

// The closed cycle with a number.
fn closed_at(cycles: &[Cycle], number: usize) -> Option<&Cycle>
    ensures { option_copied result ≡ cycle_at number cycles.now }
{
    if number == 0 {
        return None;
    }
    cycles.get(number - 1)
}

// It as its due date sees it.
fn due_at(inputs: &Inputs, day: Day, cycles: &[Cycle], number: usize) -> Option<DueCycle>
    requires last { day ≤ last_request_day }
    requires days { AreOfTheCalendar (anchor_of inputs.now.history) cycles.now }
    requires due { AreDueBy day cycles.now }
    ensures { result ≡ due_cycle_at (seen_in inputs.now day) number cycles.now }
{
    match closed_at(cycles, number) {
        Some(cycle) => Some(due_cycle(inputs, day, cycle)),
        None => None,
    }
}

// How purchases bear interest in the cycle, by the last two closed ones.
fn purchases(inputs: &Inputs, day: Day, cycles: &[Cycle], tally: &Tally) -> GraceCase
    requires last { day ≤ last_request_day }
    requires days { AreOfTheCalendar (anchor_of inputs.now.history) cycles.now }
    requires due { AreDueBy day cycles.now }
    requires cycles { cycles.now ≡ (posted inputs.now day).cycles }
    requires tally { Tallies inputs.now day tally.now }
    ensures { result ≡ model.purchase_case_in (seen_in inputs.now day) (posted inputs.now day) }
{
    let _anchor = inputs.anchor();
    let count = cycles.len();
    let before = due_at(inputs, day, cycles, count.saturating_sub(1));
    let last = due_at(inputs, day, cycles, count);
    purchase_case(inputs.posts(), before, last, tally)
}

// What is left of a minimum payment at the closing after its own.
fn left_of(inputs: &Inputs, day: Day, cycle: &Cycle, tally: &mut Tally) -> u64
    requires dated { IsDayOf inputs.now day }
    requires closes { day_of_month day ≡ (anchor_of inputs.now.history).close_day }
    requires last { last_cycle (posted inputs.now day).cycles ≡ Some cycle.now }
    requires tally { Tallies inputs.now day tally.old }
    ensures value { result ≡ payments.past_due (seen_in inputs.now day) day (Some cycle.now) }
    ensures tally { Tallies inputs.now day tally.new }
{
    let _anchor = inputs.anchor();
    let due = due_cycle(inputs, day, cycle);
    past_due(inputs.posts(), &due, day, tally)
}

// What is left of the last minimum payment, 0 at the first closing.
fn left_at(inputs: &Inputs, day: Day, last: Option<&Cycle>, tally: &mut Tally) -> u64
    requires dated { IsDayOf inputs.now day }
    requires closes { day_of_month day ≡ (anchor_of inputs.now.history).close_day }
    requires last { option_copied last ≡ last_cycle (posted inputs.now day).cycles }
    requires tally { Tallies inputs.now day tally.old }
    ensures value { result ≡ payments.past_due (seen_in inputs.now day) day (last_cycle (posted inputs.now day).cycles) }
    ensures tally { Tallies inputs.now day tally.new }
{
    match last {
        Some(cycle) => left_of(inputs, day, cycle, tally),
        None => 0,
    }
}

// The closing of the present cycle.
fn closing_on(inputs: &Inputs, day: Day, cycles: &[Cycle], tally: &mut Tally) -> Closing
    requires dated { IsDayOf inputs.now day }
    requires closes { day_of_month day ≡ (anchor_of inputs.now.history).close_day }
    requires cycles { cycles.now ≡ (posted inputs.now day).cycles }
    requires tally { Tallies inputs.now day tally.old }
    ensures of_book { IsOfBook result (account_in inputs.now) (seen_in inputs.now day) (posted inputs.now day) }
    ensures floor { pos 0 ≤ℤ result.floor }
    ensures part { result.pct ≤ 10_000 }
    ensures tally { Tallies inputs.now day tally.new }
{
    let anchor = inputs.anchor();
    let terms = inputs.terms();
    let number = cycle_of(anchor, day);
    let last = cycles.last();
    Closing {
        number,
        first: first_day(inputs, last),
        closing: day,
        due: due_date(&anchor, number, day),
        next_closing: next_closing(&anchor, number, day),
        purchase: purchases(inputs, day, cycles, tally),
        previous: previous(last),
        floor: terms.floor.get() as Cents,
        pct: terms.pct.get() as u16,
        past_due: left_at(inputs, day, last, tally),
    }
}

// The issued statement.
fn statement(issued: Option<&Issued>) -> Option<&Cycle>
    ensures { option_copied result ≡ interest.statement_of (option_copied issued.entry) }
{
    match issued {
        Some(row) => Some(&row.statement),
        None => None,
    }
}

// No rows of any segment, from a day on.
fn begin_all(rows: &mut Vec<CycleRows>, first: Day)
    ensures { rows.new.items ≡ map (λ (r : Rows). no_rows first) rows.old.items }
{
    for i in 0..rows.len() {
        rows[i].begin(first);
    }
}

// Closes the cycle that ends with the day.
fn close_cycle(
    alloc: Global,
    inputs: &Inputs,
    day: Day,
    state: &mut State,
    track: &mut Track,
    tally: &mut Tally,
) -> Result<(), NoMemory>
    requires dated { IsDayOf inputs.now day }
    requires closes { day_of_month day ≡ (anchor_of inputs.now.history).close_day }
    requires posted { ArePosted inputs.now day state.old track.old }
    requires tally { Tallies inputs.now day tally.old }
    ensures closed { OnOk result (AreBefore inputs.now (day + 1) state.new track.new) }
    ensures begins { Begins track.old track.new }
    ensures room { KeepsRoom track.old track.new }
    ensures tally { Tallies inputs.now day tally.new }
{
    let _anchor = inputs.anchor();
    let _count = state.segments.len();
    let closing = closing_on(inputs, day, &track.cycles, tally);
    let issued = statement(inputs.issued_since(closing.number as u64, day));
    let cycle = close(
        alloc,
        &mut state.segments,
        &closing,
        issued,
        &state.rows,
        &state.accruals,
        &track.fees,
        &mut track.entries,
    )?;
    push(&mut track.cycles, cycle)?;
    begin_all(&mut state.rows, day.next());
    Ok(())
}

/// Where a day is a closing, closes its cycle (12 CFR 1026.7(b), .14(b), .54): its interest is charged, its statement recorded,
/// and the rows of the next one begin on the day after. On other days it does nothing. The day isn't before the opening day
/// and at most 2099-12-31, and its posts and rows are folded. What the tally counted of payments and credits is right for the
/// account's posts up to the day, and stays so, also if memory runs out; state and track are then of no use, but that the track
/// begins with what it held.
pub fn close_day(
    alloc: Global,
    inputs: &Inputs,
    day: Day,
    state: &mut State,
    track: &mut Track,
    tally: &mut Tally,
) -> Result<(), NoMemory>
    requires dated { IsDayOf inputs.now day }
    requires posted { ArePosted inputs.now day state.old track.old }
    requires tally { Tallies inputs.now day tally.old }
    ensures closed { OnOk result (AreBefore inputs.now (day + 1) state.new track.new) }
    ensures begins { Begins track.old track.new }
    ensures room { KeepsRoom track.old track.new }
    ensures tally { Tallies inputs.now day tally.new }
{
    if is_closing(&inputs.anchor(), day) {
        close_cycle(alloc, inputs, day, state, track, tally)?;
    }
    Ok(())
}
