// How penalty rates begin and end.
ghost use Rattle.std.specs.Prelude.{◌≡◌, ◌+◌, ◌≤◌, ◌<◌, ◌&&◌, ◌++◌, ℕ, length, map, nat_lt, not, Some, None, OnOk};
ghost use Rattle.card_events.specs.Range.{last_request_day};
ghost use Rattle.std.specs.List.{All, list_all};
ghost use Rattle.card_events.specs.History.{anchor_of};
ghost use Rattle.card_model.specs.Cycles.{last_cycle};
ghost use Rattle.card_model.specs.DueDates.{awaits_end, cured_by, due_after_day};
ghost use Rattle.card_model.specs.Payments as model;
ghost use Rattle.card_model.specs.Payments.{met, sixty_days_late};
ghost use Rattle.card_model.specs.declared.segment.Interval.{Interval};
ghost use Rattle.card_rates.specs.RateBooks.{with_penalties};
ghost use Rattle.card_daily.specs.Given.{seen_in};
ghost use Rattle.card_daily.specs.Penalties.{IsClosed, begun_on, cured_at, cured_on};
ghost use Rattle.card_daily.specs.Returns.{AreDueOn, IsDueBy};
ghost use Rattle.card_daily.specs.Stands.{AreClosedBefore};

use crate::Inputs;
use crate::due::{due_cycle, is_day_after};
use card_closing::{Cycle, awaits_end, begin_after, is_due_after};
use card_events::{Day, NoMemory};
use card_fees::{met, owes_sixty_days};
use card_model::Interval;
use card_rates::RateBook;

// Whether a closed cycle owes its minimum payment for sixty days.
fn owes(inputs: &Inputs, day: Day, cycle: &Cycle) -> bool
    requires closed { IsClosed inputs.now cycle.now }
    ensures { result ≡ model.owes_sixty_days (seen_in inputs.now day) cycle.now }
{
    let _anchor = inputs.anchor();
    let due = due_cycle(inputs, day, cycle);
    owes_sixty_days(inputs.posts(), &due, day)
}

/// Whether the account is sixty days late on a day (12 CFR 1026.55(b)(4)): the due date of one of these closed cycles lies more
/// than 60 days back, and the payments since its closing are below its minimum payment. Each cycle has the calendar's days. It
/// doesn't allocate.
#[tactic(auto, unfolding(card_model::specs::Payments::sixty_days_late))]
pub fn is_sixty_days_late(inputs: &Inputs, day: Day, cycles: &[Cycle]) -> bool
    requires closed { All (IsClosed inputs.now) cycles.now }
    ensures { result ≡ sixty_days_late (seen_in inputs.now day) cycles.now }
{
    for cycle in cycles {
        if owes(inputs, day, cycle) {
            return true;
        }
    }
    false
}

// A penalty begins 45 days after a day on which the account is sixty days late.
pub(crate) fn begin_penalty(
    inputs: &Inputs,
    day: Day,
    cycles: &[Cycle],
    rates: &mut RateBook,
) -> Result<(), NoMemory>
    requires closed { AreClosedBefore inputs.now day cycles.now }
    ensures { OnOk result (rates.new ≡ with_penalties (begun_on (seen_in inputs.now day) cycles.now rates.old.penalties) rates.old) }
{
    let _sound = inputs.anchor();
    if is_sixty_days_late(inputs, day, cycles) {
        let begins = begin_after(day);
        rates.begin_penalty(begins)?;
    }
    Ok(())
}

// Whether the due date of a closed cycle was met.
fn is_due_met(inputs: &Inputs, day: Day, cycle: &Cycle) -> bool
    requires due { IsDueBy inputs.now day cycle.now }
    requires last { day ≤ last_request_day }
    ensures { result ≡ met (seen_in inputs.now day) cycle.now }
{
    let _anchor = inputs.anchor();
    let due = due_cycle(inputs, day, cycle);
    met(inputs.posts(), &due)
}

// Whether it lies after a day and wasn't met.
fn is_missed(inputs: &Inputs, day: Day, cycle: &Cycle, begins: Day) -> bool
    requires due { IsDueBy inputs.now day cycle.now }
    requires last { day ≤ last_request_day }
    ensures { result ≡ (nat_lt begins cycle.now.due && not (met (seen_in inputs.now day) cycle.now)) }
{
    is_due_after(cycle, begins) && !is_due_met(inputs, day, cycle)
}

// Whether all due dates after a day were met.
fn are_met(inputs: &Inputs, day: Day, cycles: &[Cycle], begins: Day) -> bool
    requires due { AreDueOn inputs.now day cycles.now }
    ensures { result ≡ list_all (met (seen_in inputs.now day)) (due_after_day begins cycles.now) }
{
    for cycle in cycles {
        if is_missed(inputs, day, cycle, begins) {
            return false;
        }
    }
    true
}

// Whether a penalty ends: it has no end, and the six due dates after its first day were met.
fn is_cured(inputs: &Inputs, day: Day, cycles: &[Cycle], penalty: &Interval) -> bool
    requires due { AreDueOn inputs.now day cycles.now }
    ensures { result ≡ (awaits_end cycles.now penalty.now && list_all (met (seen_in inputs.now day)) (due_after_day penalty.now.begins cycles.now)) }
{
    awaits_end(cycles, penalty) && are_met(inputs, day, cycles, penalty.begins)
}

// The penalty at a place has a due date for its last day where it is cured.
fn end_if_cured(
    inputs: &Inputs,
    day: Day,
    cycles: &[Cycle],
    due: Day,
    which: usize,
    rates: &mut RateBook,
)
    requires due { AreDueOn inputs.now day cycles.now }
    requires which { which < length rates.old.penalties }
    ensures { (i : Interval) → rates.new ≡ with_penalties (cured_at (seen_in inputs.now day) cycles.now due which i rates.old.penalties) rates.old }
{
    if is_cured(inputs, day, cycles, &rates.penalties()[which]) {
        rates.end_penalty(which, due);
    }
}

// So has each of them.
fn end_cured(inputs: &Inputs, day: Day, cycles: &[Cycle], due: Day, rates: &mut RateBook)
    requires due { AreDueOn inputs.now day cycles.now }
    ensures { rates.new ≡ with_penalties (map (cured_by (seen_in inputs.now day) cycles.now due) rates.old.penalties) rates.old }
{
    for which in 0..rates.penalties().len() {
        end_if_cured(inputs, day, cycles, due, which, rates);
    }
}

// On the day after the last cycle's due date, each penalty that is cured ends with it.
#[tactic(auto, unfolding(crate::specs::Penalties::cured_on))]
pub(crate) fn end_penalties(inputs: &Inputs, day: Day, cycles: &[Cycle], rates: &mut RateBook)
    requires closed { AreClosedBefore inputs.now day cycles.now }
    ensures { rates.new ≡ with_penalties (cured_on (seen_in inputs.now day) cycles.now (last_cycle cycles.now) rates.old.penalties) rates.old }
{
    let _sound = inputs.anchor();
    if let Some(cycle) = cycles.last() {
        // On the morning after and not on the due date itself: a day has one set of rates.
        if is_day_after(cycle.due, day) {
            end_cured(inputs, day, cycles, cycle.due, rates);
        }
    }
}
