// The lines of plans with deferred interest, and what is owed on each segment.
ghost use Rattle.std.specs.Prelude.{◌≡◌, ◌-◌, ◌++◌, [], IfOk, OnOk, Some, pos, slice_index_or};
ghost use Rattle.std.specs.List.{cons_option, filter_map};
ghost use Rattle.card_events.specs.Money.{interest};
ghost use Rattle.card_closing.specs.Accruals.{nothing_accrued};
ghost use Rattle.card_model.specs.Entries.{at_least_zero};
ghost use Rattle.card_statement.specs.Lines as spec;

use crate::DeferredLine;
use card_closing::{Accrual, Amounts};
use card_events::{Cents, Day, NoMemory, interest};
use card_rates::{RateBook, RatedSegment, is_deferred_on};
use card_segments::Segments;
use std::alloc::Global;

// What an amount has above 0.
fn above_zero(cents: Cents) -> Cents
    ensures { result ≡ pos (at_least_zero cents) }
{
    if cents < 0 { 0 } else { cents }
}

// What is owed on a segment, 0 where it isn't there.
fn owing_on(segments: &Segments, id: u8) -> Cents
    ensures { result ≡ pos (spec.kept_owing segments.now.balances id) }
{
    if id < segments.len() {
        above_zero(segments.balance(id))
    } else {
        0
    }
}

// What a segment has accrued, nothing where it isn't there.
fn accrual_of(accruals: &[Accrual], id: u8) -> Accrual
    ensures { result ≡ slice_index_or accruals.now (id - 2) nothing_accrued }
{
    let place = id.saturating_sub(2) as usize;
    match accruals.get(place) {
        Some(accrual) => *accrual,
        None => Accrual::start(),
    }
}

// The interest that a segment has accrued.
fn accrued_by(accruals: &[Accrual], id: u8) -> Cents
    ensures { result ≡ pos (interest (spec.kept_accrual accruals.now id)) }
{
    interest(accrual_of(accruals, id).sum())
}

// The line of a plan in its period, with what is owed on it.
fn line_of(g: &RatedSegment, balance: Cents, accruals: &[Accrual], ends: Day) -> DeferredLine
    ensures { result ≡ record { segment = g.now.id; balance = balance; accrued = pos (interest (spec.kept_accrual accruals.now g.now.id)); ends = ends } }
{
    DeferredLine {
        segment: g.id,
        balance,
        accrued: accrued_by(accruals, g.id),
        ends,
    }
}

// Adds the line of a plan with this end, where it is a Deferred in its period and something is owed on it.
#[tactic(auto, unfolding(crate::specs::Lines::kept_deferred_line))]
fn add_plan(
    lines: &mut Vec<DeferredLine>,
    segments: &Segments,
    accruals: &[Accrual],
    day: Day,
    g: &RatedSegment,
    ends: Day,
) -> Result<(), NoMemory>
    requires { g.now.ends ≡ Some ends }
    ensures { OnOk result (lines.new.items ≡ lines.old.items ++ cons_option (spec.kept_deferred_line day segments.now.balances accruals.now g.now) []) }
{
    let balance = owing_on(segments, g.id);
    if is_deferred_on(g, day) && balance > 0 {
        lines.push(line_of(g, balance, accruals, ends))?;
    }
    Ok(())
}

// Adds the line of a segment, where it is such a plan. One without an end is none.
fn add_line(
    lines: &mut Vec<DeferredLine>,
    segments: &Segments,
    accruals: &[Accrual],
    day: Day,
    g: &RatedSegment,
) -> Result<(), NoMemory>
    ensures { OnOk result (lines.new.items ≡ lines.old.items ++ cons_option (spec.kept_deferred_line day segments.now.balances accruals.now g.now) []) }
{
    match g.ends {
        Some(ends) => add_plan(lines, segments, accruals, day, g, ends),
        None => Ok(()),
    }
}

// The lines of these segments.
fn lines_of(
    alloc: Global,
    rated: &[RatedSegment],
    segments: &Segments,
    accruals: &[Accrual],
    day: Day,
) -> Result<Vec<DeferredLine>, NoMemory>
    ensures { IfOk result (λ lines. lines.items ≡ filter_map (spec.kept_deferred_line day segments.now.balances accruals.now) rated.now) }
{
    let mut lines = Vec::new(alloc);
    for g in rated {
        add_line(&mut lines, segments, accruals, day, g)?;
    }
    Ok(lines)
}

/// The lines of the plans with deferred interest that are in their periods on a day, in order of number (12 CFR
/// 1026.7(b)(14)): what is owed on each, the interest that it has accrued, both in cents, and the last day on which it may be
/// paid in full without that interest. One on which nothing is owed has none. Accruals are those of the segments from number
/// 2 on.
#[tactic(auto, unfolding(crate::specs::Lines::kept_deferred_lines))]
pub fn deferred_lines(
    alloc: Global,
    rates: &RateBook,
    segments: &Segments,
    accruals: &[Accrual],
    day: Day,
) -> Result<Vec<DeferredLine>, NoMemory>
    ensures { IfOk result (λ lines. lines.items ≡ spec.kept_deferred_lines day segments.now.balances accruals.now rates.now.segments) }
{
    lines_of(alloc, rates.segments(), segments, accruals, day)
}

// Adds what is owed on a segment, where it isn't 0.
fn add_owing(amounts: &mut Amounts, segments: &Segments, id: u8) -> Result<(), NoMemory>
    ensures { OnOk result (amounts.new ≡ amounts.old ++ cons_option (spec.owing_of segments.now.balances id) []) }
{
    let owing = owing_on(segments, id);
    if owing > 0 {
        amounts.push(id, owing as u64)?;
    }
    Ok(())
}

// What is owed on each of these segments.
fn amounts_of(
    alloc: Global,
    rated: &[RatedSegment],
    segments: &Segments,
) -> Result<Amounts, NoMemory>
    ensures { IfOk result (λ amounts. amounts ≡ spec.kept_amounts segments.now.balances rated.now) }
{
    let mut amounts = Amounts::none(alloc);
    for g in rated {
        add_owing(&mut amounts, segments, g.id)?;
    }
    Ok(amounts)
}

/// What is owed on each segment but Credit and Held, in cents, in order of number and without those of 0.
pub fn closing_amounts(
    alloc: Global,
    rates: &RateBook,
    segments: &Segments,
) -> Result<Amounts, NoMemory>
    ensures { IfOk result (λ amounts. amounts ≡ spec.kept_amounts segments.now.balances rates.now.segments) }
{
    amounts_of(alloc, rates.segments(), segments)
}
