// What deferred plans have accrued at closings.
ghost use Rattle.std.specs.Prelude.{◌≡◌, ℕ, ◌+◌, ◌==◌, ◌&&◌, ◌<◌, ◌≤◌, ◌++◌, List, [], ◌∷◌, is_some, length, map, take, Option, IfOk, OnOk, option_to_list, vec_capacity};
ghost use Rattle.std.specs.List.{Contains, filter};
ghost use Rattle.card_model.specs.Rates.{accrual_rate};
ghost use Rattle.card_model.specs.Segments.{SegmentTerms};
ghost use Rattle.card_rates.specs.RateBooks.{AreByNumber};
ghost use Rattle.card_book.specs.Marks.{accrued_at, accrued_by, accruing_of, accruing_on};

use card_closing::Accrual;
use card_daily::State;
use card_events::{Day, NoMemory};
use std::alloc::Global;

/// What a deferred plan in its period has accrued at the closing of a cycle (12 CFR 1026.55(b)(1), comment 55(b)(1)-3): the
/// cycle's number, the number of the plan's segment, and the accrual.
#[derive(Clone, Copy)]
pub struct Accruing {
    pub cycle: u32,
    pub segment: u8,
    pub accrual: Accrual,
}

// What a segment has accrued on a day, where it is a deferred plan in its period.
fn deferred_at(state: &State, cycle: u32, day: Day, id: u8) -> Option<Accruing>
    requires segment { 2 ≤ id }
    requires rated { id < length state.now.rates.segments + 2 }
    requires equal { length state.now.accruals.items ≡ length state.now.rates.segments }
    ensures { (t : SegmentTerms) → Contains state.now.rates.segments t → t.id ≡ id → option_to_list result ≡ map (accruing_of cycle state.now.accruals.items) (filter (λ x. is_some (accrual_rate day x)) (t ∷ [])) }
{
    match state.rates.accrual_on(id, day) {
        Some(_) => Some(Accruing {
            cycle,
            segment: id,
            accrual: state.accruals[id as usize - 2],
        }),
        None => None,
    }
}

// One more, where there is one.
fn push_if_any(list: &mut Vec<Accruing>, more: &Option<Accruing>) -> Result<(), NoMemory>
    ensures items { OnOk result (list.new.items ≡ list.old.items ++ option_to_list more.now) }
    ensures begins { take (length list.old.items) list.new.items ≡ list.old.items }
    ensures capacity { vec_capacity list.old ≤ vec_capacity list.new }
{
    if let Some(more) = more {
        list.extend_from_slice(&[*more])?;
    }
    Ok(())
}

/// Adds what each deferred plan that is in its period on a day has accrued, in order of number. If memory runs out, the list
/// begins with what it held.
pub fn push_accruing(
    list: &mut Vec<Accruing>,
    state: &State,
    cycle: u32,
    day: Day,
) -> Result<(), NoMemory>
    requires rated { length state.now.rates.segments + 2 ≡ length state.now.segments.balances }
    requires equal { length state.now.accruals.items ≡ length state.now.rates.segments }
    requires numbered { AreByNumber 2 state.now.rates.segments }
    ensures items { OnOk result (list.new.items ≡ list.old.items ++ accruing_on cycle day state.now) }
    ensures begins { take (length list.old.items) list.new.items ≡ list.old.items }
    ensures capacity { vec_capacity list.old ≤ vec_capacity list.new }
{
    for id in 2..state.segments.len() {
        push_if_any(list, &deferred_at(state, cycle, day, id))?;
    }
    Ok(())
}

// Whether it is of a cycle and a segment.
fn is_of(accruing: &Accruing, cycle: u32, segment: u8) -> bool
    ensures { result ≡ (accruing.now.cycle == cycle) && (accruing.now.segment == segment) }
{
    accruing.cycle == cycle && accruing.segment == segment
}

// What a segment had accrued at the closing of a cycle, nothing where nothing was kept.
fn accrued_at(list: &[Accruing], cycle: u32, segment: u8) -> Accrual
    ensures { result ≡ accrued_at cycle list.now segment }
{
    for accruing in list {
        if is_of(accruing, cycle, segment) {
            return accruing.accrual;
        }
    }
    Accrual::start()
}

/// What so many segments from number 2 on had accrued at the closing of a cycle.
pub fn accruals_at(
    alloc: Global,
    list: &[Accruing],
    cycle: u32,
    count: u8,
) -> Result<Vec<Accrual>, NoMemory>
    requires { count ≤ 62 }
    ensures { IfOk result (λ accruals. (ts : List SegmentTerms) → length ts ≡ count → AreByNumber 2 ts → accruals.items ≡ accrued_by cycle list.now ts) }
{
    let mut accruals = Vec::new(alloc);
    for id in 0..count {
        accruals.push(accrued_at(list, cycle, id + 2))?;
    }
    Ok(accruals)
}
