// The state of a Book at an earlier closing, and over more posts.
ghost use Rattle.std.specs.Prelude.{◌≡◌, ◌+◌, ◌-◌, ◌<◌, ◌≤◌, ℕ, ◌++◌, length, map, pos, replicate, IfOk};
ghost use Rattle.card_events.specs.Range.{last_calendar_day};
ghost use Rattle.card_closing.specs.Accruals.{nothing_accrued};
ghost use Rattle.card_closing.specs.Rows.{no_rows};
ghost use Rattle.card_model.specs.Cuts.{penalties_at};
ghost use Rattle.card_rates.specs.RateBooks.{AreByNumber, rates_of, with_penalties};
ghost use Rattle.card_segments.specs.Unposted.{AreBefore, MayGoBack};
ghost use Rattle.card_rates.specs.Segments.{account_segments};
ghost use Rattle.card_book.specs.Marks.{accrued_by};

use crate::marks::{Accruing, accruals_at};
use card_closing::Accrual;
use card_daily::{Entry, Inputs, State};
use card_dayend::empty_rows;
use card_events::{Day, NoMemory};
use card_rates::segments_of;
use card_segments::Segments;
use std::alloc::Global;

// The state at the closing of a cycle, before these entries: what had accrued by then was kept.
pub fn state_at(
    alloc: Global,
    state: &State,
    entries: &[Entry],
    closing: Day,
    cycle: u32,
    accrued: &[Accruing],
) -> Result<State, NoMemory>
    requires back { MayGoBack entries.now state.now.segments.balances }
    requires last { closing < last_calendar_day }
    requires rated { length state.now.rates.segments + 2 ≡ length state.now.segments.balances }
    requires numbered { AreByNumber 2 state.now.rates.segments }
    ensures segments { IfOk result (λ s. AreBefore entries.now state.now.segments s.segments) }
    ensures rates { IfOk result (λ s. s.rates ≡ with_penalties (penalties_at closing state.now.rates.penalties) state.now.rates) }
    ensures rows { IfOk result (λ s. s.rows.items ≡ map (λ x. no_rows (closing + 1)) state.now.rates.segments) }
    ensures accruals { IfOk result (λ s. s.accruals.items ≡ accrued_by cycle accrued.now state.now.rates.segments) }
{
    let count = state.segments.len() - 2;
    Ok(State {
        segments: state.segments.less(alloc, entries)?,
        rates: state.rates.as_of(alloc, closing)?,
        rows: empty_rows(alloc, count as usize, closing.next())?,
        accruals: accruals_at(alloc, accrued, cycle, count)?,
    })
}

// The accruals of more segments: nothing has accrued on the new ones.
fn more_accruals(
    alloc: Global,
    accruals: &[Accrual],
    count: usize,
) -> Result<Vec<Accrual>, NoMemory>
    ensures { IfOk result (λ more. more.items ≡ accruals.now ++ replicate (count - length accruals.now) nothing_accrued) }
{
    let mut more = Vec::from_slice(alloc, accruals)?;
    let new = count.saturating_sub(accruals.len());
    for _ in 0..new {
        more.push(Accrual::start())?;
    }
    Ok(more)
}

// The segments of an account's posts, with these balances on the first of them.
fn segments_with(alloc: Global, inputs: &Inputs, balances: &Segments) -> Result<Segments, NoMemory>
    requires fewer { length balances.now.balances ≤ length (account_segments inputs.now.shared.holidays inputs.now.history) }
    ensures segments { IfOk result (λ s. s.segments ≡ account_segments inputs.now.shared.holidays inputs.now.history) }
    ensures balances { IfOk result (λ s. s.balances ≡ balances.now.balances ++ replicate (length s.segments - length balances.now.balances) (pos 0)) }
{
    let _opening = inputs.anchor();
    let mut segments = segments_of(alloc, inputs.posts())?;
    segments.take_balances(balances);
    Ok(segments)
}

// The state at the end of a closing over all posts now: new segments have nothing, and the cycle that begins has no rows.
pub fn renewed_state(
    alloc: Global,
    inputs: &Inputs,
    state: &State,
    first: Day,
) -> Result<State, NoMemory>
    requires fewer { length state.now.segments.balances ≤ length (account_segments inputs.now.shared.holidays inputs.now.history) }
    ensures segments { IfOk result (λ s. s.segments.segments ≡ account_segments inputs.now.shared.holidays inputs.now.history) }
    ensures balances { IfOk result (λ s. s.segments.balances ≡ state.now.segments.balances ++ replicate (length s.segments.segments - length state.now.segments.balances) (pos 0)) }
    ensures rates { IfOk result (λ s. s.rates ≡ rates_of inputs.now.shared.holidays inputs.now.history state.now.rates.penalties) }
    ensures rows { IfOk result (λ s. s.rows.items ≡ map (λ x. no_rows first) s.rates.segments) }
    ensures accruals { IfOk result (λ s. s.accruals.items ≡ state.now.accruals.items ++ replicate (length s.rates.segments - length state.now.accruals.items) nothing_accrued) }
{
    let _opening = inputs.anchor();
    let segments = segments_with(alloc, inputs, &state.segments)?;
    let count = segments.len() as usize - 2;
    Ok(State {
        segments,
        rates: state.rates.renewed(alloc, inputs.posts())?,
        rows: empty_rows(alloc, count, first)?,
        accruals: more_accruals(alloc, &state.accruals, count)?,
    })
}
