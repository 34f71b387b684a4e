// An account before its opening day.
ghost use Rattle.std.specs.Prelude.{◌≡◌, IfOk, replicate};
ghost use Rattle.card_closing.specs.Accruals.{nothing_accrued};
ghost use Rattle.card_closing.specs.Rows.{no_rows};
ghost use Rattle.card_daily.specs.Given.{IsSound, opened_in};
ghost use Rattle.card_daily.specs.Stands.{AreBefore, IsBlank};
ghost use Rattle.card_daily.specs.declared.track.Track.{Track};

use card_closing::{Accrual, CycleRows};
use card_daily::{Inputs, State};
use card_events::{Day, NoMemory};
use card_rates::{RateBook, segments_of};
use std::alloc::Global;

/// The rows of so many segments in a cycle that begins on a day: none.
pub fn empty_rows(alloc: Global, count: usize, first: Day) -> Result<Vec<CycleRows>, NoMemory>
    ensures { IfOk result (λ rows. rows.items ≡ replicate count (no_rows first)) }
{
    let mut rows = Vec::new(alloc);
    for _ in 0..count {
        rows.push(CycleRows::start(alloc, first))?;
    }
    Ok(rows)
}

// So many accruals of nothing.
fn no_accruals(alloc: Global, count: usize) -> Result<Vec<Accrual>, NoMemory>
    ensures { IfOk result (λ accruals. accruals.items ≡ replicate count nothing_accrued) }
{
    Ok(vec![in alloc; Accrual::start(); count]?)
}

/// An account before its opening day: its segments with nothing owed on them, its rates, and a cycle without rows. It stands
/// for the book without entries, beside a track without entries, cycles and fees.
pub fn start(alloc: Global, inputs: &Inputs) -> Result<State, NoMemory>
    ensures { IfOk result (λ s. (t : Track) → IsBlank t → AreBefore inputs.now (opened_in inputs.now) s t) }
{
    let opened = inputs.anchor().opened;
    let segments = segments_of(alloc, inputs.posts())?;
    let count = segments.len() as usize - 2;
    Ok(State {
        segments,
        rates: RateBook::of(alloc, inputs.posts())?,
        rows: empty_rows(alloc, count, opened)?,
        accruals: no_accruals(alloc, count)?,
    })
}

/// The opening day of the account, from 2011 on. What every run of the machine leaves holds of the inputs.
pub fn opening_day(inputs: &Inputs) -> Day
    ensures day { result ≡ opened_in inputs.now }
    ensures sound { IsSound inputs.now }
{
    inputs.anchor().opened
}
