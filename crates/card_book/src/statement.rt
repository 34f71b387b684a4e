// The statement of a closed cycle.
ghost use Rattle.std.specs.Prelude.{◌≡◌, ◌-◌, ◌≤◌, IfOk, length, slice_index_or};
ghost use Rattle.card_book.specs.Stands.{IsFoldedTo};
ghost use Rattle.card_book.specs.Statements.{IsClosedCycle, statement_on};
ghost use Rattle.card_model.specs.Cycles.{Cycle};

use crate::folded::Folded;
use crate::sheet::sheet_of;
use card_daily::{Cycle, Inputs, Statement, Track};
use card_events::{Day, NoMemory};
use std::alloc::Global;

/// The closed cycle with this number.
pub fn cycle_in(track: &Track, number: u32) -> &Cycle
    requires first { 1 ≤ number }
    requires closed { number ≤ length track.now.cycles.items }
    ensures { (d : Cycle) → result.now ≡ slice_index_or track.now.cycles.items (number - 1) d }
{
    &track.cycles[number as usize - 1]
}

/// The statement of a closed cycle, to be issued on a day (12 CFR 1026.5(b)(2), .7(b)): what it shows beside the cycle is read from
/// the book of the closing. The cycle is one of the account's book of a day up to 2099-12-31, and the book is folded to its closing.
pub fn statement_of(
    alloc: Global,
    inputs: &Inputs,
    folded: &Folded,
    cycle: &Cycle,
    issue: Day,
) -> Result<Statement, NoMemory>
    requires closed { IsClosedCycle inputs.now cycle.now }
    requires folded { IsFoldedTo inputs.now cycle.now.closing folded.now }
    ensures { IfOk result (λ s. s ≡ statement_on inputs.now issue cycle.now) }
{
    let sheet = sheet_of(alloc, inputs, folded, cycle, issue)?;
    Ok(Statement {
        cycle: cycle.copy(alloc)?,
        issue,
        sheet,
    })
}
