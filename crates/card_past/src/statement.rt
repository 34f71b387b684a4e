// The statement of a closed cycle.
ghost use Rattle.std.specs.Prelude.{◌≡◌, ◌≤◌, length, IfOk, Some};
ghost use Rattle.card_book.specs.Statements.{statement_on};
ghost use Rattle.card_model.specs.Cycles.{Cycle};
ghost use Rattle.card_model.specs.Folds.{cycle_at};
ghost use Rattle.card_past.specs.Foldings.{HasClosings};

use crate::book_if_any::BookIfAny;
use crate::past::Past;
use card_book::{Folded, Inputs, Statement, statement_of};
use card_events::{Day, NoMemory};
use std::alloc::Global;

/// The statement of a closed cycle, to be issued on a day (12 CFR 1026.5(b)(2), .7(b)): what it shows beside the cycle is read from the
/// Book that is taken back to its closing. It costs what the entries behind the closing cost.
pub fn statement_at(
    alloc: Global,
    inputs: &Inputs,
    book: &BookIfAny,
    past: &Past,
    number: u32,
    issue: Day,
) -> Result<Statement, NoMemory>
    requires closings { HasClosings inputs.now book.now past.now }
    requires first { 1 ≤ number }
    requires closed { number ≤ length past.now.track.cycles.items }
    ensures { IfOk result (λ s. (c : Cycle) → cycle_at number past.now.track.cycles.items ≡ Some c → s ≡ statement_on inputs.now issue c) }
{
    let _anchor = inputs.anchor();
    let book = book.lent();
    let _last = book.day();
    let since = past.since[number as usize - 1];
    let back = book.rewound(alloc, &past.track, number, since, &past.accrued)?;
    let folded = Folded::at_closing(&back, &past.track, number);
    let cycle = &past.track.cycles[number as usize - 1];
    let statement = statement_of(alloc, inputs, &folded, cycle, issue)?;
    Ok(statement)
}
