// Folding on in memory of its own.
ghost use Rattle.std.specs.Prelude.{◌≡◌, ◌+◌, ◌≤◌, IfOk, OnOk, OnErr, None};
ghost use Rattle.card_book.specs.Stands.{day_to_fold, steps_over};
ghost use Rattle.card_past.specs.Pasts.{AreSame, PastBegins};
ghost use Rattle.card_past.specs.Foldings.{FoldsOn, IsFolding, day_of};

use crate::book_if_any::BookIfAny;
use crate::folding::fold_on;
use crate::past::{Past, cut, ends_of};
use card_book::Inputs;
use card_events::{Day, NoMemory, Steps};
use std::alloc::Global;
use std::sync::ledger::Ledger;

/// Folds a copy of a Book, or, where there is none, the one before the opening day, to the end of today. If memory runs out, the past
/// begins with what it held.
pub fn folded_on<L: Ledger>(
    alloc: Global,
    inputs: &Inputs,
    book: &BookIfAny,
    past: &mut Past,
    today: Day,
    steps: &mut Steps<L>,
) -> Result<BookIfAny, NoMemory>
    requires folded { FoldsOn inputs.now today book.now past.old }
    ensures folding { IfOk result (λ b. IsFolding inputs.now (record { reached = today; book = b; past = past.new; eve = None })) }
    ensures steps { OnOk result (steps.new ≡ steps.old + steps_over inputs.now today (day_to_fold inputs.now (day_of book.now))) }
    ensures most { steps.new ≤ steps.old + steps_over inputs.now today (day_to_fold inputs.now (day_of book.now)) }
    ensures begins { PastBegins past.old past.new }
{
    let mut later = book.to_fold_on(alloc, inputs)?;
    fold_on(alloc, inputs, &mut later, past, today, steps)?;
    let kept = BookIfAny::of(alloc, later)?;
    Ok(kept)
}

/// Folds a copy of a Book, or, where there is none, the one before the opening day, to the end of today. If memory runs out, the past is
/// as it was.
pub fn reach<L: Ledger>(
    alloc: Global,
    inputs: &Inputs,
    book: &BookIfAny,
    past: &mut Past,
    today: Day,
    steps: &mut Steps<L>,
) -> Result<BookIfAny, NoMemory>
    requires folded { FoldsOn inputs.now today book.now past.old }
    ensures folding { IfOk result (λ b. IsFolding inputs.now (record { reached = today; book = b; past = past.new; eve = None })) }
    ensures steps { OnOk result (steps.new ≡ steps.old + steps_over inputs.now today (day_to_fold inputs.now (day_of book.now))) }
    ensures most { steps.new ≤ steps.old + steps_over inputs.now today (day_to_fold inputs.now (day_of book.now)) }
    ensures begins { OnOk result (PastBegins past.old past.new) }
    ensures err { OnErr result (AreSame past.old past.new) }
{
    let ends = ends_of(past);
    match folded_on(alloc, inputs, book, past, today, steps) {
        Ok(later) => Ok(later),
        Err(NoMemory) => {
            cut(past, &ends);
            Err(NoMemory)
        }
    }
}
