// Folding on, with a mark at each closing on the way.
ghost use Rattle.std.specs.Prelude.{◌≡◌, ◌+◌, ◌<◌, ◌≤◌, ◌++◌, ℕ, [], ◌∷◌, true, length, Some, None, OnOk, vec_len, vec_capacity};
ghost use Rattle.card_events.specs.Billing.{closing};
ghost use Rattle.card_events.specs.Range.{last_request_day};
ghost use Rattle.card_events.specs.History.{anchor_of};
ghost use Rattle.card_model.specs.CycleDays.{IsOpening};
ghost use Rattle.card_book.specs.Stands.{StandsFor, day_to_fold, steps_over};
ghost use Rattle.card_past.specs.Pasts.{PastBegins};
ghost use Rattle.card_past.specs.Foldings.{ClosesLast, HasMarks, IsFoldedBefore};

use crate::past::Past;
use card_book::{Book, Inputs};
use card_events::{Anchor, Day, NoMemory, Steps, closing_date};
use std::alloc::Global;
use std::sync::ledger::Ledger;

// The closing of the first cycle that isn't closed, where it isn't after a day.
fn closing_by(anchor: &Anchor, closed: usize, to: Day) -> Option<Day>
    requires opening { IsOpening anchor.now }
    requires last { to ≤ last_request_day }
    requires folded { closing anchor.now closed ≤ to }
    ensures some { (day : ℕ) → result ≡ Some day → (day ≡ closing anchor.now (closed + 1)) × (day ≤ to) }
    ensures none { result ≡ None → to < closing anchor.now (closed + 1) }
{
    let number = closed as u32 + 1;
    let next = closing_date(anchor, number);
    if next <= to { Some(next) } else { None }
}

// Keeps what has to be kept of the closing that was folded last.
fn mark(inputs: &Inputs, book: &Book, past: &mut Past) -> Result<(), NoMemory>
    requires stands { StandsFor inputs.now book.now past.old.track }
    requires closed { ClosesLast inputs.now book.now past.old }
    ensures marked { OnOk result (HasMarks inputs.now past.new) }
    ensures track { past.new.track ≡ past.old.track }
    ensures begins { PastBegins past.old past.new }
{
    let _opened = inputs.anchor();
    // All else is read from the present Book, so no Plan, Notice or Lower makes it stale.
    let cycle = past.track.cycles.len() as u32;
    past.since.reserve(1)?;
    book.mark(inputs, &past.track, cycle, &mut past.accrued)?;
    push_day(&mut past.since, book.credit_since());
    Ok(())
}

// One more, for which room was made.
fn push_day(list: &mut Vec<Option<Day>>, day: Option<Day>)
    requires { vec_len list.old < vec_capacity list.old }
    ensures { list.new.items ≡ list.old.items ++ day ∷ [] }
{
    let _ = list.extend_from_slice(&[day]);
}

// Folds to a closing, the first that isn't folded, and marks it.
fn fold_closing<L: Ledger>(
    alloc: Global,
    inputs: &Inputs,
    book: &mut Book,
    past: &mut Past,
    day: Day,
    steps: &mut Steps<L>,
) -> Result<(), NoMemory>
    requires whole { book.old.whole ≡ true }
    requires folded { IsFoldedBefore inputs.now book.old past.old day }
    requires closing { day ≡ closing (anchor_of inputs.now.history) (length past.old.track.cycles.items + 1) }
    ensures stands { OnOk result (StandsFor inputs.now book.new past.new.track) }
    ensures day { OnOk result (book.new.day ≡ Some day) }
    ensures whole { OnOk result (book.new.whole ≡ true) }
    ensures marked { OnOk result (HasMarks inputs.now past.new) }
    ensures closed { OnOk result (length past.new.track.cycles.items ≡ length past.old.track.cycles.items + 1) }
    ensures steps { OnOk result (steps.new ≡ steps.old + steps_over inputs.now day (day_to_fold inputs.now book.old.day)) }
    ensures most { steps.new ≤ steps.old + steps_over inputs.now day (day_to_fold inputs.now book.old.day) }
    ensures begins { PastBegins past.old past.new }
{
    let _opened = inputs.anchor();
    book.advance(alloc, inputs, &mut past.track, day, steps)?;
    mark(inputs, book, past)?;
    Ok(())
}

/// Folds to the end of a day, closing by closing, and keeps of each closing what a Book needs to be taken back to it. A closing is
/// a break day, so that takes no step more. The Book is whole; with the past it stands for the book of these inputs, and has the
/// marks of all closings. The day isn't before the last one folded or the opening day, and at most 2099-12-31. If memory runs out,
/// the Book is only dropped, and each list begins with what it held.
pub fn fold_on<L: Ledger>(
    alloc: Global,
    inputs: &Inputs,
    book: &mut Book,
    past: &mut Past,
    to: Day,
    steps: &mut Steps<L>,
) -> Result<(), NoMemory>
    requires whole { book.old.whole ≡ true }
    requires folded { IsFoldedBefore inputs.now book.old past.old to }
    ensures stands { OnOk result (StandsFor inputs.now book.new past.new.track) }
    ensures day { OnOk result (book.new.day ≡ Some to) }
    ensures whole { OnOk result (book.new.whole ≡ true) }
    ensures marked { OnOk result (HasMarks inputs.now past.new) }
    ensures steps { OnOk result (steps.new ≡ steps.old + steps_over inputs.now to (day_to_fold inputs.now book.old.day)) }
    ensures most { steps.new ≤ steps.old + steps_over inputs.now to (day_to_fold inputs.now book.old.day) }
    ensures begins { PastBegins past.old past.new }
{
    let anchor = inputs.anchor();
    while let Some(closing) = closing_by(&anchor, past.track.cycles.len(), to) {
        fold_closing(alloc, inputs, book, past, closing, steps)?;
    }
    book.advance(alloc, inputs, &mut past.track, to, steps)?;
    Ok(())
}
