// What a statement takes of the statements and cycles before it, and of the fee table.
ghost use Rattle.std.specs.Prelude.{◌≡◌, ◌+◌, ◌-◌, ◌-ℤ◌, ◌≤◌, drop, nat_le, option_copied, pos};
ghost use Rattle.std.specs.Option.{option_map_or};
ghost use Rattle.card_fees.specs.Limits.{statement_limit};
ghost use Rattle.card_model.specs.Books.{Book};
ghost use Rattle.card_model.specs.Closing.{previous_of};
ghost use Rattle.card_model.specs.Folds as fold;
ghost use Rattle.card_segments.specs.Balances.{IsWithin};
ghost use Rattle.card_model.specs.Sheets as spec;

use card_closing::Cycle;
use card_events::{Cents, Day, STATEMENT_DAYS};
use card_fees::FeeTable;
use card_model::Entry;

// The closed cycle with a number.
fn closed_at(cycles: &[Cycle], number: usize) -> Option<&Cycle>
    ensures { option_copied result ≡ fold.cycle_at number cycles.now }
{
    if number == 0 {
        return None;
    }
    cycles.get(number - 1)
}

// The number of the cycle before one.
fn number_before(cycle: &Cycle) -> usize
    ensures { result ≡ cycle.now.number - 1 }
{
    cycle.number.saturating_sub(1) as usize
}

// The closed cycle before one.
fn cycle_before<'a>(cycle: &Cycle, cycles: &'a [Cycle]) -> Option<&'a Cycle>
    ensures { option_copied result ≡ fold.cycle_at (cycle.now.number - 1) cycles.now }
{
    closed_at(cycles, number_before(cycle))
}

// How many entries there were at a closing.
fn entries_by(closed: Option<&Cycle>) -> usize
    ensures { result ≡ spec.entries_by (option_copied closed.entry) }
{
    match closed {
        Some(closed) => closed.entries,
        None => 0,
    }
}

// The entries from a place on.
fn entries_from(entries: &[Entry], place: usize) -> &[Entry]
    ensures { result.now ≡ drop place entries.now }
{
    let count = entries.len();
    if place < count {
        &entries[place..]
    } else {
        &entries[count..]
    }
}

/// The entries of a cycle: of all entries up to its closing, in order, those behind the ones that there were at the closing
/// before. `cycles` are those closed by then, in order.
pub fn cycle_entries<'a>(cycle: &Cycle, cycles: &[Cycle], entries: &'a [Entry]) -> &'a [Entry]
    ensures { (b : Book) → b.cycles ≡ cycles.now → b.entries ≡ entries.now → result.now ≡ spec.cycle_entries cycle.now b }
{
    // By the counts that the cycles record, so an old account costs no more.
    entries_from(entries, entries_by(cycle_before(cycle, cycles)))
}

// What was owed at a closing, 0 before the first one.
fn owed_at(closed: Option<&Cycle>) -> Cents
    ensures value { result ≡ previous_of (option_copied closed.entry) }
    ensures small { IsWithin statement_limit result }
{
    match closed {
        Some(closed) => closed.owed(),
        None => 0,
    }
}

/// What was owed at the closing before a cycle, in cents, 0 before the first; at most 10^17 in size. `cycles` are those closed
/// by the cycle's closing, in order.
pub fn owed_before(cycle: &Cycle, cycles: &[Cycle]) -> Cents
    ensures value { result ≡ previous_of (fold.cycle_at (cycle.now.number - 1) cycles.now) }
    ensures small { IsWithin statement_limit result }
{
    owed_at(cycle_before(cycle, cycles))
}

/// The previous balance of a statement, in cents (12 CFR 1026.7(b)(1)): the new balance of the issued statement of the cycle
/// before, where there is one, else what was owed then, which is at most 10^17 in size; so is the previous balance.
pub fn previous_balance(issued: Option<&Cycle>, owed: Cents) -> Cents
    requires small { IsWithin statement_limit owed }
    ensures value { result ≡ option_map_or (λ c. c.new_balance) (option_copied issued.entry) owed }
    ensures small { IsWithin statement_limit result }
{
    match issued {
        Some(issued) => issued.owed(),
        None => owed,
    }
}

/// What changed in a previous balance since it was stated, in cents: by posts that are dated back or corrected. Both what was
/// owed then and the previous balance are at most 10^17 in size.
pub fn corrections(owed: Cents, previous: Cents) -> Cents
    requires owed { IsWithin statement_limit owed }
    requires previous { IsWithin statement_limit previous }
    ensures { result ≡ owed -ℤ previous }
{
    owed - previous
}

/// The greatest late fee, in cents, on a statement that is issued on a day (12 CFR 1026.7(b)(11)(i)(B)): the repeat amount of
/// the fee row in force on it, 0 without one.
pub fn late_up_to(table: &FeeTable, issue: Day) -> Cents
    ensures { result ≡ pos (spec.late_up_to table.now issue) }
{
    match table.on(issue) {
        Some((_, repeat)) => repeat,
        None => 0,
    }
}

/// Whether a statement that is issued on a day asks for a payment: it is issued at least 21 days before the due date (12 CFR
/// 1026.5(b)(2)(ii)).
pub fn has_due_payment(issue: Day, due: Day) -> bool
    ensures { result ≡ nat_le (issue + 21) due }
{
    issue.number() + STATEMENT_DAYS <= due.number()
}
