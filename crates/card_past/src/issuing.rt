// What a Bill issues.
ghost use Rattle.std.specs.Prelude.{◌≡◌, ◌<◌, ◌≤◌, ℕ, ◌++◌, [], ◌∷◌, length, IfOk, None, Some, vec_len, vec_capacity};
ghost use Rattle.card_events.specs.Range.{last_calendar_day};
ghost use Rattle.card_events.specs.declared.post.Post.TheVariants as variants;
ghost use Rattle.card_model.specs.Cycles.{Cycle};
ghost use Rattle.card_model.specs.Folds.{cycle_at};
ghost use Rattle.card_past.specs.Rows.{issued_as, issued_from, row_on};
ghost use Rattle.card_past.specs.Foldings.{HasClosings};

use crate::book_if_any::BookIfAny;
use crate::issued::IssuedIfAny;
use crate::past::Past;
use crate::statement::statement_at;
use card_book::{Cycle, Inputs, Issued, PackedSheet, Statement};
use card_events::{Day, NoMemory, Num, Post};
use std::alloc::Global;

/// The number of a cycle, at most 48,576, where it is closed.
pub fn closed_number(cycles: &[Cycle], cycle: Num) -> Option<u32>
    requires small { cycle ≤ last_calendar_day }
    ensures some { (n : ℕ) → result ≡ Some n → (n ≡ cycle) × (1 ≤ n) × (n ≤ length cycles.now) }
    ensures none { result ≡ None → cycle_at cycle cycles.now ≡ None }
{
    let number = cycle.get();
    if number >= 1 && number <= cycles.len() as u64 {
        Some(number as u32)
    } else {
        None
    }
}

// The row of a statement of a cycle that a Bill with a number issues, with its sheet packed.
fn packed_row(
    alloc: Global,
    statement: Statement,
    number: u32,
    bill: u32,
) -> Result<Issued, NoMemory>
    ensures { IfOk result (λ row. row ≡ record { cycle = number; bill = bill; day = statement.issue; statement = statement.cycle; sheet = statement.sheet }) }
{
    let Statement {
        cycle,
        issue,
        sheet,
    } = statement;
    let sheet = PackedSheet::pack(alloc, &sheet)?;
    Ok(Issued {
        cycle: number,
        bill,
        day: issue,
        statement: cycle,
        sheet,
    })
}

// The row of a closed cycle that a Bill with a number issues on a day.
fn row_at(
    alloc: Global,
    inputs: &Inputs,
    book: &BookIfAny,
    past: &Past,
    number: u32,
    bill: u32,
    day: Day,
) -> Result<Issued, NoMemory>
    requires closings { HasClosings inputs.now book.now past.now }
    requires first { 1 ≤ number }
    requires closed { number ≤ length past.now.track.cycles.items }
    ensures { IfOk result (λ row. (c : Cycle) → cycle_at number past.now.track.cycles.items ≡ Some c → row ≡ row_on inputs.now number bill day c) }
{
    let statement = statement_at(alloc, inputs, book, past, number, day)?;
    let row = packed_row(alloc, statement, number, bill)?;
    Ok(row)
}

// The row that a Bill with a number issues on a day, none where the cycle isn't closed.
fn row_of(
    alloc: Global,
    inputs: &Inputs,
    book: &BookIfAny,
    past: &Past,
    cycle: Num,
    bill: u32,
    day: Day,
) -> Result<IssuedIfAny, NoMemory>
    requires closings { HasClosings inputs.now book.now past.now }
    requires small { cycle ≤ last_calendar_day }
    ensures { IfOk result (λ made. issued_as made ≡ issued_from inputs.now past.now.track.cycles.items bill day (variants.Bill cycle)) }
{
    match closed_number(&past.track.cycles, cycle) {
        Some(number) => {
            let row = row_at(alloc, inputs, book, past, number, bill, day)?;
            IssuedIfAny::of(alloc, row)
        }
        None => Ok(IssuedIfAny::none()),
    }
}

/// The row that a post with a number issues on a day, where it is a Bill: its cycle, at most 48,576, as the past has it, with what the
/// statement shows beside it.
pub fn issued_by(
    alloc: Global,
    inputs: &Inputs,
    book: &BookIfAny,
    past: &Past,
    post: &Post,
    number: u32,
    day: Day,
) -> Result<IssuedIfAny, NoMemory>
    requires closings { HasClosings inputs.now book.now past.now }
    requires small { (cycle : ℕ) → post.now ≡ variants.Bill cycle → cycle ≤ last_calendar_day }
    ensures { IfOk result (λ made. issued_as made ≡ issued_from inputs.now past.now.track.cycles.items number day post.now) }
{
    match post {
        Post::Bill { cycle } => row_of(alloc, inputs, book, past, *cycle, number, day),
        _ => Ok(IssuedIfAny::none()),
    }
}

// Adds a row, with room for it.
fn push_row(list: &mut Vec<Issued>, row: Box<Issued>)
    requires { vec_len list.old < vec_capacity list.old }
    ensures items { list.new.items ≡ list.old.items ++ row.value ∷ [] }
    ensures capacity { vec_capacity list.new ≡ vec_capacity list.old }
{
    list.push_reserved(Box::into_inner(row));
}

/// Adds what was issued, with room for one more.
pub fn push_issued(list: &mut Vec<Issued>, made: IssuedIfAny)
    requires { vec_len list.old < vec_capacity list.old }
    ensures items { list.new.items ≡ list.old.items ++ issued_as made }
    ensures capacity { vec_capacity list.new ≡ vec_capacity list.old }
{
    if let Some(row) = made.into_boxed() {
        push_row(list, row);
    }
}
