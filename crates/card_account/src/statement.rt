// Statements of an account, as they were issued and as they are now.
ghost use Rattle.std.specs.Prelude.{◌≡◌, ◌≤◌, true, IfOk, option_copied};
ghost use Rattle.card_events.specs.Range.{last_calendar_day};
ghost use Rattle.card_account.specs.Accounts.{IsIssueOf, is_closed, issue_of, issued_statement, statement_of};
ghost use Rattle.card_model.specs.Refusals.{book_today};

use crate::cycles::closed_cycle;
use card_book::{Cycle, Folded, Issued, Present, Statement, row_for};
use card_events::{Day, NoMemory, Num};
use card_reasons::closing_of;
use std::alloc::Global;

/// The statement of a cycle as it was issued.
pub fn issued_of(
    alloc: Global,
    issued: &[Issued],
    cycle: Num,
) -> Result<Option<Statement>, NoMemory>
    ensures { IfOk result (λ s. s ≡ issued_statement cycle issued.now) }
{
    match row_for(issued, cycle.get()) {
        Some(row) => Ok(Some(as_issued(alloc, row)?)),
        None => Ok(None),
    }
}

fn as_issued(alloc: Global, row: &Issued) -> Result<Statement, NoMemory>
    ensures { IfOk result (λ s. s ≡ statement_of row.now) }
{
    // From its row and not computed again: what was issued stays.
    Ok(Statement {
        cycle: row.statement.copy(alloc)?,
        issue: row.day,
        sheet: row.sheet.unpack(alloc)?,
    })
}

// The day on which a cycle was issued, else its due date.
fn issue_of(issued: Option<&Issued>, cycle: &Cycle) -> Day
    ensures { result ≡ issue_of (option_copied issued.entry) cycle.now }
{
    match issued {
        Some(row) => row.day,
        None => cycle.due,
    }
}

// Whether a cycle is closed before today.
fn is_closed(now: &Present, cycle: Num) -> bool
    ensures value { result ≡ is_closed now.now.today now.now.lists cycle }
    ensures small { result ≡ true → cycle ≤ last_calendar_day }
{
    let today = now.today();
    match closing_of(&now.anchor(), cycle) {
        Some(closing) => closing < today,
        None => false,
    }
}

/// The day of issue of the statement of a cycle as the book of today has it: that of the Bill that issued it, and without one the due
/// date, so that no payment is due. None where the cycle isn't closed before today.
pub fn restated_issue(now: &Present, folded: &Folded, cycle: Num) -> Option<Day>
    requires book { folded.now.book ≡ book_today now.now }
    ensures { IsIssueOf now.now cycle result }
{
    if !is_closed(now, cycle) {
        return None;
    }
    match closed_cycle(folded, cycle) {
        Some(closed) => Some(issue_of(now.issued_for(cycle.get()), closed)),
        None => None,
    }
}
