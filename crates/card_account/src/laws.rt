//! Laws of accounts, for all runs and all accounts. Their functions do nothing; their clauses are what holds.
ghost use Rattle.card_account.specs.Closed.{ClosedCyclesAreInTheBook};
ghost use Rattle.card_account.specs.Runs.{RunsMayBeFolded};

/// After every list of requests with days from 2011-01-01 to 2099-12-31, each account may be folded to the end of today.
pub fn runs_may_be_folded()
    ensures { RunsMayBeFolded }
{}

/// In an account that may be folded today, a cycle whose closing is before today is in the book of today, with the number,
/// first day, closing and due date of the calendar. So exactly the cycles from 1 on that are closed before today have a
/// restated statement.
pub fn closed_cycles_are_in_the_book()
    ensures { ClosedCyclesAreInTheBook }
{}
