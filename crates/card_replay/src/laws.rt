//! Laws of accounts with a folded book, for all accounts. Their functions do nothing; their clauses are what holds.
ghost use Rattle.card_replay.specs.Laws.{KeptBookIsTheFold, KeptClosingsAreTheFold, LaterRowsLeaveIt};
ghost use Rattle.card_replay.specs.Lates.{LateRowsCanBeMade, LateRowsGrow, LateRowsStay, LaterRowsLeaveThem, NoneIsLeft};
ghost use Rattle.card_replay.specs.Waiting.{StepsAreThoseOfAll, UnmadeRowsLeaveIt};

/// What is recorded is the book of the day last reached. Where there is a Book, it and its track are the fold of the account from its
/// opening day on; where there is none, no day is reached, and nothing is recorded.
pub fn kept_book_is_the_fold()
    ensures { KeptBookIsTheFold }
{}

/// For each closing up to the day last reached there is a Book, and taken back to that closing, with the track cut behind that cycle, it
/// is the fold of the account from its opening day to the end of that closing.
pub fn kept_closings_are_the_fold()
    ensures { KeptClosingsAreTheFold }
{}

/// Holidays, fee rows and index rows leave an account standing, where they are of days after one that comes neither before the day last
/// reached nor before a post was accepted, and it may be folded with them. An account with fixed opening rates follows no index row, so
/// index rows of all days leave it.
pub fn later_rows_leave_it()
    ensures { LaterRowsLeaveIt }
{}

/// Up to the day of the first row that isn't made, what is kept of an account's book stands for the account with these rows and without
/// them.
pub fn unmade_rows_leave_it()
    ensures { UnmadeRowsLeaveIt }
{}

/// A fold to the day of the first row that isn't made, and from there on with all rows, take the steps of one fold with all rows.
pub fn steps_are_those_of_all()
    ensures { StepsAreThoseOfAll }
{}

/// Rows that aren't made can be made, with what is kept of the account's book.
pub fn late_rows_can_be_made()
    ensures { LateRowsCanBeMade }
{}

/// Where no row is left to make, what is made is all that was issued, and what is kept stands for the account.
pub fn none_is_left()
    ensures { NoneIsLeft }
{}

/// A post that issues nothing, and changes no day up to the closing of a cycle whose Bill waits, leaves the rows that aren't made.
pub fn late_rows_stay()
    ensures { LateRowsStay }
{}

/// A Bill that is accepted today may wait behind them.
pub fn late_rows_grow()
    ensures { LateRowsGrow }
{}

/// Shared rows of later days leave the rows that aren't made.
pub fn later_rows_leave_them()
    ensures { LaterRowsLeaveThem }
{}
