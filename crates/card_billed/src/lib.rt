//! Laws of statements that are made later than their Bills were accepted. Their functions do nothing; their clauses are what holds.
#![tactic(auto)]

ghost use Rattle.card_billed.specs.Laws.{BillsMayWait, FrontsAreAccepted, IssueDaysAreBreaks, LaterPostsLeaveIt, RowsAreMadeLate, RowsGrowUnmade, RowsStayUnmade, StepsToTheFirst, UnmadeRowsChangeNoPastDay, UnmadeRowsLeaveSheets};

/// What a Bill issues today may be made later.
pub fn bills_may_wait()
    ensures { BillsMayWait }
{}

/// A row that isn't made is what the book of every day from the closing of its cycle on gives.
pub fn rows_are_made_late()
    ensures { RowsAreMadeLate }
{}

/// A post that changes no day up to the closing of its cycle leaves a row that isn't made.
pub fn later_posts_leave_it()
    ensures { LaterPostsLeaveIt }
{}

/// Rows that aren't made change the book of no day up to that of the first of them.
pub fn unmade_rows_change_no_past_day()
    ensures { UnmadeRowsChangeNoPastDay }
{}

/// Rows that aren't made change no sheet of a cycle that closed by the day of the first of them and goes on from the cycle before it: a row
/// of that one says of it what its book says.
pub fn unmade_rows_leave_sheets()
    ensures { UnmadeRowsLeaveSheets }
{}

/// The day of an issued row is a break day.
pub fn issue_days_are_breaks()
    ensures { IssueDaysAreBreaks }
{}

/// To the day of the first row that isn't made, a fold without these rows takes as many steps as one with them.
pub fn steps_to_the_first()
    ensures { StepsToTheFirst }
{}

/// The first rows of an account hold of it what all of them do.
pub fn fronts_are_accepted()
    ensures { FrontsAreAccepted }
{}

/// All rows that aren't made stay so over what is given now, where it leaves each of them.
pub fn rows_stay_unmade()
    ensures { RowsStayUnmade }
{}

/// Behind rows that aren't made there may be one more.
pub fn rows_grow_unmade()
    ensures { RowsGrowUnmade }
{}
