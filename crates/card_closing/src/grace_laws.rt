//! Laws on the interest of a cycle. Their functions do nothing; their clauses are what holds.
ghost use Rattle.card_closing.specs.Accruals.{AccrualOfABook};
ghost use Rattle.card_closing.specs.Growth.{InterestInTurn, RepaymentsLower, RowsGrow};
ghost use Rattle.card_closing.specs.GraceLaws.{KeptRowsToo, NoEarlierDayNoRepaidPortion, OneCaseACycle, RowsOfABook};

/// Interest of a cycle reads the rows of the cycle's own days alone. A day's balance that bears it and what was repaid
/// of that balance in time are together no more than the greater of the day's balance and the repayment; purchases of
/// a statement that was paid bear none (12 CFR 1026.54(a)(1)). It holds of the definition and of kept rows.
pub fn no_earlier_day_no_repaid_portion()
    ensures definition { NoEarlierDayNoRepaidPortion }
    ensures kept { KeptRowsToo }
{}

/// Rows that are those of a book give the interest sum and the average daily balance of its definition.
pub fn rows_of_a_book()
    ensures { RowsOfABook }
{}

/// A segment bears interest in one way for a whole cycle, a deferred one too.
pub fn one_case_a_cycle()
    ensures { OneCaseACycle }
{}

/// An accrual that begins with nothing before a plan's first day, and takes the row of each day, is that of the
/// definition.
pub fn accrual_of_a_book()
    ensures { AccrualOfABook }
{}

/// The rows of a cycle begin without any, and each day adds its own. Entries add what they repaid, and a return takes
/// out what its payment did.
pub fn rows_grow()
    ensures { RowsGrow }
{}

/// At a closing the interest of all segments may be read before any of it is posted, and an accrual after it.
pub fn interest_in_turn()
    ensures { InterestInTurn }
{}

/// In the book of every day payments and credits lower what is owed.
pub fn repayments_lower()
    ensures { RepaymentsLower }
{}
