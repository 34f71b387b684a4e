//! Laws on closings. Their functions do nothing; their clauses are what holds.
ghost use Rattle.card_closing.specs.Interest.{InterestOfAClosing};

/// Where segments, rows and accruals stand for a book, charging the interest of each segment in order, and then each
/// accrual whose period ends, posts what the definition of a closing posts.
pub fn interest_of_a_closing()
    ensures { InterestOfAClosing }
{}
