//! Laws on due dates. Their functions do nothing; their clauses are what holds.
ghost use Rattle.card_fees.specs.DueLaws.{DuePaymentsBySingleRows, PastPostsAreEnough};

/// Of the posts that the fold of a day sees, the rules on due dates up to it say what they say of the whole corrected list.
pub fn past_posts_are_enough()
    ensures { PastPostsAreEnough }
{}

/// Where no cycle has two issued statements, a cycle has a due payment in the fold of a day where its one is such.
pub fn due_payments_by_single_rows()
    ensures { DuePaymentsBySingleRows }
{}
