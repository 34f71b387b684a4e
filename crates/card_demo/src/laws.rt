//! Laws of demonstrations. Their functions do nothing; their clauses are what holds.
ghost use Rattle.card_demo.specs.Laws as laws;
ghost use Rattle.card_demo.specs.Worked.{WorkedRequests};

/// Wherever the generator begins, there are two requests, an opening of each account, and in each cycle seven for each account
/// and a roll.
pub fn requests_are_counted()
    ensures { laws.RequestsAreCounted }
{}

/// The requests of one account over one cycle, where the generator begins at 1, one by one.
pub fn worked_requests()
    ensures { WorkedRequests }
{}
