//! Laws on what the fold of a day is given. Their functions do nothing; their clauses are what holds.
ghost use Rattle.card_daily.specs.Laws.{RunsKeepPlans, RunsKeepTurns};

/// After every list of requests, each Plan of an account ends with one of its closings, on or after its opening day.
pub fn runs_keep_plans()
    ensures { RunsKeepPlans }
{}

/// After every list of requests, the posts of each account were accepted, and its statements issued, in the order of their days,
/// and each Bill was accepted, and its statement issued, after the closing of its cycle.
pub fn runs_keep_turns()
    ensures { RunsKeepTurns }
{}
