//! Laws on what was counted so far. Their functions do nothing; their clauses are what holds.
ghost use Rattle.card_fees.specs.Tallied.{TalliesGoOn, TalliesStay};

/// Where the fold of a day sees the same posts of two lists, what was counted of payments and credits up to that day is right
/// for both.
pub fn tallies_go_on()
    ensures { TalliesGoOn }
{}

/// What was counted up to a day is right on later days.
pub fn tallies_stay()
    ensures { TalliesStay }
{}
