//! Laws on the posts of a day. Their functions do nothing; their clauses are what holds.
ghost use Rattle.card_rates.specs.SlotLaws.{PlacesOfDays, PostsInTurn, PostsOfADay, RunsKeepDates};

/// What the fold of a day reads are the posts that are effective on it, without the kinds that aren't folded; and those
/// change nothing, so that the day's posts with and without them do the same.
pub fn posts_of_a_day()
    ensures { PostsOfADay }
{}

/// The first i + 1 posts of a list do what post i does after the first i.
pub fn posts_in_turn()
    ensures { PostsInTurn }
{}

/// The place of a day is where the slots of earlier days end. The next day's place lies behind it by as many as the day has
/// posts, and days with one place have none between them.
pub fn places_of_days()
    ensures { PlacesOfDays }
{}

/// After every list of requests with days up to 2099-12-31, every day in an account's posts is such a day.
pub fn runs_keep_dates()
    ensures { RunsKeepDates }
{}
