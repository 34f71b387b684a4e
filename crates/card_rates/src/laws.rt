//! Laws on rates, for all lists of posts. Their functions do nothing; their clauses are what holds.
ghost use Rattle.card_rates.specs.Laws.{PenaltiesStay, RatesOfADay, RunsHaveFewSegments, SegmentsOfADay, SpansKeepRates};

/// Segments stand by their numbers, which are 2 and above and below how many there are. A segment of a day is one of all
/// posts, and one that accrues on a day is of that day. The newest vintage that has begun by a day is the same read from all
/// posts and from those up to that day.
pub fn segments_of_a_day()
    ensures { SegmentsOfADay }
{}

/// The penalties in force on a day are the same in the book of that day and of each later one.
pub fn penalties_stay()
    ensures { PenaltiesStay }
{}

/// The rate of a day is the same read from all posts and from those up to that day, and with the penalties of that day's
/// book and of each later one.
pub fn rates_of_a_day()
    ensures { RatesOfADay }
{}

/// Over days without a break day, a segment's rate, the rate at which it accrues and the newest vintages are those of the first of
/// these days; a variable rate so far as they don't begin before the opening.
pub fn spans_keep_rates()
    ensures { SpansKeepRates }
{}

/// After every list of requests, each account has at most 64 segments.
pub fn runs_have_few_segments()
    ensures { RunsHaveFewSegments }
{}
