//! Bounds from the limits on posts, cents, fees and days alone; on which segments and days entries lie.
ghost use Rattle.card_bounds.specs.Bounds.{AmountsSmall, BalancesBounded, BalancesSmall, CyclesHaveTheirInterest, EntriesSmall, HeldIsNeverBelow, RatesSmall, RowsOfPastDays, RowsSmall, SmallAtEachStep, SumsSmall};
ghost use Rattle.card_bounds.specs.Counts.{EntriesAreFew};
ghost use Rattle.card_bounds.specs.Places.{CyclesBeginInTurn, EntriesHaveDays, EntriesHaveSegments};
ghost use Rattle.card_bounds.specs.Reached.{PaymentsReach};

/// Every balance lies within what was moved, interest apart, and 10^13 cents.
pub fn balances_bounded()
    ensures { BalancesBounded }
{}

/// Every balance stays below 10^15 cents in size.
pub fn balances_small()
    ensures { BalancesSmall }
{}

/// Balances are small after each front of a day's posts, and after each front of a closing's segments.
pub fn small_at_each_step()
    ensures { SmallAtEachStep }
{}

/// The row of a day is the balance after that day's posts, whatever came later.
pub fn rows_of_past_days()
    ensures { RowsOfPastDays }
{}

/// No row of a day is above the greatest balance.
pub fn rows_small()
    ensures { RowsSmall }
{}

/// A sum of balance times daily rate over 31 days is at most 3.5 * 10^22, and over 40,000 days below 10^26, with at most
/// 200,000 posts.
pub fn sums_small()
    ensures { SumsSmall }
{}

/// Held is never below 0 where no Dispute is resolved twice, at the end of a day and after each front of its posts.
pub fn held_is_never_below()
    ensures { HeldIsNeverBelow }
{}

/// No rate is above 9,999 basis points where no post's is.
pub fn rates_small()
    ensures { RatesSmall }
{}

/// A closed cycle's interest is the sum of the interest entries of its closing.
pub fn cycles_have_their_interest()
    ensures { CyclesHaveTheirInterest }
{}

/// Every entry lies on Credit, on Held or on a segment that is there by the day, and no other segment has a balance: at
/// the end of a day, before it, and after its due date and any posts.
pub fn entries_have_segments()
    ensures { EntriesHaveSegments }
{}

/// No entry is of a later day than its book.
pub fn entries_have_days()
    ensures { EntriesHaveDays }
{}

/// An account of at most 64 segments has at most 64 entries for each post that was folded and for each closed cycle, and so
/// for each of its posts and each day since the opening: at the end of a day, before it, and after a front of its posts.
pub fn entries_are_few()
    ensures { EntriesAreFew }
{}

/// The cycle that a book is in begins on the day after the last closing before the next day.
pub fn cycles_begin_in_turn()
    ensures { CyclesBeginInTurn }
{}

/// After each front of a day's posts: an entry of a payment lowers what is owed and isn't on Held; those of one payment are of
/// ascending segments, and together at most 10^9 cents. An entry of kind credit has the number of no post that isn't a
/// merchant's credit.
pub fn payments_reach()
    ensures { PaymentsReach }
{}

/// A closed cycle of an account of at most 64 segments has at most 1.24 * 10^15 cents of interest, and what all entries move,
/// interest apart, is within what the limits on posts, cents and fees let them move.
pub fn amounts_small()
    ensures { AmountsSmall }
{}

/// No entry of interest is above 10^13 cents, and no entry at all above 10^15 in size, with at most 200,000 posts.
pub fn entries_small()
    ensures { EntriesSmall }
{}
