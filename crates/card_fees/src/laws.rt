//! Laws on penalty fees and due dates. Their functions do nothing; their clauses are what holds.
ghost use Rattle.card_fees.specs.Laws.{CountedInThePast, DueDatesHaveOneFee, FeesAreWithin, FeesStayOneEach, MissedAsksLast};

/// A penalty fee is at most the minimum payment of its due date, and at most that of the last due date before its day
/// (12 CFR 1026.52(b)(2)(i)(A)).
pub fn fees_are_within()
    ensures { FeesAreWithin }
{}

/// Where no due date has two penalty fees, none has two with one more (12 CFR 1026.52(b)(2)(ii)).
pub fn fees_stay_one_each()
    ensures { FeesStayOneEach }
{}

/// In the book of every day no due date has two penalty fees (12 CFR 1026.52(b)(2)(ii)).
pub fn due_dates_have_one_fee()
    ensures { DueDatesHaveOneFee }
{}

/// The late fee needs the minimum payment of its own due date alone.
pub fn missed_asks_last()
    ensures { MissedAsksLast }
{}

/// The fold of a day counts payments up to it as they are counted over the whole corrected list.
pub fn counted_in_the_past()
    ensures { CountedInThePast }
{}
