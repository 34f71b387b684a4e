//! Laws of the fold, for all lists of posts.
ghost use Rattle.card_model.specs.Accepted.{RunsAreAccepted};
ghost use Rattle.card_model.specs.Cuts.{BreakDaysStay, ClosingsAreCuts};
ghost use Rattle.card_model.specs.CycleDays.{CyclesAreOfTheCalendar};
ghost use Rattle.card_model.specs.Indexed.{IndexIsTheLatest};
ghost use Rattle.card_model.specs.Isolated.{Isolation};
ghost use Rattle.card_model.specs.Laws.{BalanceIdentity, CorrectionBack, IssuedCaps, IssuingChangesNoPastDay, PastIsEnough, Signs};
ghost use Rattle.card_model.specs.QuietDays.{QuietDaysChangeNothing};
ghost use Rattle.card_model.specs.Spans.{SpansAreSteps, SpansAreTold};
ghost use Rattle.card_model.specs.Unread.{UnfoldedPostsAgree};

/// The book of a day depends on the corrected posts, the fee rows and, where the account's opening rates follow the index,
/// the index rows up to that day alone.
pub fn past_is_enough()
    ensures { PastIsEnough }
{}

/// What is owed is the sum of all entries: charges, interest, fees, refunds and returned payments, less payments and
/// credits. Holds sum to 0.
pub fn balance_identity()
    ensures { BalanceIdentity }
{}

/// In the book of every day, no cycle passes the interest, fees, minimum payment and grace amount that were issued.
pub fn issued_caps()
    ensures { IssuedCaps }
{}

/// A correction that the next post takes back leaves the book of every day as it was before both.
pub fn correction_back()
    ensures { CorrectionBack }
{}

/// A Bill with the row that it adds changes the book of no day up to the day on which it was accepted.
pub fn issuing_changes_no_past_day()
    ensures { IssuingChangesNoPastDay }
{}

/// Credit is never above 0, and no segment but Held ever below.
pub fn signs()
    ensures { Signs }
{}

/// After every list of requests, in every account: at most 200,000 posts, whose terms, rates and cents are within their
/// ranges; no Dispute is resolved twice, and no cycle has two issued rows. Fees in the table are within their range. Each
/// account whose opening rates follow the index has one on its opening day (12 CFR 1026.55(b)(2)).
pub fn runs_are_accepted()
    ensures { RunsAreAccepted }
{}

/// Replies on an account, and the lists that a run leaves it with, depend on its own requests and the shared ones, with
/// the replies to these, and on nothing else.
pub fn isolation()
    ensures { Isolation }
{}

/// The cycles closed by the end of a day are as many as the calendar has closed, and each has the calendar's number,
/// first day, closing and due date.
pub fn cycles_are_of_the_calendar()
    ensures { CyclesAreOfTheCalendar }
{}

/// A day that is no break day leaves the book of the day before as it was.
pub fn quiet_days_change_nothing()
    ensures { QuietDaysChangeNothing }
{}

/// The book of the day on which a cycle closed is a cut of the book of every later day: the entries that the cycle counts,
/// the cycles up to it, the fees of these cycles, and the penalties that had begun, each with its end where that lay before
/// the closing.
pub fn closings_are_cuts()
    ensures { ClosingsAreCuts }
{}

/// By the penalties in the book of every later day, a day is a break day where it is one by those of the day before it.
pub fn break_days_stay()
    ensures { BreakDaysStay }
{}

/// A Review, an Ack, an AskRefund or a Bill that is accepted last leaves what is folded up to every day as it was.
pub fn unfolded_posts_agree()
    ensures { UnfoldedPostsAgree }
{}

/// Of the steps of a fold, each span of days without a break is one, with the day that ends it.
pub fn spans_are_steps()
    ensures { SpansAreSteps }
{}

/// Behind days without a break, the penalties of the book before them decide whether a day is a break day as those of every
/// later book do.
pub fn spans_are_told()
    ensures { SpansAreTold }
{}

/// The index of a day is that of the accepted row with the greatest day up to it, and of two for one day that of the one
/// accepted later (12 CFR 1026.55(b)(2)).
pub fn the_index_is_the_latest()
    ensures { IndexIsTheLatest }
{}
