//! Laws on the books of accounts. Their functions do nothing; their clauses are what holds.
ghost use Rattle.card_book.specs.Agreement.{LaterChangesAgree, LaterRowsAgree};
ghost use Rattle.card_book.specs.Compliance.{DisputedAmountsAreLeftAlone, NoticesKeepEarlierRates, PenaltyFeesAreReasonable};
ghost use Rattle.card_book.specs.GoingOn.{AgreementGoesOn, BillsGoOn, BooksGoOn, RatesGoOn};
ghost use Rattle.card_book.specs.Laws.{IssuedRowsStay, OnlyBillsIssue};
ghost use Rattle.card_book.specs.Marks.{MarksGoOn, MarksGrow};
ghost use Rattle.card_book.specs.QuietSpans.{QuietSpansChangeNothing};
ghost use Rattle.card_book.specs.Renewed.{RenewedBooksStand};
ghost use Rattle.card_book.specs.Rewound.{FeesStandInOrder, RewoundBooksStand};
ghost use Rattle.card_book.specs.Stands.{BookIsTheFold};
ghost use Rattle.card_book.specs.StepCounts.{StepsAddUp};
ghost use Rattle.card_model.specs.Laws.{BalanceIdentity, CorrectionBack, IssuedCaps, IssuingChangesNoPastDay, PastIsEnough};

/// A Book and its track have the entries, the cycles, the fees and the balances of the account's book at the end of the last
/// day folded.
pub fn book_is_the_fold()
    ensures { BookIsTheFold }
{}

/// In the book of every day, what is owed is the sum of all entries: charges, interest, fees, refunds and returned payments,
/// less payments and credits. Holds sum to 0.
pub fn balance_identity()
    ensures { BalanceIdentity }
{}

/// In the book of every day, no cycle passes the interest, fees, minimum payment and grace amount that were issued.
pub fn issued_caps()
    ensures { IssuedCaps }
{}

/// The book of a day depends on the corrected posts and the fee rows up to that day alone, and, of an account with a variable rate, on
/// the index rows up to it.
pub fn past_is_enough()
    ensures { PastIsEnough }
{}

/// A correction that the next post takes back leaves the book of every day as it was before both.
pub fn correction_back()
    ensures { CorrectionBack }
{}

/// A Bill with the row that it adds changes the book of no day up to the day on which it was accepted.
pub fn issuing_changes_no_past_day()
    ensures { IssuingChangesNoPastDay }
{}

/// The rows issued to an account in any state of the ledger stay: after whatever further requests, the account is there and its
/// issued rows begin with them, unchanged and in order. No correction changes or drops one.
pub fn issued_rows_stay()
    ensures { IssuedRowsStay }
{}

/// A request that is no Bill on an account leaves its issued rows as they are.
pub fn only_bills_issue()
    ensures { OnlyBillsIssue }
{}

/// In the book of every day, for every history: no penalty fee exceeds the minimum payment that was due immediately before it
/// was charged, no due date has two penalty fees, and the entries of fees sum up to these fees and no more (12 CFR
/// 1026.52(b)(2)(i), (ii)).
pub fn penalty_fees_are_reasonable()
    ensures { PenaltyFeesAreReasonable }
{}

/// For every history and every notice of a rate increase in it, given on a day: no charge of the first 14 days after it is
/// owed on the vintage that bears the increased rate, such a charge goes where it would go without the notice, and every
/// older vintage bears on every day the rate that it would bear without the notice (12 CFR 1026.55(b)(3)).
pub fn notices_keep_earlier_rates()
    ensures { NoticesKeepEarlierRates }
{}

/// In the book of every day, for every history: what is on Held was only set aside by a dispute or brought back. It bears no
/// interest and no fee, so nothing of a disputed amount is collected (12 CFR 1026.13(d)(1)); and no payment or credit is
/// allocated to it, as the commentary to 12 CFR 1026.53 has it.
pub fn disputed_amounts_are_left_alone()
    ensures { DisputedAmountsAreLeftAlone }
{}

/// A post that is accepted last leaves what is folded up to each day before the first on which the corrected list changes.
pub fn later_changes_agree()
    ensures { LaterChangesAgree }
{}

/// Holidays after the last day of acceptance, and fee rows and index rows after a day, leave what is folded up to that day. Of an
/// account with fixed rates all index rows do.
pub fn later_rows_agree()
    ensures { LaterRowsAgree }
{}

/// Over days of which none is a break day, the book stays what it was before them, and so does the first day of the run of
/// days that end with a credit balance.
pub fn quiet_spans_change_nothing()
    ensures { QuietSpansChangeNothing }
{}

/// A Book and its track that stand for the book of an account stand for it over other posts and shared rows too, where these
/// are the same up to the last day folded and give the same segments and rates.
pub fn books_go_on()
    ensures { BooksGoOn }
{}

/// Where what is folded agrees up to a day and no row was issued, the account continues from that day.
pub fn agreement_goes_on()
    ensures { AgreementGoesOn }
{}

/// After a Bill with the row that it adds, the account continues from each day up to the one on which it was accepted.
pub fn bills_go_on()
    ensures { BillsGoOn }
{}

/// Posts that are no Plan, Notice or Lower leave all segments and rates.
pub fn rates_go_on()
    ensures { RatesGoOn }
{}

/// A Book and its track taken back to the closing of a cycle stand for the account's book at that closing.
pub fn rewound_books_stand()
    ensures { RewoundBooksStand }
{}

/// The fees of the first cycles of a track stand before all others.
pub fn fees_stand_in_order()
    ensures { FeesStandInOrder }
{}

/// A Book at a closing, with the rates and segments of all posts that were added since, stands for the new book.
pub fn renewed_books_stand()
    ensures { RenewedBooksStand }
{}

/// What was kept of each closing still is what it was, with that of one closing more.
pub fn marks_grow()
    ensures { MarksGrow }
{}

/// What was kept of each closing stays right over what is given now, where all of them came before the first change.
pub fn marks_go_on()
    ensures { MarksGoOn }
{}

/// The steps to a break day and from there on are those of the whole, and no fold takes more than one step beside those for its
/// break days.
pub fn steps_add_up()
    ensures { StepsAddUp }
{}
