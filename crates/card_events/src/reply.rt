use crate::{Cents, Day};

/// The answer to a request.
#[derive(Clone, Copy)]
pub enum Reply {
    /// The shared request was accepted.
    Done,
    /// The post is in the account, under this number.
    Accepted(u32),
    /// Nothing was changed.
    Refused(Refusal),
}

/// Why a request isn't accepted. The first that holds is given, in this order; NoIndex comes behind DayAhead.
#[derive(Clone, Copy)]
pub enum Refusal {
    /// No account has the name.
    UnknownAccount,
    /// An account has the name already.
    AccountExists,
    /// The key is that of another post, of this number.
    KeyReused(u64),
    /// The term of this place in the line of terms, from 1, is out of its range.
    BadTerms(u64),
    /// An amount, a rate, a minute or a cycle is out of its range.
    AmountRange,
    /// The post's own day is after today.
    DayAhead,
    /// The post's own day is before the account's opening day.
    DayBeforeOpen,
    /// No plan has the number.
    UnknownPlan,
    /// The day is not in the plan.
    OutsidePlan,
    /// The plan's end is no closing; the next one is this day.
    PlanEndNotClosing(Day),
    /// The plan ends before six months are over (12 CFR 1026.55(b)(1)).
    PlanTooShort,
    /// The account has 64 segments.
    SegmentsFull,
    /// The target, of this number, is of another kind; or the cycle was issued by the Bill of this number.
    WrongEntry(u64),
    /// The payment was returned by the post of this number.
    AlreadyReturned(u64),
    /// The rate may take effect on this day at the earliest (12 CFR 1026.9(c)(2)).
    NoticeTooShort(Day),
    /// The rate may take effect on this day at the earliest (12 CFR 1026.55(b)(3)(iii)).
    FirstYear(Day),
    /// An earlier notice of the category takes effect on this day.
    NoticePending(Day),
    /// The account isn't sixty days late (12 CFR 1026.55(b)(4)).
    NotDelinquent,
    /// The last day for the dispute was this one (12 CFR 1026.13(b)(1)).
    DisputeLate(Day),
    /// The charge is disputed by the post of this number.
    DisputeKnown(u64),
    /// The dispute is resolved.
    NoOpenDispute,
    /// The cycle closes on this day, which isn't before today.
    NotClosed(Day),
    /// The credit balance is these cents.
    RefundTooLarge(Cents),
    /// No rate increase has taken effect.
    NothingToReview,
    /// The account has 200,000 posts.
    AccountFull,
    /// There are 1,000,000 accounts.
    LedgerFull,
    /// Today is this day, which isn't before the one rolled to.
    RollBack(Day),
    /// The day rolled to is more than 366 days on.
    RollTooFar,
    /// Today is this day, which isn't before the row's.
    PastRow(Day),
    /// The index has no row on the opening day or before it (12 CFR 1026.55(b)(2)).
    NoIndex,
}

impl Refusal {
    ghost use Rattle.std.specs.Prelude.{◌≡◌};
    ghost use Rattle.card_events.specs.Refusals.{refusal_number};

    /// The number of the refusal, 1 to 30.
    pub fn number(&self) -> u8
        ensures { result ≡ refusal_number self.now }
    {
        match self {
            Refusal::UnknownAccount => 1,
            Refusal::AccountExists => 2,
            Refusal::KeyReused(_) => 3,
            Refusal::BadTerms(_) => 4,
            Refusal::AmountRange => 5,
            Refusal::DayAhead => 6,
            Refusal::DayBeforeOpen => 7,
            Refusal::UnknownPlan => 8,
            Refusal::OutsidePlan => 9,
            Refusal::PlanEndNotClosing(_) => 10,
            Refusal::PlanTooShort => 11,
            Refusal::SegmentsFull => 12,
            Refusal::WrongEntry(_) => 13,
            Refusal::AlreadyReturned(_) => 14,
            Refusal::NoticeTooShort(_) => 15,
            Refusal::FirstYear(_) => 16,
            Refusal::NoticePending(_) => 17,
            Refusal::NotDelinquent => 18,
            Refusal::DisputeLate(_) => 19,
            Refusal::DisputeKnown(_) => 20,
            Refusal::NoOpenDispute => 21,
            Refusal::NotClosed(_) => 22,
            Refusal::RefundTooLarge(_) => 23,
            Refusal::NothingToReview => 24,
            Refusal::AccountFull => 25,
            Refusal::LedgerFull => 26,
            Refusal::RollBack(_) => 27,
            Refusal::RollTooFar => 28,
            Refusal::PastRow(_) => 29,
            Refusal::NoIndex => 30,
        }
    }
}
