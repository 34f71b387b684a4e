use crate::dated::is_request_day;
use crate::{Channel, Day, Num};

/// The numbers of an account, as they were read. `Refusal::BadTerms` names the first that is out of its range.
#[derive(Clone, Copy, PartialEq, Eq)]
pub struct Terms {
    /// The day of the month on which cycles close, 1 to 28.
    pub close: Num,
    /// The annual rates of the opening balances, in basis points; where they follow the index, the margins on it.
    pub purchase: Num,
    pub cash: Num,
    pub transfer: Num,
    /// The annual penalty rate, in basis points (12 CFR 1026.55(b)(4)).
    pub penalty: Num,
    /// The least minimum payment, in cents.
    pub floor: Num,
    /// The part of the new balance in a minimum payment, in basis points.
    pub pct: Num,
}

/// A category of transactions, which has a rate of its own.
#[derive(Clone, Copy, PartialEq, Eq)]
pub enum Category {
    Purchase,
    Cash,
    Transfer,
}

/// Where a charge or a credit goes: to a category, or to the plan that the post of this number began.
#[derive(Clone, Copy, PartialEq, Eq)]
pub enum Place {
    Purchase,
    Cash,
    Transfer,
    Plan(Num),
}

/// A plan at a rate of its own, or one whose interest is charged at the end unless the balance is paid.
#[derive(Clone, Copy, PartialEq, Eq)]
pub enum PlanKind {
    Promo,
    Deferred,
}

/// What a review of a rate increase found (12 CFR 1026.59).
#[derive(Clone, Copy, PartialEq, Eq)]
pub enum Finding {
    Keep,
    Reduce,
}

/// A post of an account. Rates are in basis points, amounts in cents, minutes count from midnight; targets are numbers of posts.
#[derive(Clone, Copy, PartialEq, Eq)]
pub enum Post {
    /// The account begins.
    Open {
        day: Day,
        terms: Terms,
    },
    /// The account begins, and its opening rates follow the index: those of the terms are margins on it (12 CFR 1026.55(b)(2)).
    OpenVariable {
        day: Day,
        terms: Terms,
    },
    /// A transaction that raises what is owed.
    Charge {
        day: Day,
        place: Place,
        cents: Num,
    },
    /// A merchant's credit.
    Credit {
        day: Day,
        place: Place,
        cents: Num,
    },
    /// A payment, received at this minute of the day.
    Payment {
        day: Day,
        minute: Num,
        channel: Channel,
        cents: Num,
    },
    /// The payment of this number is returned unpaid.
    Return {
        day: Day,
        target: Num,
    },
    /// A plan from this day to its end, and the rate after it.
    Plan {
        day: Day,
        kind: PlanKind,
        rate: Num,
        end: Day,
        after: Num,
    },
    /// Notice of a rate from its effective day on (12 CFR 1026.9(c)(2)).
    Notice {
        day: Day,
        category: Category,
        rate: Num,
        effective: Day,
    },
    /// No rate of the category that has begun is above this one.
    Lower {
        day: Day,
        category: Category,
        rate: Num,
    },
    /// The penalty rate, for an account that is sixty days late (12 CFR 1026.55(b)(4)).
    Penalty,
    /// A review of rate increases (12 CFR 1026.59).
    Review {
        day: Day,
        finding: Finding,
    },
    /// A billing error is asserted in the charge of this number (12 CFR 1026.13).
    Dispute {
        day: Day,
        target: Num,
        cents: Num,
    },
    /// The dispute of this number is acknowledged.
    Ack {
        day: Day,
        target: Num,
    },
    /// The dispute of this number is resolved, and these cents of the charge were an error.
    Resolve {
        day: Day,
        target: Num,
        cents: Num,
    },
    /// The consumer asks for a refund of a credit balance (12 CFR 1026.11(a)).
    AskRefund {
        day: Day,
    },
    /// A credit balance is refunded.
    Refund {
        cents: Num,
    },
    /// The charge, credit or payment of this number has this day and these cents; with 0 cents it is void.
    Amend {
        target: Num,
        day: Day,
        cents: Num,
    },
    /// The statement of this cycle is issued.
    Bill {
        cycle: Num,
    },
}

impl Post {
    ghost use Rattle.std.specs.Prelude.{◌≡◌};
    ghost use Rattle.card_events.specs.Dated.{is_dated_post};
    ghost use Rattle.card_events.specs.History.{charge_disputed, opens_variable};
    ghost use Rattle.card_events.specs.Same.{is_same_post};

    /// Whether the other post is of the same kind with the same content.
    #[tactic(auto, unfolding(crate::specs::Same::is_same_post))]
    pub fn is_same_as(&self, other: &Post) -> bool
        ensures { result ≡ is_same_post self.now other.now }
    {
        *self == *other
    }

    /// Whether it opens an account whose opening rates follow the index (12 CFR 1026.55(b)(2)).
    pub fn opens_variable(&self) -> bool
        ensures { result ≡ opens_variable self.now }
    {
        matches!(self, Post::OpenVariable { .. })
    }

    /// The number of the charge in which it asserts a billing error, 0 where it is no Dispute (12 CFR 1026.13).
    pub fn charge_disputed(&self) -> u64
        ensures { result ≡ charge_disputed self.now }
    {
        match self {
            Post::Dispute { target, .. } => target.get(),
            _ => 0,
        }
    }

    /// Whether every day in it is a day of requests, at most 2099-12-31.
    #[tactic(auto, unfolding(crate::specs::Dated::is_dated_post))]
    pub fn is_dated(&self) -> bool
        ensures { result ≡ is_dated_post self.now }
    {
        match self {
            Post::Open { day, .. }
            | Post::OpenVariable { day, .. }
            | Post::Charge { day, .. }
            | Post::Credit { day, .. }
            | Post::Payment { day, .. }
            | Post::Return { day, .. }
            | Post::Lower { day, .. }
            | Post::Review { day, .. }
            | Post::Dispute { day, .. }
            | Post::Ack { day, .. }
            | Post::Resolve { day, .. }
            | Post::AskRefund { day }
            | Post::Amend { day, .. } => is_request_day(*day),
            Post::Plan { day, end, .. } => is_request_day(*day) && is_request_day(*end),
            Post::Notice { day, effective, .. } => {
                is_request_day(*day) && is_request_day(*effective)
            }
            Post::Penalty | Post::Refund { .. } | Post::Bill { .. } => true,
        }
    }
}
