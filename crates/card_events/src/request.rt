use crate::dated::is_request_day;
use crate::{Day, Name, Num, Post};

/// A request that all accounts share.
#[derive(Clone, Copy)]
pub enum Shared {
    /// Today is this day from now on.
    Roll(Day),
    /// This day is no business day.
    Holiday(Day),
    /// The penalty fees from this day on, in cents: the first, and a repeated one (12 CFR 1026.52(b)(1)(ii)).
    FeeRow { day: Day, first: Num, repeat: Num },
    /// The index is this rate from this day on, in basis points (12 CFR 1026.55(b)(2)).
    Index { day: Day, rate: Num },
}

/// A request of the machine.
#[derive(Drop)]
pub enum Request {
    Shared(Shared),
    /// A post of an account, under a key that is the account's own.
    Post {
        account: Name,
        key: Name,
        post: Post,
    },
}

impl Shared {
    ghost use Rattle.std.specs.Prelude.{◌≡◌};
    ghost use Rattle.card_events.specs.Dated.{is_dated_shared};

    /// Whether its day is a day of requests, at most 2099-12-31.
    #[tactic(auto, unfolding(crate::specs::Dated::is_dated_shared))]
    pub fn is_dated(&self) -> bool
        ensures { result ≡ is_dated_shared self.now }
    {
        match self {
            Shared::Roll(day)
            | Shared::Holiday(day)
            | Shared::FeeRow { day, .. }
            | Shared::Index { day, .. } => is_request_day(*day),
        }
    }
}

impl Request {
    ghost use Rattle.std.specs.Prelude.{◌≡◌};
    ghost use Rattle.card_events.specs.Dated.{is_dated};

    /// Whether every day in it is a day of requests, at most 2099-12-31.
    #[tactic(auto, unfolding(crate::specs::Dated::is_dated))]
    pub fn is_dated(&self) -> bool
        ensures { result ≡ is_dated self.now }
    {
        match self {
            Request::Shared(shared) => shared.is_dated(),
            Request::Post { post, .. } => post.is_dated(),
        }
    }
}
