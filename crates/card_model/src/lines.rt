use crate::{EntryKind, Sort};
use card_events::{Bp, Cents, Day};

/// A transaction on a statement (12 CFR 1026.7(b)(2), (b)(3), (b)(6)): one post, or one fee, with the cents of its entries of
/// one kind; a plus raises what is owed. A late fee has post 0, a returned-payment fee that of its Return. Interest and
/// holds are none.
#[derive(Clone, Copy)]
pub struct Move {
    pub day: Day,
    pub kind: EntryKind,
    pub post: u32,
    pub cents: Cents,
}

/// A segment that bore a balance in the cycle (12 CFR 1026.7(b)(4), (b)(5), (b)(6)(ii)): its rate on the closing day, the
/// average daily balance in cents to which that was applied, and the interest in cents, each at least 0. A Deferred in its
/// period has rate 0.
#[derive(Clone, Copy)]
pub struct RateLine {
    pub segment: u8,
    pub sort: Sort,
    pub rate: Bp,
    pub average: u128,
    pub interest: u128,
}

/// A Deferred in its period (12 CFR 1026.7(b)(14)): its balance and the interest accrued so far, in cents, and the day by
/// which to pay in full.
#[derive(Clone, Copy)]
pub struct DeferredLine {
    pub segment: u8,
    pub balance: Cents,
    pub accrued: Cents,
    pub ends: Day,
}
