/// The most posts of an account, its opening among them.
pub const POST_LIMIT: u32 = 200_000;

/// The greatest yearly rate, in basis points.
pub const RATE_LIMIT: u16 = 9_999;

// The last minute at which a payment still counts as received on its day, 17:00.
pub(crate) const CUTOFF: u16 = 1_020;

/// The most accounts of a ledger.
pub const ACCOUNT_LIMIT: usize = 1_000_000;

/// The greatest amount of a post, in cents.
pub const AMOUNT_LIMIT: u64 = 1_000_000_000;

/// The days between the notice of a rate and its first day, at least (12 CFR 1026.9(c)(2)(i), (g)(1)(i)).
pub const NOTICE_DAYS: u32 = 45;

/// The days within which a lower rate follows a review that found one too high (12 CFR 1026.59(a)(2)(i)).
pub const LOWER_DAYS: u32 = 45;

/// The days within which a charge may be disputed, from the first statement that shows it (12 CFR 1026.13(b)(1)).
pub const DISPUTE_DAYS: u32 = 60;

/// A minimum payment that is owed for more days than these allows a penalty rate (12 CFR 1026.55(b)(4)).
pub const LATE_DAYS: i32 = 60;

/// The days between the issue of a statement and its due date, at least (12 CFR 1026.5(b)(2)(ii)).
pub const STATEMENT_DAYS: i32 = 21;
