use card_events::Day;

/// A closed cycle as its due date sees it: its number, from 1, the day on which it closed, its due date, and its minimum
/// payment and grace amount in cents.
#[derive(Clone, Copy)]
pub struct DueCycle {
    pub cycle: u32,
    pub closing: Day,
    pub due: Day,
    pub minimum: u64,
    pub grace_amount: u64,
    /// Whether its statement was issued at least 21 days before its due date (12 CFR 1026.5(b)(2)(ii)).
    pub has_due_payment: bool,
}
