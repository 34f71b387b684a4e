use card_events::{Cents, Day};

/// What a penalty fee is for (12 CFR 1026.52(b)).
#[derive(Clone, Copy)]
pub enum FeeKind {
    Late,
    Returned,
}

/// A penalty fee: the cycle whose due date it is for, its tier, and the cycle and day on which it was charged.
#[derive(Clone, Copy)]
pub struct Fee {
    pub due_cycle: u32,
    pub kind: FeeKind,
    /// Whether it is at the repeat amount (12 CFR 1026.52(b)(1)(ii)(B)).
    pub repeat: bool,
    pub cycle: u32,
    pub day: Day,
    pub cents: Cents,
}

/// What a penalty fee is charged for: its kind, the cycle whose due date it is for, and the cycle and the day on which it is
/// charged.
#[derive(Clone, Copy)]
pub struct Cause {
    pub kind: FeeKind,
    pub due_cycle: u32,
    pub cycle: u32,
    pub day: Day,
}
