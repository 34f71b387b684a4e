use card_events::Day;

/// What a segment holds: a credit balance, amounts in dispute, a vintage of a category, or a plan.
#[derive(Clone, Copy)]
pub enum Sort {
    Credit,
    Held,
    Purchase,
    Cash,
    Transfer,
    Promo,
    Deferred,
}

/// A part of an account's balance: its sort, the post that began it (0 for Credit and Held), its first day and, of a
/// plan, the last day of its period.
#[derive(Clone, Copy)]
pub struct Segment {
    pub sort: Sort,
    pub post: u32,
    pub begins: Day,
    pub ends: Option<Day>,
}

/// A penalty rate's first day and, where it has ended, its last (12 CFR 1026.55(b)(4)).
#[derive(Clone, Copy)]
pub struct Interval {
    pub begins: Day,
    pub last: Option<Day>,
}
