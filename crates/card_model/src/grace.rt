use card_events::Day;

/// How a balance bears interest in a cycle (12 CFR 1026.54).
#[derive(Clone, Copy)]
pub enum GraceCase {
    /// It bears none.
    None,
    /// Each day's balance is lowered by what was repaid on later days up to this due date.
    Lowered(Day),
    /// It bears interest as it stands.
    Plain,
}
