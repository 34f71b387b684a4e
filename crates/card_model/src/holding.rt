use card_events::Day;

/// A segment that a payment may reach: its balance in cents, its rate of the day in basis points, its end where it is
/// deferred and in the last two cycles of its period, whether it is of the place that a credit names, and the cents
/// that it was paid (12 CFR 1026.53).
#[derive(Clone, Copy)]
pub struct Holding {
    pub id: u8,
    pub balance: u64,
    pub rate: u16,
    pub last_two: Option<Day>,
    pub of_place: bool,
    pub paid: u64,
}
