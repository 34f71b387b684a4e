use card_events::Day;

/// A segment's rank on a day: its rate in basis points, and its end day where it is a Deferred in the last two cycles of
/// its period (12 CFR 1026.53(b)(1)(i)).
#[derive(Clone, Copy, Default)]
pub struct Rank {
    pub rate: u16,
    pub last_two: Option<Day>,
}
