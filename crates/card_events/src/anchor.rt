use crate::Day;

/// What fixes an account's cycles: its opening day, and the day of the month on which a cycle closes, 1 to 28.
#[derive(Clone, Copy)]
pub struct Anchor {
    pub opened: Day,
    pub close_day: u8,
}

/// How a payment came in.
#[derive(Clone, Copy, PartialEq, Eq)]
pub enum Channel {
    Mail,
    Online,
}
