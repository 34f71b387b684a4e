use card_events::{Name, Request};

/// What a run takes, one after the other.
#[derive(Drop)]
pub enum Item {
    Request(Request),
    /// The account of this name is to be shown. A line may say so, and no record does.
    Show(Name),
    /// It says nothing: its number, counted from 1, and the first field that is bad.
    Bad { number: u64, field: u8 },
}
