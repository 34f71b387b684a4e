use card_events::{Cents, Day};

/// Why an entry stands.
#[derive(Clone, Copy)]
pub enum EntryKind {
    Charge,
    Credit,
    Payment,
    Return,
    Refund,
    Fee,
    Interest,
    Hold,
}

/// A movement on a segment. A plus raises what is owed; the post is 0 for interest and late fees.
#[derive(Clone, Copy)]
pub struct Entry {
    pub day: Day,
    pub segment: u8,
    pub kind: EntryKind,
    pub post: u32,
    pub cents: Cents,
}

/// The day, kind and post of entries that are made together.
#[derive(Clone, Copy)]
pub struct Note {
    pub day: Day,
    pub kind: EntryKind,
    pub post: u32,
}
