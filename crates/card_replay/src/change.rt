// What a post that was prepared changes.
use card_events::{Day, Name, Post};
use card_past::{BookIfAny, Ends, IssuedIfAny, Owed};

/// What a post takes an account back to: the Book at the end of an earlier day, or none before the opening day, and where what is recorded
/// up to then ends. With the post among the others it is folded on from there when it is next asked.
#[derive(Drop)]
pub struct TakenBack {
    pub book: BookIfAny,
    pub ends: Ends,
}

/// A post that was prepared for an account: its key, the day on which it is accepted, the statement that it issues, or the Bill whose
/// statement is made later, and what it takes the account back to, None where it changes nothing up to the day last reached.
#[derive(Drop)]
pub struct Change {
    pub key: Name,
    pub post: Post,
    pub today: Day,
    pub issued: IssuedIfAny,
    pub owes: Option<Owed>,
    pub rewound: Option<TakenBack>,
}
