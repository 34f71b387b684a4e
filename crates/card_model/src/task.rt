use card_events::{Day, Name};

/// What has to be done: to acknowledge or resolve a dispute (12 CFR 1026.13(c)), to refund a credit balance on request
/// or after six months (12 CFR 1026.11(a)), to review a rate increase or lower the rate after a review (12 CFR 1026.59).
#[derive(Clone, Copy)]
pub enum TaskKind {
    Ack,
    Resolve,
    Refund,
    Credit,
    Review,
    Lower,
}

/// An open task of an account: its last day, and its post, 0 for a credit balance and a review.
#[derive(Drop)]
pub struct Task {
    pub by: Day,
    pub account: Name,
    pub kind: TaskKind,
    pub post: u32,
}
