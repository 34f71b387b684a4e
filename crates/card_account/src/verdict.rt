use card_events::Refusal;

/// What becomes of a post, before it is carried out.
#[derive(Clone, Copy)]
pub enum Verdict {
    Refused(Refusal),
    /// The post of this number has the same key and content.
    Repeat(u32),
    New,
}
