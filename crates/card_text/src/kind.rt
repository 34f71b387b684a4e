ghost use Rattle.std.specs.Prelude.{◌≡◌};
ghost use Rattle.card_text.specs.Kinds.{kind_of};

use card_lines::{PostKind, Word, read_word};

/// The kinds of post that a record may give.
#[derive(Clone, Copy)]
pub enum RecordKind {
    Charge,
    Credit,
    Payment,
}

/// The kind with this word. Case matters; None comes exactly for bytes that are none of the three.
#[tactic(auto, unfolding(crate::specs::Kinds::kind_of))]
pub fn read_kind(text: &[u8]) -> Option<RecordKind>
    ensures { result ≡ kind_of text.now }
{
    match read_word(text) {
        Some(Word::Post(PostKind::Charge)) => Some(RecordKind::Charge),
        Some(Word::Post(PostKind::Credit)) => Some(RecordKind::Credit),
        Some(Word::Post(PostKind::Payment)) => Some(RecordKind::Payment),
        _ => None,
    }
}
