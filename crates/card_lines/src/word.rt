ghost use Rattle.std.specs.Prelude.{◌≡◌, length};
ghost use Rattle.std.specs.Str.{bytes_eq};
ghost use Rattle.card_lines.specs.Words.{word_of, post_kind_of, follow_up_of};

/// A word that a line begins with.
#[derive(Clone, Copy)]
pub enum Word {
    Roll,
    Holiday,
    FeeRow,
    Index,
    Show,
    Post(PostKind),
}

/// A kind of post.
#[derive(Clone, Copy)]
pub enum PostKind {
    Open,
    OpenVariable,
    Charge,
    Credit,
    Payment,
    Return,
    Plan,
    Notice,
    Lower,
    Penalty,
    Review,
    Dispute,
    Ack,
    Resolve,
    AskRefund,
    Refund,
    Amend,
    Bill,
}

/// The text is this word, byte for byte. At a call with a word of the program, its length and bytes are compared in place.
#[inline(always)]
pub fn is_word(text: &[u8], word: &[u8]) -> bool
    ensures { result ≡ bytes_eq text.now word.now }
{
    text.len() == word.len() && has_bytes(text, word)
}

// Without a call of the comparison of slices, which costs more than a word of the program does.
#[inline(always)]
fn has_bytes(text: &[u8], word: &[u8]) -> bool
    requires { length text.now ≡ length word.now }
    ensures { result ≡ bytes_eq text.now word.now }
{
    for (i, b) in word.iter().enumerate() {
        if text[i] != *b {
            return false;
        }
    }
    true
}

/// The word with these bytes. Case matters; None comes exactly for bytes that are no word.
#[tactic(auto, unfolding(crate::specs::Words::word_of))]
pub fn read_word(text: &[u8]) -> Option<Word>
    ensures { result ≡ word_of text.now }
{
    if is_word(text, b"roll") {
        Some(Word::Roll)
    } else if is_word(text, b"holiday") {
        Some(Word::Holiday)
    } else if is_word(text, b"feerow") {
        Some(Word::FeeRow)
    } else if is_word(text, b"index") {
        Some(Word::Index)
    } else if is_word(text, b"show") {
        Some(Word::Show)
    } else {
        match read_post_kind(text) {
            None => None,
            Some(kind) => Some(Word::Post(kind)),
        }
    }
}

#[tactic(auto, unfolding(crate::specs::Words::post_kind_of))]
fn read_post_kind(text: &[u8]) -> Option<PostKind>
    ensures { result ≡ post_kind_of text.now }
{
    if is_word(text, b"open") {
        Some(PostKind::Open)
    } else if is_word(text, b"openvar") {
        Some(PostKind::OpenVariable)
    } else if is_word(text, b"charge") {
        Some(PostKind::Charge)
    } else if is_word(text, b"credit") {
        Some(PostKind::Credit)
    } else if is_word(text, b"payment") {
        Some(PostKind::Payment)
    } else if is_word(text, b"return") {
        Some(PostKind::Return)
    } else if is_word(text, b"plan") {
        Some(PostKind::Plan)
    } else if is_word(text, b"notice") {
        Some(PostKind::Notice)
    } else if is_word(text, b"lower") {
        Some(PostKind::Lower)
    } else {
        read_follow_up(text)
    }
}

// Of the kinds that follow up on other posts.
#[tactic(auto, unfolding(crate::specs::Words::follow_up_of))]
fn read_follow_up(text: &[u8]) -> Option<PostKind>
    ensures { result ≡ follow_up_of text.now }
{
    if is_word(text, b"penalty") {
        Some(PostKind::Penalty)
    } else if is_word(text, b"review") {
        Some(PostKind::Review)
    } else if is_word(text, b"dispute") {
        Some(PostKind::Dispute)
    } else if is_word(text, b"ack") {
        Some(PostKind::Ack)
    } else if is_word(text, b"resolve") {
        Some(PostKind::Resolve)
    } else if is_word(text, b"askrefund") {
        Some(PostKind::AskRefund)
    } else if is_word(text, b"refund") {
        Some(PostKind::Refund)
    } else if is_word(text, b"amend") {
        Some(PostKind::Amend)
    } else if is_word(text, b"bill") {
        Some(PostKind::Bill)
    } else {
        None
    }
}
