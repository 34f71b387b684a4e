// How long a body is.
ghost use Rattle.std.specs.Prelude.{◌≡◌};
ghost use Rattle.card_wire.specs.Framing as spec;

use crate::head::Head;
use card_lines::{are_digits, digits_value};

/// The length of the body in bytes, 0 where the head has no Content-Length. None: it has a Transfer-Encoding, or
/// Content-Length twice, or one that isn't 1 to 9 digits.
#[tactic(auto, unfolding(crate::specs::Framing::body_length))]
pub fn body_length(head: &Head) -> Option<u64>
    ensures { result ≡ spec.body_length head.now.fields }
{
    if head.count_named(b"transfer-encoding") > 0 {
        return None;
    }
    match head.count_named(b"content-length") {
        0 => Some(0),
        1 => read_length(head.first_named(b"content-length")?),
        _ => None,
    }
}

#[tactic(auto, unfolding(crate::specs::Framing::length_of))]
fn read_length(text: &[u8]) -> Option<u64>
    ensures { result ≡ spec.length_of text.now }
{
    if !text.is_empty() && text.len() <= 9 && are_digits(text) {
        Some(digits_value(text))
    } else {
        None
    }
}
