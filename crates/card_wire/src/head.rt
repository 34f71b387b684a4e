// The parts of a whole head.
ghost use Rattle.std.specs.Prelude.{◌≡◌, map};
ghost use Rattle.std.specs.Char.{to_ascii_lowercase};
ghost use Rattle.std.specs.Str.{bytes_eq};

use httparse::spans::{HeaderSpan, RequestSpans};
use std::marker::Model;
use std::str::from_utf8;

/// A whole head, in the bytes that were read of it. Clauses see its method, its target, and its header lines by name and
/// value.
#[derive(Drop)]
pub struct Head<'a> {
    bytes: &'a [u8],
    fields: &'a [HeaderSpan],
    spans: RequestSpans,
}

impl<'a> Model for Head<'a> {
    ghost use Rattle.card_wire.specs.Heads.{HeadParts, parts_at};
    ghost use Rattle.httparse.specs.Spans.{IsRequestWithin, span_bytes};
    ghost use Rattle.std.specs.Prelude.{IsUtf8};

    ghost Value = { HeadParts };

    ghost view = { λ h. parts_at h.bytes.now h.fields.now h.spans };

    ghost invariant = { λ h. IsRequestWithin h.bytes.now h.fields.now h.spans × IsUtf8 (span_bytes h.bytes.now h.spans.path) };
}

impl<'a> Head<'a> {
    ghost use Rattle.std.specs.Prelude.{◌≡◌, length, map, slice_get, option_map, IsUtf8};
    ghost use Rattle.card_wire.specs.Framing.{values_named};
    ghost use Rattle.card_wire.specs.Heads.{parts_at};
    ghost use Rattle.httparse.specs.Spans.{IsRequestWithin, span_bytes};

    /// The head whose parts lie where the spans say.
    pub fn of(bytes: &'a [u8], fields: &'a [HeaderSpan], spans: RequestSpans) -> Head<'a>
        requires within { IsRequestWithin bytes.now fields.now spans }
        requires text { IsUtf8 (span_bytes bytes.now spans.path) }
        ensures { result ≡ parts_at bytes.now fields.now spans }
    {
        Head {
            bytes,
            fields,
            spans,
        }
    }

    /// The method.
    pub fn method(&self) -> &[u8]
        ensures { result.now ≡ self.now.method }
    {
        self.spans.method.of(self.bytes)
    }

    /// The target.
    pub fn target(&self) -> &str
        ensures { result.now ≡ self.now.target }
    {
        match from_utf8(self.spans.path.of(self.bytes)) {
            Ok(target) => target,
            Err(_) => unreachable!(),
        }
    }

    /// How many header lines have this name. Case doesn't matter.
    pub fn count_named(&self, name: &[u8]) -> usize
        ensures { result ≡ length (values_named name.now self.now.fields) }
    {
        let mut count = 0;
        for field in &self.fields[..self.spans.headers] {
            if is_same_name(field.name.of(self.bytes), name) {
                count += 1;
            }
        }
        count
    }

    /// The value of the first header line that has this name. Case doesn't matter.
    pub fn first_named(&self, name: &[u8]) -> Option<&[u8]>
        ensures { option_map (λ v. v.now) result ≡ slice_get (values_named name.now self.now.fields) 0 }
    {
        for field in &self.fields[..self.spans.headers] {
            if is_same_name(field.name.of(self.bytes), name) {
                return Some(field.value.of(self.bytes));
            }
        }
        None
    }
}

// The same name, whatever the case of its letters.
fn is_same_name(name: &[u8], other: &[u8]) -> bool
    ensures { result ≡ bytes_eq (map to_ascii_lowercase name.now) (map to_ascii_lowercase other.now) }
{
    name.eq_ignore_ascii_case(other)
}
