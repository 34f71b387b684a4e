// Where the next byte of a head belongs.
ghost use Rattle.std.specs.Prelude.{◌≡◌, ◌∷◌, ◌++◌, [], List, ℕ, codes, ◌==◌};
ghost use Rattle.std.specs.List.{list_any};
ghost use Rattle.httparse.specs.Grammar.{is_token_byte, is_uri_byte, is_value_byte};
ghost use Rattle.card_wire.specs.Places.{IsAt};
ghost use Rattle.card_wire.specs.Places as spec;

/// Where the next byte of a head belongs, as far as that is followed.
#[derive(Clone, Copy)]
pub enum Place {
    /// Behind empty lines, or at the start.
    Blank,
    /// Behind the CR of an empty line before the method.
    BlankEnd,
    /// In the method.
    Method,
    /// In the target.
    Target,
    /// At the start of a header line.
    Line,
    /// In a header's name.
    Name,
    /// In its value.
    Value,
    /// It isn't followed.
    Elsewhere,
}

/// Where the byte behind this one belongs.
pub fn follow(place: Place, byte: u8) -> Place
    ensures { (got : List ℕ) → IsAt place got → IsAt result (got ++ byte ∷ []) }
{
    match place {
        Place::Blank => behind_blank(byte),
        Place::BlankEnd => behind_return(byte),
        Place::Method => in_method(byte),
        Place::Target => in_target(byte),
        Place::Line => in_line(byte),
        Place::Name => in_name(byte),
        Place::Value => in_value(byte),
        Place::Elsewhere => Place::Elsewhere,
    }
}

fn behind_blank(byte: u8) -> Place
    ensures { (got : List ℕ) → IsAt Place.Blank got → IsAt result (got ++ byte ∷ []) }
{
    if byte == b'\n' {
        Place::Blank
    } else if byte == b'\r' {
        Place::BlankEnd
    } else if is_token(byte) {
        Place::Method
    } else {
        Place::Elsewhere
    }
}

fn behind_return(byte: u8) -> Place
    ensures { (got : List ℕ) → IsAt Place.BlankEnd got → IsAt result (got ++ byte ∷ []) }
{
    if byte == b'\n' {
        Place::Blank
    } else {
        Place::Elsewhere
    }
}

fn in_method(byte: u8) -> Place
    ensures { (got : List ℕ) → IsAt Place.Method got → IsAt result (got ++ byte ∷ []) }
{
    if is_token(byte) {
        Place::Method
    } else if byte == b' ' {
        Place::Target
    } else {
        Place::Elsewhere
    }
}

fn in_target(byte: u8) -> Place
    ensures { (got : List ℕ) → IsAt Place.Target got → IsAt result (got ++ byte ∷ []) }
{
    if byte > b' ' && byte != 127 {
        Place::Target
    } else {
        Place::Elsewhere
    }
}

fn in_line(byte: u8) -> Place
    ensures { (got : List ℕ) → IsAt Place.Line got → IsAt result (got ++ byte ∷ []) }
{
    if is_token(byte) {
        Place::Name
    } else {
        Place::Elsewhere
    }
}

fn in_name(byte: u8) -> Place
    ensures { (got : List ℕ) → IsAt Place.Name got → IsAt result (got ++ byte ∷ []) }
{
    if is_token(byte) {
        Place::Name
    } else if byte == b':' {
        Place::Value
    } else {
        Place::Elsewhere
    }
}

fn in_value(byte: u8) -> Place
    ensures { (got : List ℕ) → IsAt Place.Value got → IsAt result (got ++ byte ∷ []) }
{
    if byte == b'\t' || (byte >= b' ' && byte != 127) {
        Place::Value
    } else {
        Place::Elsewhere
    }
}

#[tactic(auto, unfolding(httparse::specs::Grammar::is_token_byte))]
fn is_token(byte: u8) -> bool
    ensures { result ≡ is_token_byte byte }
{
    byte.is_ascii_alphanumeric() || is_mark(byte)
}

fn is_mark(byte: u8) -> bool
    ensures { result ≡ list_any (λ c. c == byte) (codes "!#$%&'*+-.^_`|~") }
{
    b"!#$%&'*+-.^_`|~".as_slice().iter().any(|c| *c == byte)
}

/// It is known where the next byte belongs.
pub fn is_followed(place: Place) -> bool
    ensures { result ≡ spec.is_followed place }
{
    match place {
        Place::Blank => true,
        Place::BlankEnd => true,
        Place::Method => true,
        Place::Target => true,
        Place::Line => true,
        Place::Name => true,
        Place::Value => true,
        Place::Elsewhere => false,
    }
}
