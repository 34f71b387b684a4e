// The head of a request, byte by byte.
ghost use Rattle.std.specs.Prelude.{◌≡◌, [], ◌∷◌, ◌++◌, List, ℕ, IfOk, IfErr};
ghost use Rattle.card_ports.specs.Visits.{wire};
ghost use Rattle.card_wire.specs.Heads.{Before, EndsHead, IsPendingBefore, Parses, Pending};
ghost use Rattle.card_wire.specs.Links.{Read, Stopped};
ghost use Rattle.card_wire.specs.Places.{EndsLine, IsAt, IsSoFar};
ghost use Rattle.httparse.specs.declared.spans.HeaderSpan.{HeaderSpan};

use crate::byte::read_byte;
use crate::place::{Place, follow, is_followed};
use crate::stop::Stop;
use arrayvec::ArrayVec;
use card_ports::Link;
use httparse::Status;
use httparse::spans::{HeaderSpan, RequestSpans, parse_request};

/// At most so many bytes of a head are read.
pub const HEAD_LIMIT: usize = 8192;

/// A head has at most so many header lines.
pub const FIELD_LIMIT: usize = 64;

/// How a head ends.
#[derive(Clone, Copy)]
pub enum HeadEnd {
    /// It is whole, and these are its parts.
    Whole(RequestSpans),
    /// No bytes can follow that make a head with at most 64 header lines.
    Bad,
    /// 8,192 bytes were read, and it isn't whole.
    Long,
}

/// How far a head is.
enum Progress {
    /// It ended so.
    Ended(HeadEnd),
    /// More bytes are wanted, and the next one belongs there.
    Wanted(Place),
}

/// Reads a head (RFC 9112), and no byte behind it. A head that can't become one is refused at the first byte that shows it.
pub fn read_head<C: Link>(
    link: &mut C,
    got: &mut ArrayVec<u8, HEAD_LIMIT>,
    fields: &mut [HeaderSpan; FIELD_LIMIT],
) -> Result<HeadEnd, Stop>
    requires empty { got.old.items ≡ [] }
    ensures before { Before got.new.items }
    ensures ok { IfOk result (EndsHead got.new.items fields.new) }
    ensures read { let at = wire C.Source.left C.Sink.taken C.Source.faults in IfOk result (λ _. Read (at link.old) (at link.new) got.new.items) }
    ensures err { let at = wire C.Source.left C.Sink.taken C.Source.faults in IfErr result (Stopped (at link.old) (at link.new) got.new.items) }
    ensures pending { IfErr result (λ _. Pending got.new.items) }
{
    let mut place = Place::Blank;
    loop {
        let next = match examine(place, got, fields) {
            Progress::Ended(end) => return Ok(end),
            Progress::Wanted(next) => next,
        };
        if got.is_full() {
            return Ok(HeadEnd::Long);
        }
        let byte = read_byte(link)?;
        got.push(byte);
        place = follow(next, byte);
    }
}

// How far a head is that these bytes begin. Where their end is followed, no head ends and nothing is wrong; else they are parsed.
fn examine(
    place: Place,
    got: &mut ArrayVec<u8, HEAD_LIMIT>,
    fields: &mut [HeaderSpan; FIELD_LIMIT],
) -> Progress
    requires before { IsPendingBefore got.old.items }
    requires at { IsAt place got.old.items }
    ensures kept { got.new.items ≡ got.old.items }
    ensures far { IsSoFar got.new.items fields.new result }
{
    // Else each byte of a method, target, name or value would have the whole head parsed again.
    if is_followed(place) {
        return Progress::Wanted(place);
    }
    match parse(got.as_slice(), fields) {
        Some(end) => Progress::Ended(end),
        None => Progress::Wanted(behind_line(got, fields)),
    }
}

// At the start of a header line, where a line ended and an empty one behind it would end the head; else it isn't followed.
fn behind_line(got: &mut ArrayVec<u8, HEAD_LIMIT>, fields: &mut [HeaderSpan; FIELD_LIMIT]) -> Place
    requires pending { Pending got.old.items }
    requires before { IsPendingBefore got.old.items }
    ensures at { IsAt result got.new.items }
    ensures kept { got.new.items ≡ got.old.items }
{
    if got.is_full() || !got.as_slice().ends_with(b"\n".as_slice()) {
        return Place::Elsewhere;
    }
    got.push(b'\n');
    let end = parse(got.as_slice(), fields);
    got.pop();
    line_or_elsewhere(end)
}

// Where bytes end that are pending and end with LF, by what a parse of them and one more LF gives.
fn line_or_elsewhere(end: Option<HeadEnd>) -> Place
    ensures { (got : List ℕ) (spans : List HeaderSpan) → EndsLine got spans → Parses (got ++ 10 ∷ []) spans end → IsAt result got }
{
    match end {
        Some(HeadEnd::Whole(_)) => Place::Line,
        _ => Place::Elsewhere,
    }
}

// How the head ends that these bytes are; None: more bytes are wanted.
fn parse(got: &[u8], fields: &mut [HeaderSpan; FIELD_LIMIT]) -> Option<HeadEnd>
    ensures { Parses got.now fields.new result }
{
    match parse_request(got, fields) {
        Ok(Status::Complete(spans)) => Some(HeadEnd::Whole(spans)),
        Ok(Status::Partial) => None,
        Err(_) => Some(HeadEnd::Bad),
    }
}
