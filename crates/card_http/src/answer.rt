// The bytes of answers.
ghost use Rattle.std.specs.Prelude.{◌≡◌, IfOk};
ghost use Rattle.std.specs.String.{string_bytes};
ghost use Rattle.card_http.specs.Answers as spec;

use crate::status::Status;
use card_events::{NoMemory, Reply};
use card_text::none_line;
use card_wire::{Early, ok_text, refused_text};
use std::alloc::Global;

/// The bytes of an answer: its status with its phrase, the type and length of the body, that the connection is closed, and the
/// body.
#[tactic(auto, using(card_lines::proofs::TextRules::texts), unfolding(crate::specs::Answers::answer_text))]
pub fn answer_text(
    alloc: Global,
    status: Status,
    json: bool,
    body: &str,
) -> Result<String, NoMemory>
    ensures { IfOk result (λ text. string_bytes text ≡ spec.answer_text status json body.now) }
{
    let line = status_line(alloc, status)?;
    let kind = type_line(alloc, json)?;
    let length = length_line(alloc, body.len())?;
    let closing = closing_lines();
    Ok(format!(in alloc; "{line}{kind}{length}{closing}{body}")?)
}

// Version, status and phrase.
#[tactic(auto, using(card_lines::proofs::TextRules::texts), unfolding(crate::specs::Answers::status_line))]
fn status_line(alloc: Global, status: Status) -> Result<String, NoMemory>
    ensures { IfOk result (λ text. string_bytes text ≡ spec.status_line status) }
{
    let code = status.code();
    let phrase = status.phrase();
    Ok(format!(in alloc; "HTTP/1.1 {code} {phrase}\r\n")?)
}

// The type of the body.
#[tactic(auto, using(card_lines::proofs::TextRules::texts), unfolding(crate::specs::Answers::type_line))]
fn type_line(alloc: Global, json: bool) -> Result<String, NoMemory>
    ensures { IfOk result (λ text. string_bytes text ≡ spec.type_line json) }
{
    let kind = content_type(json);
    Ok(format!(in alloc; "Content-Type: {kind}\r\n")?)
}

// Its length.
#[tactic(auto, using(card_lines::proofs::TextRules::texts), unfolding(crate::specs::Answers::length_line))]
fn length_line(alloc: Global, length: usize) -> Result<String, NoMemory>
    ensures { IfOk result (λ text. string_bytes text ≡ spec.length_line length) }
{
    Ok(format!(in alloc; "Content-Length: {length}\r\n")?)
}

// The connection is closed; and the empty line.
#[tactic(auto, unfolding(crate::specs::Answers::closing_lines))]
fn closing_lines() -> &'static str
    ensures { result.now ≡ spec.closing_lines }
{
    "Connection: close\r\n\r\n"
}

// The type of a body.
#[tactic(auto, unfolding(crate::specs::Answers::content_type))]
fn content_type(json: bool) -> &'static str
    ensures { result.now ≡ spec.content_type json }
{
    if json {
        "application/json"
    } else {
        "text/plain; charset=utf-8"
    }
}

/// The body of an answer that is given without the request's body.
pub fn early_text(early: Early) -> &'static str
    ensures { result.now ≡ spec.early_text early }
{
    match early {
        Early::BadRequest => "bad request\n",
        Early::NotFound => none_line(),
        Early::BadMethod => "bad method\n",
        Early::TooLarge => "body too large\n",
    }
}

/// The body of the answer to a reply: the number of the post, 0 for a shared request, or the refusal.
pub fn reply_json(alloc: Global, reply: &Reply) -> Result<String, NoMemory>
    ensures { IfOk result (λ text. string_bytes text ≡ spec.reply_json reply.now) }
{
    match reply {
        Reply::Done => ok_text(alloc, 0),
        Reply::Accepted(number) => ok_text(alloc, *number),
        Reply::Refused(refusal) => refused_text(alloc, refusal),
    }
}
