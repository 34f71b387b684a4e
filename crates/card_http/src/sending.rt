// Answers to a connection.
ghost use Rattle.card_ports.specs.Visits.{wire};
ghost use Rattle.card_http.specs.Answers as spec;
ghost use Rattle.card_http.specs.Exchanges.{Sends};
ghost use Rattle.card_http.specs.Outcomes.{outcome_body, outcome_status};

use crate::answer::{answer_text, early_text, reply_json};
use crate::outcome::Outcome;
use crate::served::Served;
use crate::status::Status;
use card_events::NoMemory;
use card_ports::{Link, SinkFault};
use card_wire::{Early, member_text, send};
use std::alloc::Global;

const KEEPER_FAILED: &str = "{\"fault\":\"keeper\"}";

const MEMORY_WANTED: &str = "{\"fault\":\"memory\"}";

/// Writes an answer: all of it, or a front where the connection failed or memory ran out.
pub fn send_answer<C: Link>(
    alloc: Global,
    link: &mut C,
    status: Status,
    json: bool,
    body: &str,
) -> Served
    ensures { let at = wire C.Source.left C.Sink.taken C.Source.faults in
        Sends (at link.old) (at link.new) (spec.answer_text status json body.now) status result }
{
    let text = match answer_text(alloc, status, json, body) {
        Ok(text) => text,
        Err(NoMemory) => return Served::Memory,
    };
    match send(link, text.as_bytes()) {
        Ok(()) => Served::Answered(status),
        Err(SinkFault::Failed) => Served::Cut,
        Err(SinkFault::Memory) => Served::Memory,
    }
}

/// Writes the answer to a request.
#[tactic(auto, unfolding(crate::specs::Outcomes::outcome_body, crate::specs::Outcomes::keeper_text, crate::specs::Outcomes::memory_text))]
pub fn send_outcome<C: Link>(alloc: Global, link: &mut C, json: bool, outcome: &Outcome) -> Served
    ensures { let at = wire C.Source.left C.Sink.taken C.Source.faults in
        Sends (at link.old) (at link.new) (spec.answer_text (outcome_status outcome.now) json (outcome_body outcome.now)) (outcome_status outcome.now) result }
{
    let status = outcome.status();
    match outcome {
        Outcome::Replied(reply) => match reply_json(alloc, reply) {
            Ok(body) => send_answer(alloc, link, status, json, body.as_str()),
            Err(NoMemory) => Served::Memory,
        },
        Outcome::NoRequest(name) => match member_text(alloc, name.as_str()) {
            Ok(body) => send_answer(alloc, link, status, json, body.as_str()),
            Err(NoMemory) => Served::Memory,
        },
        Outcome::Told(text) => send_answer(alloc, link, status, json, text.as_str()),
        Outcome::NoJson => send_answer(alloc, link, status, json, early_text(Early::BadRequest)),
        Outcome::Missing => send_answer(alloc, link, status, json, early_text(Early::NotFound)),
        Outcome::KeeperFailed => send_answer(alloc, link, status, json, KEEPER_FAILED),
        Outcome::MemoryWanted => send_answer(alloc, link, status, json, MEMORY_WANTED),
    }
}
