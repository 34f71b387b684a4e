// One connection.
ghost use Rattle.std.specs.Prelude.{◌≡◌, ◌≤◌, Ok};
ghost use Rattle.card_desk.specs.Kept.{Fits};
ghost use Rattle.card_wire.specs.Wants as wants;
ghost use Rattle.card_http.specs.Exchanges.{Serves, ServesHead, moment};
ghost use Rattle.card_http.specs.Heard.{is_json_head};

use crate::answer::early_text;
use crate::answering::answer_route;
use crate::sending::{send_answer, send_outcome};
use crate::served::Served;
use crate::status::Status;
use arrayvec::ArrayVec;
use card_desk::Desk;
use card_ports::{Keeper, Link};
use card_wire::{
    BODY_LIMIT, Early, FIELD_LIMIT, HEAD_LIMIT, Head, HeadEnd, Routes, Wanted, judge, path_of,
    read_body, read_head,
};
use httparse::spans::EMPTY_HEADER_SPAN;
use std::alloc::Global;

const LONG_HEAD: &str = "head too large\n";

/// Reads one request (RFC 9112) from a connection, carries it out, and writes the answer to it. A head has at most 8,192 bytes
/// and 64 header lines, a body at most 16,384 bytes; no byte behind the body is read. A request is carried out only once it was
/// read whole, and its row is kept before its answer is written. The keeper's rows continue the desk's state.
///
/// - `Answered`: the whole answer was taken. Of status 503 the keeper failed, of 507 memory ran out; nothing was done then.
/// - `Cut`: the input ended inside the request, or the connection failed. Where the request was read whole, what its answer says
///   was done, and a front of that was taken; else nothing was done.
/// - `Memory`: memory ran out for the answer. What the answer says was done, and a front of it was taken.
#[tactic(auto, unfolding(crate::specs::Outcomes::long_text))]
pub fn serve_one<K: Keeper, C: Link>(
    alloc: Global,
    routes: &Routes,
    desk: &mut Desk,
    keeper: &mut K,
    link: &mut C,
) -> Served
    requires fits { Fits (K.rows keeper.old) desk.old.state }
    ensures { let at = moment C.Source.left C.Sink.taken C.Source.faults K.rows K.faults in
        Serves (at link.old desk.old.state keeper.old) (at link.new desk.new.state keeper.new) result }
{
    let mut got: ArrayVec<u8, HEAD_LIMIT> = ArrayVec::new();
    let mut fields = [EMPTY_HEADER_SPAN; FIELD_LIMIT];
    let end = match read_head(link, &mut got, &mut fields) {
        Ok(end) => end,
        Err(_) => return Served::Cut,
    };
    match end {
        HeadEnd::Whole(spans) => {
            let head = Head::of(got.as_slice(), &fields, spans);
            serve_head(alloc, routes, desk, keeper, link, &head)
        }
        HeadEnd::Bad => {
            let text = early_text(Early::BadRequest);
            send_answer(alloc, link, Status::BadRequest, false, text)
        }
        HeadEnd::Long => send_answer(alloc, link, Status::LongHead, false, LONG_HEAD),
    }
}

// The answer behind a head: at once where it shows that there is none to wait for, and else when its body was read.
fn serve_head<K: Keeper, C: Link>(
    alloc: Global,
    routes: &Routes,
    desk: &mut Desk,
    keeper: &mut K,
    link: &mut C,
    head: &Head,
) -> Served
    requires fits { Fits (K.rows keeper.old) desk.old.state }
    ensures { let at = moment C.Source.left C.Sink.taken C.Source.faults K.rows K.faults in
        ServesHead head.now (at link.old desk.old.state keeper.old) (at link.new desk.new.state keeper.new) result }
{
    match judge(routes, head) {
        Ok(wanted) => serve_body(alloc, desk, keeper, link, head, wanted),
        Err(early) => {
            let text = early_text(early);
            send_answer(alloc, link, Status::of_early(early), is_json(head), text)
        }
    }
}

// Reads the body that a head wants, and answers.
fn serve_body<K: Keeper, C: Link>(
    alloc: Global,
    desk: &mut Desk,
    keeper: &mut K,
    link: &mut C,
    head: &Head,
    wanted: Wanted<'_>,
) -> Served
    requires wanted { wants.wanted head.now ≡ Ok wanted }
    requires few { wanted.length ≤ wants.body_limit }
    requires fits { Fits (K.rows keeper.old) desk.old.state }
    ensures { let at = moment C.Source.left C.Sink.taken C.Source.faults K.rows K.faults in
        ServesHead head.now (at link.old desk.old.state keeper.old) (at link.new desk.new.state keeper.new) result }
{
    let mut body: ArrayVec<u8, BODY_LIMIT> = ArrayVec::new();
    match read_body(link, &mut body, wanted.length as usize) {
        Ok(()) => {}
        Err(_) => return Served::Cut,
    }
    let outcome = answer_route(alloc, desk, keeper, &wanted.route, body.as_slice());
    send_outcome(alloc, link, is_json(head), &outcome)
}

// A head that posts, in JSON.
#[tactic(auto, unfolding(crate::specs::Heard::is_json_head))]
fn is_json(head: &Head) -> bool
    ensures { result ≡ is_json_head head.now }
{
    head.method() == b"POST".as_slice() && path_of(head.target()) == "/posts"
}
