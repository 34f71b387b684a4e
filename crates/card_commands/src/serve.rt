// A server of the ledger.
ghost use Rattle.std.specs.Prelude.{◌≡◌, OnOk, IfErr};
ghost use Rattle.card_desk.specs.Kept.{Fits};
ghost use Rattle.card_commands.specs.Attended.{AttendedOne, FellAttending, HaveCome, HavePassed, Serves, line_of, parties, status_line};

use crate::ended::{Ended, ended_by_sink};
use card_desk::Desk;
use card_events::NoMemory;
use card_http::{Served, Status, serve_one};
use card_ports::{Door, Failed, Keeper, Sink, write_all};
use card_wire::Routes;
use std::alloc::Global;

fn status_line(status: Status) -> &'static str
    ensures { result.now ≡ status_line status }
{
    match status {
        Status::Done => "200\n",
        Status::BadRequest => "400\n",
        Status::NotFound => "404\n",
        Status::BadMethod => "405\n",
        Status::Conflict => "409\n",
        Status::TooLarge => "413\n",
        Status::NoRequest => "422\n",
        Status::LongHead => "431\n",
        Status::Unavailable => "503\n",
        Status::NoStorage => "507\n",
    }
}

// The line of a connection. It doesn't allocate.
#[tactic(auto, unfolding(crate::specs::Attended::line_of))]
fn line_of(served: Served) -> &'static str
    ensures { result.now ≡ line_of served }
{
    match served {
        Served::Answered(status) => status_line(status),
        Served::Cut => "cut\n",
        Served::Memory => "memory\n",
    }
}

// The next connection: it is accepted, served and closed, and then its line is written.
fn attend<O: Sink, K: Keeper, D: Door>(
    desk: &mut Desk,
    alloc: Global,
    routes: &Routes,
    output: &mut O,
    keeper: &mut K,
    door: &mut D,
) -> Result<(), Ended>
    requires fits { Fits (K.rows keeper.old) desk.old.state }
    ensures ok { let at = parties O.taken O.faults K.rows K.faults D.visits D.faults in
        OnOk result (AttendedOne (at output.old keeper.old door.old) (at output.new keeper.new door.new) desk.old.state desk.new.state) }
    ensures err { let at = parties O.taken O.faults K.rows K.faults D.visits D.faults in
        IfErr result (FellAttending (at output.old keeper.old door.old) (at output.new keeper.new door.new) desk.old.state desk.new.state) }
{
    let mut link = match door.accept() {
        Ok(link) => link,
        Err(Failed) => return Err(Ended::Door),
    };
    let served = serve_one(alloc, routes, desk, keeper, &mut link);
    // A fixed text, written behind the close: a sink that fails leaves no connection open.
    let line = line_of(served).as_bytes();
    door.close(link);
    match write_all(output, line) {
        Ok(()) => Ok(()),
        Err(fault) => Err(ended_by_sink(fault)),
    }
}

// Attends to so many connections, one after the other.
fn attend_all<O: Sink, K: Keeper, D: Door>(
    desk: &mut Desk,
    alloc: Global,
    routes: &Routes,
    count: u32,
    output: &mut O,
    keeper: &mut K,
    door: &mut D,
) -> Ended
    requires fits { Fits (K.rows keeper.old) desk.old.state }
    ensures { let at = parties O.taken O.faults K.rows K.faults D.visits D.faults in
        Serves (HavePassed (D.visits door.old) (D.visits door.new)) count desk.old.state (at output.old keeper.old door.old) (at output.new keeper.new door.new) result }
{
    let mut served = 0;
    while served < count {
        match attend(desk, alloc, routes, output, keeper, door) {
            Ok(()) => {}
            Err(ended) => return ended,
        }
        served += 1;
    }
    Ended::Done
}

// Listens on the port, and attends to so many connections, with the routes made.
fn listen_and_attend<O: Sink, K: Keeper, D: Door>(
    desk: &mut Desk,
    alloc: Global,
    routes: &Routes,
    port: u16,
    count: u32,
    output: &mut O,
    keeper: &mut K,
    door: &mut D,
) -> Ended
    requires fits { Fits (K.rows keeper.old) desk.old.state }
    ensures { let at = parties O.taken O.faults K.rows K.faults D.visits D.faults in
        Serves (HaveCome port (D.visits door.old) (D.visits door.new)) count desk.old.state (at output.old keeper.old door.old) (at output.new keeper.new door.new) result }
{
    match door.listen(port) {
        Ok(()) => attend_all(desk, alloc, routes, count, output, keeper, door),
        Err(Failed) => Ended::Door,
    }
}

/// Listens on the port, and attends to so many connections, one after the other. Each is accepted, served and closed before
/// its line is written. A connection that fails, a keeper that fails and memory that runs out for an answer end that connection alone.
///
/// `Door`: the door failed to listen or to accept. `Sink`: the sink failed; `Memory`: it wanted memory, or the routes did before
/// the door listened. Of the last line a front was written.
pub fn serve<O: Sink, K: Keeper, D: Door>(
    desk: &mut Desk,
    alloc: Global,
    port: u16,
    count: u32,
    output: &mut O,
    keeper: &mut K,
    door: &mut D,
) -> Ended
    requires fits { Fits (K.rows keeper.old) desk.old.state }
    ensures { let at = parties O.taken O.faults K.rows K.faults D.visits D.faults in
        Serves (HaveCome port (D.visits door.old) (D.visits door.new)) count desk.old.state (at output.old keeper.old door.old) (at output.new keeper.new door.new) result }
{
    // Before it listens: later on, memory is wanted only once a request was read whole.
    match Routes::new(alloc) {
        Ok(routes) => { listen_and_attend(desk, alloc, &routes, port, count, output, keeper, door) }
        Err(NoMemory) => Ended::Memory,
    }
}
