// The outcome of a request over the ledger.
ghost use Rattle.std.specs.Prelude.{◌≡◌, ◌⊎◌, true};
ghost use Rattle.card_desk.specs.Kept.{Fits};
ghost use Rattle.card_events.specs.Dated.{is_dated};
ghost use Rattle.card_wire.specs.Bodies as said;
ghost use Rattle.card_http.specs.Outcomes.{Comes, IsFaultOf, IsLookedUp, IsPosted, IsRouted, asked, ledger, posted, told_asked};

use crate::asking::read_ask;
use crate::outcome::Outcome;
use crate::told_text;
use card_desk::{Desk, Fault, uncounted};
use card_events::{NoMemory, Request};
use card_ports::Keeper;
use card_wire::{Route, read_json_body};
use std::alloc::Global;

/// What becomes of a request of this route, whose body was read whole. A POST is carried out, and its row kept where it is newly
/// accepted. The keeper's rows continue the desk's state. Where the keeper failed or memory ran out, nothing was done.
pub fn answer_route<K: Keeper>(
    alloc: Global,
    desk: &mut Desk,
    keeper: &mut K,
    route: &Route,
    body: &[u8],
) -> Outcome
    requires fits { Fits (K.rows keeper.old) desk.old.state }
    ensures { let at = ledger K.rows K.faults in
        Comes (λ a. IsRouted desk.old.state route.now body.now a ⊎ IsFaultOf route.now a) (at desk.old.state keeper.old) (at desk.new.state keeper.new) result }
{
    match route {
        Route::Posts => post(alloc, desk, keeper, body),
        Route::Account(_) => look_up(alloc, desk, route),
        Route::Statement(_, _) => look_up(alloc, desk, route),
        Route::Cycle(_, _) => look_up(alloc, desk, route),
        Route::Entries(_) => look_up(alloc, desk, route),
        Route::Work => look_up(alloc, desk, route),
    }
}

// Carries out the request that a JSON body is.
fn post<K: Keeper>(alloc: Global, desk: &mut Desk, keeper: &mut K, body: &[u8]) -> Outcome
    requires fits { Fits (K.rows keeper.old) desk.old.state }
    ensures { let at = ledger K.rows K.faults in
        Comes (λ a. IsPosted desk.old.state body.now a ⊎ IsFaultOf Route.Posts a) (at desk.old.state keeper.old) (at desk.new.state keeper.new) result }
{
    match read_json_body(alloc, body) {
        Ok(request) => carry_out(alloc, desk, keeper, &request),
        Err(fault) => Outcome::unread(fault),
    }
}

// Carries out a request.
fn carry_out<K: Keeper>(alloc: Global, desk: &mut Desk, keeper: &mut K, wanted: &Request) -> Outcome
    requires dated { is_dated wanted.now ≡ true }
    requires fits { Fits (K.rows keeper.old) desk.old.state }
    ensures { let at = ledger K.rows K.faults in
        Comes (λ a. (a ≡ posted desk.old.state (said.request wanted.now)) ⊎ IsFaultOf Route.Posts a) (at desk.old.state keeper.old) (at desk.new.state keeper.new) result }
{
    match uncounted::apply(alloc, desk, keeper, wanted) {
        Ok(reply) => Outcome::Replied(reply),
        Err(Fault::Keeper) => Outcome::KeeperFailed,
        Err(Fault::Memory) => Outcome::MemoryWanted,
    }
}

// What a route asks, as text. The state stays.
fn look_up(alloc: Global, desk: &mut Desk, route: &Route) -> Outcome
    ensures state { desk.new.state ≡ desk.old.state }
    ensures told { IsLookedUp (told_asked desk.old.state (asked route.now)) result }
{
    match read_ask(route) {
        Some(ask) => match told_text(alloc, desk, &ask) {
            Ok(Some(text)) => Outcome::Told(text),
            Ok(None) => Outcome::Missing,
            Err(NoMemory) => Outcome::MemoryWanted,
        },
        None => Outcome::Missing,
    }
}
