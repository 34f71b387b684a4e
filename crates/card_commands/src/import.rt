// A run over the records of an input.
ghost use Rattle.std.specs.Prelude.{◌≡◌, ◌≤◌, ◌<◌, false, IfOk, OnOk, IfErr};
ghost use Rattle.card_desk.specs.Kept.{Fits};
ghost use Rattle.card_text.specs.Import.{items_of_bytes};
ghost use Rattle.card_commands.specs.Imported.{source_side, FellAmong, FellInPiece, FellTaking, HandledAll, TookAllLeft, TookMore};
ghost use Rattle.card_commands.specs.Input.{records};
ghost use Rattle.card_commands.specs.Outside.{outside, Runs, HasCause};
ghost use Rattle.card_commands.specs.Written.{sides};

use crate::ended::{Ended, ended_by, ended_of};
use crate::handle::Run;
use crate::run::PIECE;
use crate::stop::Stop;
use card_events::NoMemory;
use card_ports::{Failed, Keeper, Sink, Source};
use card_text::Records;
use std::alloc::Global;

const LIMIT: usize = 1 << 30;

// Reads a piece, and puts it behind the bytes. 0 is the end.
fn read_more<I: Source>(bytes: &mut Vec<u8>, room: usize, input: &mut I) -> Result<usize, Stop>
    requires some { 0 < room }
    requires room { room ≤ 4096 }
    ensures within { IfOk result (λ n. n ≤ room) }
    ensures ok { let at = source_side I.left I.faults in IfOk result (TookMore (at input.old) (at input.new) bytes.old.items bytes.new.items) }
    ensures err { let at = source_side I.left I.faults in IfErr result (FellInPiece (at input.old) (at input.new)) }
{
    let mut chunk = [0; PIECE];
    let piece = &mut chunk[..room];
    let n = match input.read(piece) {
        Ok(n) => n,
        Err(Failed) => return Err(Stop::Source),
    };
    match bytes.extend_from_slice(&piece[..n]) {
        Ok(()) => Ok(n),
        Err(_) => Err(Stop::Memory),
    }
}

// Reads the input to its end.
fn read_all<I: Source>(alloc: Global, input: &mut I) -> Result<Vec<u8>, Stop>
    ensures ok { let at = source_side I.left I.faults in IfOk result (λ bytes. TookAllLeft (at input.old) (at input.new) bytes.items) }
    ensures err { let at = source_side I.left I.faults in IfErr result (FellTaking (at input.old) (at input.new)) }
{
    let mut bytes = Vec::new(alloc);
    while bytes.len() < LIMIT {
        let room = (LIMIT - bytes.len()).min(PIECE);
        let n = match read_more(&mut bytes, room, input) {
            Ok(n) => n,
            Err(stop) => return Err(stop),
        };
        if n == 0 {
            return Ok(bytes);
        }
    }
    Err(Stop::Endless)
}

// Handles the item of each record, in order.
fn handle_records<O: Sink, K: Keeper>(
    run: &mut Run,
    alloc: Global,
    bytes: &[u8],
    output: &mut O,
    keeper: &mut K,
) -> Result<(), Stop>
    requires fits { Fits (K.rows keeper.old) run.old.ledger }
    ensures ok { let at = sides O.taken O.faults K.rows K.faults in
        OnOk result (HandledAll (at output.old keeper.old) (at output.new keeper.new) run.old (items_of_bytes bytes.now) run.new) }
    ensures err { let at = sides O.taken O.faults K.rows K.faults in
        IfErr result (FellAmong (at output.old keeper.old) (at output.new keeper.new) run.old.ledger (items_of_bytes bytes.now)) }
{
    let mut records = match Records::of(alloc, bytes) {
        Ok(records) => records,
        Err(NoMemory) => return Err(Stop::Memory),
    };
    loop {
        let item = match records.next_item(alloc) {
            Ok(Some(item)) => item,
            Ok(None) => return Ok(()),
            Err(NoMemory) => return Err(Stop::Memory),
        };
        match run.handle(alloc, &item, output, keeper) {
            Ok(()) => {}
            Err(stop) => return Err(stop),
        }
    }
}

/// Reads the whole input as CSV, and only then handles the item of each record, and writes the reply to it.
#[tactic(auto, unfolding(crate::specs::Outside::HasCause))]
pub fn import<I: Source, O: Sink, K: Keeper>(
    run: &mut Run,
    alloc: Global,
    input: &mut I,
    output: &mut O,
    keeper: &mut K,
) -> Ended
    requires new { run.old.refused ≡ false }
    requires fits { Fits (K.rows keeper.old) run.old.ledger }
    ensures ran { let at = outside I.left I.faults O.taken O.faults K.rows K.faults in
        Runs (at input.old output.old keeper.old) (at input.new output.new keeper.new) records run.old.ledger result }
    ensures cause { let at = outside I.left I.faults O.taken O.faults K.rows K.faults in
        HasCause (at input.old output.old keeper.old) (at input.new output.new keeper.new) result }
{
    // All is read first: a quoted field spans line ends, so no front shows which records are whole.
    let bytes = match read_all(alloc, input) {
        Ok(bytes) => bytes,
        Err(stop) => return ended_by(stop),
    };
    match handle_records(run, alloc, &bytes, output, keeper) {
        Ok(()) => ended_of(Ok(run.is_refused())),
        Err(stop) => ended_by(stop),
    }
}
