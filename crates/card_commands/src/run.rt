// A run over an input.
ghost use Rattle.std.specs.Prelude.{◌≡◌, ◌≤◌, ◌<◌, ◌^◌, IfOk, IfErr};
ghost use Rattle.std.specs.Io.KnownBytes.{IsAtEnd};
ghost use Rattle.card_desk.specs.Kept.{Fits};
ghost use Rattle.card_commands.specs.Feed.{new_run};
ghost use Rattle.card_commands.specs.Input.{lines};
ghost use Rattle.card_commands.specs.Outside.{outside, RunsTo, HasCause};
ghost use Rattle.card_commands.specs.Ran.{Ran, FellReading};

use crate::ended::{Ended, ended_by, ended_of};
use crate::progress::Progress;
use crate::stop::Stop;
use card_ports::{Failed, Keeper, Sink, Source};
use std::alloc::Global;

/// How many bytes are read at once, at most.
pub const PIECE: usize = 4096;

const LIMIT: u64 = 1 << 36;

// Reads a piece, and handles the lines that end in it. 0 is the end.
fn read_piece<I: Source, O: Sink, K: Keeper>(
    progress: &mut Progress,
    alloc: Global,
    room: usize,
    input: &mut I,
    output: &mut O,
    keeper: &mut K,
) -> Result<usize, Stop>
    requires some { 0 < room }
    requires room { room ≤ 4096 }
    requires number { progress.old.number < 2 ^ 62 }
    requires fits { Fits (K.rows keeper.old) progress.old.ledger }
    ensures within { IfOk result (λ n. n ≤ room) }
    ensures ok { let at = outside I.left I.faults O.taken O.faults K.rows K.faults in
        IfOk result (Ran (at input.old output.old keeper.old) (at input.new output.new keeper.new) progress.old progress.new) }
    ensures end { IfOk result (λ n. n ≡ 0 → IsAtEnd (I.left input.new)) }
    ensures err { let at = outside I.left I.faults O.taken O.faults K.rows K.faults in
        IfErr result (FellReading (at input.old output.old keeper.old) (at input.new output.new keeper.new) progress.old) }
{
    let mut chunk = [0; PIECE];
    let piece = &mut chunk[..room];
    let n = match input.read(piece) {
        Ok(n) => n,
        Err(Failed) => return Err(Stop::Source),
    };
    match progress.feed_bytes(alloc, &piece[..n], output, keeper) {
        Ok(()) => Ok(n),
        Err(stop) => Err(stop),
    }
}

/// Reads lines, handles each, and writes the reply to it.
#[tactic(auto, unfolding(crate::specs::Outside::HasCause))]
pub fn run<I: Source, O: Sink, K: Keeper>(
    progress: &mut Progress,
    alloc: Global,
    input: &mut I,
    output: &mut O,
    keeper: &mut K,
) -> Ended
    requires new { progress.old ≡ new_run progress.old.ledger }
    requires fits { Fits (K.rows keeper.old) progress.old.ledger }
    ensures ran { let at = outside I.left I.faults O.taken O.faults K.rows K.faults in
        RunsTo (at input.old output.old keeper.old) (at input.new output.new keeper.new) lines progress.old.ledger progress.new.ledger result }
    ensures cause { let at = outside I.left I.faults O.taken O.faults K.rows K.faults in
        HasCause (at input.old output.old keeper.old) (at input.new output.new keeper.new) result }
{
    let mut total = 0u64;
    while total < LIMIT {
        let room = (LIMIT - total).min(PIECE as u64) as usize;
        let n = match read_piece(progress, alloc, room, input, output, keeper) {
            Ok(n) => n,
            Err(stop) => return ended_by(stop),
        };
        if n == 0 {
            return ended_of(progress.finish(alloc, output, keeper));
        }
        total += n as u64;
    }
    Ended::Endless
}
