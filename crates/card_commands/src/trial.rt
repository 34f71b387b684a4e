// A run over lines with a trial balance behind it.
ghost use Rattle.std.specs.Prelude.{◌≡◌, OnOk, IfErr};
ghost use Rattle.card_desk.specs.Kept.{Fits};
ghost use Rattle.card_trial.specs.Trial.{trial_text};
ghost use Rattle.card_commands.specs.Feed.{new_run};
ghost use Rattle.card_commands.specs.Outside.{outside, HasCause, Tries};
ghost use Rattle.card_commands.specs.Trials as spec;
ghost use Rattle.card_ports.specs.Written.{sink_side, TookAll, TookPart};

use crate::ended::{Ended, ended_by_sink};
use crate::progress::Progress;
use crate::run::run;
use card_desk::Desk;
use card_events::{Day, NoMemory};
use card_ports::{Keeper, Sink, SinkFault, Source, write_all};
use card_trial::trial_text;
use std::alloc::Global;

// Whether the input was read to its end, and all of its lines were handled.
fn is_at_end(ended: Ended) -> bool
    ensures { result ≡ spec.is_at_end ended }
{
    matches!(ended, Ended::Done | Ended::Refused)
}

// Writes the trial balance of a ledger.
fn balance<O: Sink>(
    alloc: Global,
    desk: Desk,
    from: Day,
    to: Day,
    output: &mut O,
) -> Result<(), SinkFault>
    ensures ok { let at = sink_side O.taken O.faults in OnOk result (TookAll (at output.old) (at output.new) (trial_text from to desk.state)) }
    ensures err { let at = sink_side O.taken O.faults in IfErr result (TookPart (at output.old) (at output.new) (trial_text from to desk.state)) }
{
    match trial_text(alloc, desk, from, to) {
        Ok(text) => write_all(output, text.as_bytes()),
        Err(NoMemory) => Err(SinkFault::Memory),
    }
}

/// Reads lines, handles each, and writes the reply to it. At the end of the input all accounts are brought to today, and the debits
/// and credits of each kind of entry from one day to another are written behind the replies.
///
/// `Memory` and `Sink` also come where all lines were handled; then a front of the balance was written.
#[tactic(auto, unfolding(crate::specs::Outside::HasCause))]
pub fn run_trial<I: Source, O: Sink, K: Keeper>(
    progress: Progress,
    alloc: Global,
    from: Day,
    to: Day,
    input: &mut I,
    output: &mut O,
    keeper: &mut K,
) -> Ended
    requires new { progress ≡ new_run progress.ledger }
    requires fits { Fits (K.rows keeper.old) progress.ledger }
    ensures ran { let at = outside I.left I.faults O.taken O.faults K.rows K.faults in
        Tries (at input.old output.old keeper.old) (at input.new output.new keeper.new) from to progress.ledger result }
    ensures cause { let at = outside I.left I.faults O.taken O.faults K.rows K.faults in
        HasCause (at input.old output.old keeper.old) (at input.new output.new keeper.new) result }
{
    let mut progress = progress;
    let ended = run(&mut progress, alloc, input, output, keeper);
    if !is_at_end(ended) {
        return ended;
    }
    match balance(alloc, progress.give_back(), from, to, output) {
        Ok(()) => ended,
        Err(fault) => ended_by_sink(fault),
    }
}
