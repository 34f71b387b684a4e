// The top call.
ghost use Rattle.std.specs.Prelude.{Some, map, OnOk, OnErr};
ghost use Rattle.std.specs.String.{string_bytes};
ghost use Rattle.card_commands.specs.Statuses.{IsOneOf, statuses_of};
ghost use Rattle.card_commands.specs.Attended.{parties};
ghost use Rattle.card_commands.specs.Outside.{outside, Outcome};
ghost use Rattle.card_commands.specs.Said.{TookLine};
ghost use Rattle.card_commands.specs.World.{Answered, Comes, ComesOf, MayServe, world};
ghost use Rattle.card_ports.specs.Written.{sink_side, TookPart};
ghost use Rattle.card_words.specs.Commands.{command_of};
ghost use Rattle.card_words.specs.Usage.{usage_line};

use crate::demo::demo;
use crate::ended::{Ended, status_of};
use crate::handle::Run;
use crate::import::import;
use crate::load::load;
use crate::progress::Progress;
use crate::run::run;
use crate::serve::serve;
use crate::tell::{tell, tell_repayment};
use crate::trial::run_trial;
use card_desk::Ask;
use card_events::{Day, NoMemory};
use card_ports::{Door, Keeper, Sink, SinkFault, Source, write_all};
use card_words::{Command, command_of, usage_line};
use std::alloc::Global;
use std::mem::forget;

/// Does what the words say, and answers the exit status. Each command but `demo` begins with the ledger that the kept rows
/// give. `apply` reads request lines from the input and writes one reply for each to the output, `import` does so with
/// records of CSV; each newly accepted request is kept as one row. `trial` does what `apply` does, brings all accounts to
/// today, and writes the debits and credits of each kind of entry from one day to another behind the replies. `statement`
/// and `restate` write the statement of an account's cycle as it was issued, and as the book of today has it, and `repay`
/// what it takes to repay the balances of the issued one; `export` and `work` write the entries of an account,
/// and the open tasks of all. `demo` writes the replies to generated requests over a ledger of their own, and leaves source
/// and keeper alone. `serve` listens on a port, answers one request of HTTP on each of so many connections, and writes a
/// line for each when it is closed: the status of its answer, `cut` where the request ended inside or the connection failed,
/// or `memory`.
///
/// - 0: the input was read to its end, and no reply is `no` or `bad`; or the text was written; or all connections were attended to.
/// - 1: at least one reply is; or the account isn't there, or its statement, and the line `none` is written.
/// - 2: the words are no command, and the usage line is written.
/// - 3: the source failed; 4: the sink failed; 5: the keeper failed; 6: memory ran out; 7: the door failed.
///   Where a keeper fails that a connection wants, that connection is answered 503, and the next is attended to.
/// - 8: the kept rows are damaged, and the line `damaged N` names the first row that is. The rows stay.
/// - 9: 2^36 bytes were read, or 2^30 by `import`, and no end came.
pub fn billctl<I: Source, O: Sink, K: Keeper, D: Door>(
    alloc: Global,
    words: &[String],
    input: &mut I,
    output: &mut O,
    keeper: &mut K,
    door: &mut D,
) -> u8
    // What is read, written and kept, and which connections come, whatever the end is; and what failed, where the end names it.
    ensures outcome { let at = world I.left I.faults O.taken O.faults K.rows K.faults D.visits D.faults in
        Answered (at input.old output.old keeper.old door.old) (at input.new output.new keeper.new door.new) words.now result }

    // No other status comes.
    ensures statuses { IsOneOf result (statuses_of (command_of (map string_bytes words.now))) }
{
    let ended = carry_out_words(alloc, words, input, output, keeper, door);
    status_of(ended)
}

// Carries out the command that the words are, or says which words are one.
#[tactic(auto, unfolding(crate::specs::Outside::Ends, crate::specs::Outside::HasCause))]
fn carry_out_words<I: Source, O: Sink, K: Keeper, D: Door>(
    alloc: Global,
    words: &[String],
    input: &mut I,
    output: &mut O,
    keeper: &mut K,
    door: &mut D,
) -> Ended
    ensures { let at = world I.left I.faults O.taken O.faults K.rows K.faults D.visits D.faults in
        ComesOf (at input.old output.old keeper.old door.old) (at input.new output.new keeper.new door.new) words.now result }
{
    match command_of(words) {
        Some(command) => carry_out(alloc, command, input, output, keeper, door),
        None => match usage(output) {
            Ok(()) => Ended::Usage,
            Err(NoMemory) => Ended::Memory,
        },
    }
}

fn carry_out<I: Source, O: Sink, K: Keeper, D: Door>(
    alloc: Global,
    command: Command,
    input: &mut I,
    output: &mut O,
    keeper: &mut K,
    door: &mut D,
) -> Ended
    ensures { let at = world I.left I.faults O.taken O.faults K.rows K.faults D.visits D.faults in
        Comes (at input.old output.old keeper.old door.old) (at input.new output.new keeper.new door.new) (Some command) result }
{
    match command {
        Command::Apply => apply_lines(alloc, input, output, keeper),
        Command::Import => import_records(alloc, input, output, keeper),
        Command::Export(name) => tell(alloc, &Ask::Entries(name), output, keeper),
        Command::Work => tell(alloc, &Ask::Work, output, keeper),
        Command::Statement(name, cycle) => tell(alloc, &Ask::Issued(name, cycle), output, keeper),
        Command::Restate(name, cycle) => tell(alloc, &Ask::Restated(name, cycle), output, keeper),
        Command::Repay(name, cycle) => {
            tell_repayment(alloc, &Ask::Issued(name, cycle), output, keeper)
        }
        Command::Demo(size) => demo(alloc, &size, output),
        Command::Serve { port, count } => { serve_ledger(alloc, port, count, output, keeper, door) }
        Command::Trial { from, to } => trial_lines(alloc, from, to, input, output, keeper),
    }
}

// Loads the ledger, and runs over the lines of the input. The ledger goes with the process: to give each of its parts back first
// takes a part of a run's time.
fn apply_lines<I: Source, O: Sink, K: Keeper>(
    alloc: Global,
    input: &mut I,
    output: &mut O,
    keeper: &mut K,
) -> Ended
    ensures { let at = outside I.left I.faults O.taken O.faults K.rows K.faults in
        Outcome (at input.old output.old keeper.old) (at input.new output.new keeper.new) (Some Command.Apply) result }
{
    match load(alloc, output, keeper) {
        Ok(desk) => {
            let mut progress = Progress::new(alloc, desk);
            let ended = run(&mut progress, alloc, input, output, keeper);
            forget(progress);
            ended
        }
        Err(ended) => ended,
    }
}

// Loads the ledger, runs over the lines of the input, and writes a trial balance behind the replies.
fn trial_lines<I: Source, O: Sink, K: Keeper>(
    alloc: Global,
    from: Day,
    to: Day,
    input: &mut I,
    output: &mut O,
    keeper: &mut K,
) -> Ended
    ensures { let at = outside I.left I.faults O.taken O.faults K.rows K.faults in
        Outcome (at input.old output.old keeper.old) (at input.new output.new keeper.new) (Some (Command.Trial from to)) result }
{
    match load(alloc, output, keeper) {
        Ok(desk) => {
            let progress = Progress::new(alloc, desk);
            run_trial(progress, alloc, from, to, input, output, keeper)
        }
        Err(ended) => ended,
    }
}

// Loads the ledger, and runs over the records of the input. The ledger goes with the process.
fn import_records<I: Source, O: Sink, K: Keeper>(
    alloc: Global,
    input: &mut I,
    output: &mut O,
    keeper: &mut K,
) -> Ended
    ensures { let at = outside I.left I.faults O.taken O.faults K.rows K.faults in
        Outcome (at input.old output.old keeper.old) (at input.new output.new keeper.new) (Some Command.Import) result }
{
    match load(alloc, output, keeper) {
        Ok(desk) => {
            let mut run = Run::new(desk);
            let ended = import(&mut run, alloc, input, output, keeper);
            forget(run);
            ended
        }
        Err(ended) => ended,
    }
}

// Loads the ledger, and attends to connections.
fn serve_ledger<O: Sink, K: Keeper, D: Door>(
    alloc: Global,
    port: u16,
    count: u32,
    output: &mut O,
    keeper: &mut K,
    door: &mut D,
) -> Ended
    ensures { let at = parties O.taken O.faults K.rows K.faults D.visits D.faults in
        MayServe port count door.old door.new (at output.old keeper.old door.old) (at output.new keeper.new door.new) result }
{
    match load(alloc, output, keeper) {
        Ok(mut desk) => serve(&mut desk, alloc, port, count, output, keeper, door),
        Err(ended) => ended,
    }
}

// Says which words are a command.
fn usage<O: Sink>(output: &mut O) -> Result<(), NoMemory>
    ensures ok { OnOk result (TookLine (O.taken output.old) (O.taken output.new) (O.faults output.old) (O.faults output.new) usage_line) }
    ensures err { let at = sink_side O.taken O.faults in OnErr result (TookPart (at output.old) (at output.new) usage_line SinkFault.Memory) }
{
    match write_all(output, usage_line().as_bytes()) {
        Ok(()) => Ok(()),
        Err(SinkFault::Failed) => Ok(()),
        Err(SinkFault::Memory) => Err(NoMemory),
    }
}
