// The ledger that the kept rows give.
ghost use Rattle.std.specs.Prelude.{IfOk, IfErr, OnOk, OnErr};
ghost use Rattle.card_commands.specs.Views.{GaveLedger, GaveNone};
ghost use Rattle.card_commands.specs.Said.{damaged_line, TookLine};
ghost use Rattle.card_ports.specs.Written.{sink_side, TookAll, TookPart};
ghost use Rattle.card_commands.specs.Written.{sides};

use crate::ended::Ended;
use card_desk::{Desk, LoadFault, uncounted};
use card_events::NoMemory;
use card_ports::{Keeper, Sink, SinkFault, write_all};
use itoa::Buffer;
use std::alloc::Global;

/// The desk that the kept rows give. Where they give none, how the call ends; damaged rows are named.
pub fn load<O: Sink, K: Keeper>(
    alloc: Global,
    output: &mut O,
    keeper: &mut K,
) -> Result<Desk, Ended>
    ensures ok { let at = sides O.taken O.faults K.rows K.faults in
        IfOk result (λ desk. GaveLedger (at output.old keeper.old) (at output.new keeper.new) desk.state) }
    ensures err { let at = sides O.taken O.faults K.rows K.faults in
        IfErr result (GaveNone (at output.old keeper.old) (at output.new keeper.new)) }
{
    match uncounted::load(alloc, keeper) {
        Ok(desk) => Ok(desk),
        Err(LoadFault::Keeper) => Err(Ended::Keeper),
        Err(LoadFault::Memory) => Err(Ended::Memory),
        Err(LoadFault::Damaged(number)) => match damaged(output, number) {
            Ok(()) => Err(Ended::Damaged),
            Err(NoMemory) => Err(Ended::Memory),
        },
    }
}

// Names the first damaged row.
fn damaged<O: Sink>(output: &mut O, number: u64) -> Result<(), NoMemory>
    ensures ok { OnOk result (TookLine (O.taken output.old) (O.taken output.new) (O.faults output.old) (O.faults output.new) (damaged_line number)) }
    ensures err { let at = sink_side O.taken O.faults in OnErr result (TookPart (at output.old) (at output.new) (damaged_line number) SinkFault.Memory) }
{
    match write_damaged(output, number) {
        Ok(()) => Ok(()),
        Err(SinkFault::Failed) => Ok(()),
        Err(SinkFault::Memory) => Err(NoMemory),
    }
}

// Writes the line without memory, in three pieces.
fn write_damaged<O: Sink>(output: &mut O, number: u64) -> Result<(), SinkFault>
    ensures ok { let at = sink_side O.taken O.faults in OnOk result (TookAll (at output.old) (at output.new) (damaged_line number)) }
    ensures err { let at = sink_side O.taken O.faults in IfErr result (TookPart (at output.old) (at output.new) (damaged_line number)) }
{
    let mut buffer = Buffer::new();
    let digits = buffer.format(number);
    write_all(output, b"damaged ")?;
    write_all(output, digits.as_bytes())?;
    write_all(output, b"\n")
}
