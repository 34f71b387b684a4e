// One flush: the rows that wait are kept, and then the replies that wait are written.
ghost use Rattle.std.specs.Prelude.{◌≡◌, [], OnOk, OnErr, IfErr, IsErrOf};
ghost use Rattle.std.specs.Io.KnownBytes.{Appends};
ghost use Rattle.card_ports.specs.Rows.{GoOn, KeepsRows, AddsRows, SameRowsTold};
ghost use Rattle.card_sqlite.specs.Waiting.{IsCounted};

use card_ports::{Keeper, KeeperFault, MemoryKeeper};
use std::alloc::Global;
use std::io::{self, Write};

/// Why rows or replies that waited went.
#[derive(Clone, Copy, Debug)]
pub enum Lost {
    /// No row was kept, and nothing was written.
    Rows(KeeperFault),
    /// The rows are kept, and a front of the replies was written.
    Replies,
}

// Has the rows that wait kept, all by one append, where there are some. None waits then.
#[tactic(auto, using(crate::proofs::Flushed::adds_none))]
fn keep<K: Keeper>(
    alloc: Global,
    keeper: &mut K,
    rows: &mut MemoryKeeper,
) -> Result<(), KeeperFault>
    requires { GoOn (K.rows keeper.old) rows.old }
    ensures ok { OnOk result (AddsRows (K.rows keeper.old) (K.rows keeper.new) rows.old) }
    ensures err { OnErr result (KeepsRows (K.rows keeper.old) (K.rows keeper.new)) }
    ensures told { SameRowsTold (K.rows keeper.old) (K.rows keeper.new) }
    ensures unfailed { OnOk result (K.faults keeper.new ≡ K.faults keeper.old) }
    ensures counted { IfErr result (λ fault. IsCounted fault (K.faults keeper.old) (K.faults keeper.new)) }
    ensures none { rows.new ≡ [] }
{
    if rows.rows().is_empty() {
        return Ok(());
    }
    let kept = keeper.append(alloc, rows.rows());
    *rows = MemoryKeeper::new(alloc);
    kept
}

// Writes the replies that wait. None waits then.
fn send<W: Write>(writer: &mut W, replies: &mut Vec<u8>) -> io::Result<()>
    ensures ok { OnOk result (Appends (W.contents writer.old) (W.contents writer.new) replies.old.items) }
    ensures none { replies.new.items ≡ [] }
{
    let sent = writer.write_all(replies);
    replies.clear();
    sent
}

// Has the rows that wait kept, all by one append, and then writes the replies that wait. Where the rows can't be kept, the replies
// go with them. Nothing waits then.
pub(crate) fn flush<K: Keeper, W: Write>(
    alloc: Global,
    keeper: &mut K,
    rows: &mut MemoryKeeper,
    writer: &mut W,
    replies: &mut Vec<u8>,
) -> Result<(), Lost>
    requires { GoOn (K.rows keeper.old) rows.old }
    ensures ok { OnOk result (AddsRows (K.rows keeper.old) (K.rows keeper.new) rows.old × Appends (W.contents writer.old) (W.contents writer.new) replies.old.items) }
    ensures unkept { (fault : KeeperFault) → IsErrOf result (Lost.Rows fault) → KeepsRows (K.rows keeper.old) (K.rows keeper.new) × (writer.new ≡ writer.old) × IsCounted fault (K.faults keeper.old) (K.faults keeper.new) }
    ensures unwritten { IsErrOf result Lost.Replies → AddsRows (K.rows keeper.old) (K.rows keeper.new) rows.old × (K.faults keeper.new ≡ K.faults keeper.old) }
    ensures unfailed { OnOk result (K.faults keeper.new ≡ K.faults keeper.old) }
    ensures told { SameRowsTold (K.rows keeper.old) (K.rows keeper.new) }
    ensures none { (rows.new ≡ []) × (replies.new.items ≡ []) }
{
    if let Err(fault) = keep(alloc, keeper, rows) {
        replies.clear();
        return Err(Lost::Rows(fault));
    }
    match send(writer, replies) {
        Ok(()) => Ok(()),
        Err(_) => Err(Lost::Replies),
    }
}
