// Keeping one row.
ghost use Rattle.std.specs.Prelude.{[], ◌∷◌, OnOk, OnErr};
ghost use Rattle.card_ports.specs.Rows.{GoOn, KeepsRows, AddsRows, SameRowsTold};
ghost use Rattle.card_desk.specs.Applied.{IsCounted};

use crate::Fault;
use card_ports::{Keeper, KeeperFault, Row};
use std::alloc::Global;
use std::slice::from_ref;

/// Adds the row, which continues those kept, at the end, or leaves the rows as they are.
///
/// `Keeper`: the keeper failed, which alone raises its count. `Memory`: memory ran out.
pub fn keep_row<K: Keeper>(alloc: Global, keeper: &mut K, row: Row) -> Result<(), Fault>
    requires { GoOn (K.rows keeper.old) (row ∷ []) }
    ensures ok { OnOk result (AddsRows (K.rows keeper.old) (K.rows keeper.new) (row ∷ [])) }
    ensures err { OnErr result (KeepsRows (K.rows keeper.old) (K.rows keeper.new)) }
    ensures told { SameRowsTold (K.rows keeper.old) (K.rows keeper.new) }
    ensures counts { IsCounted Fault.Keeper Fault.Memory (K.faults keeper.old) (K.faults keeper.new) result }
{
    // The row is lent: an array that owns it would have a drop to prove.
    match keeper.append(alloc, from_ref(&row)) {
        Ok(()) => Ok(()),
        Err(KeeperFault::Failed) => Err(Fault::Keeper),
        Err(KeeperFault::Memory) => Err(Fault::Memory),
    }
}
