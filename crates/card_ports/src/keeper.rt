ghost use Rattle.std.specs.Prelude.{◌≡◌, ◌≤◌, ℕ, List, Option, IfOk, OnOk, OnErr, IsErrOf};
ghost use Rattle.card_ports.specs.Counts.{Rose};
ghost use Rattle.card_ports.specs.Rows.{GoOn, KeepsRows, AddsRows, GivesRows, SameRowsTold};
ghost use Rattle.card_ports.specs.declared.row.Row.{Row};
ghost use Rattle.card_ports.specs.declared.keeper.KeeperFault.TheVariants.{Memory};

use crate::{Row, Rows};
use card_events::NoMemory;
use std::alloc::{AllocError, AllocFailed, Global};

/// Why a keeper did nothing.
#[derive(Clone, Copy, Debug)]
pub enum KeeperFault {
    /// The outside failed.
    Failed,
    /// Memory was wanted and isn't there.
    Memory,
}

impl From<NoMemory> for KeeperFault {
    ghost from_gives = { λ _ fault. fault ≡ Memory };

    fn from(_: NoMemory) -> Self {
        KeeperFault::Memory
    }
}

impl From<AllocError> for KeeperFault {
    ghost from_gives = { λ _ fault. fault ≡ Memory };

    fn from(_: AllocError) -> Self {
        KeeperFault::Memory
    }
}

impl<T: Drop> From<AllocFailed<T>> for KeeperFault {
    ghost from_gives = { λ _ fault. fault ≡ Memory };

    fn from(_: AllocFailed<T>) -> Self {
        KeeperFault::Memory
    }
}

/// What keeps the rows of a ledger. Running out of memory is no fault, and isn't counted.
pub trait Keeper {
    /// The rows, where they are visible to clauses.
    ghost rows: { Self → Option (List Row) };

    /// How often the outside failed. No other call counts.
    ghost faults: { Self → ℕ };

    /// All rows, in order. They stay.
    fn load(&mut self, alloc: Global) -> Result<Vec<Row>, KeeperFault>
        ensures given { IfOk result (λ all. GivesRows (rows self.old) all.items) }
        ensures kept { KeepsRows (rows self.old) (rows self.new) }
        ensures told { SameRowsTold (rows self.old) (rows self.new) }
        ensures count { faults self.old ≤ faults self.new }
        ensures unfailed { OnOk result (faults self.new ≡ faults self.old) }
        ensures cause { IsErrOf result KeeperFault.Failed → Rose (faults self.old) (faults self.new) }
        ensures memory { IsErrOf result KeeperFault.Memory → faults self.new ≡ faults self.old }
    {
        let rows = self.load_packed(alloc)?;
        let all = rows.unpack(alloc)?;
        Ok(all)
    }

    /// The same rows in one list, which takes less memory. They stay.
    fn load_packed(&mut self, alloc: Global) -> Result<Rows, KeeperFault>
        ensures given { IfOk result (λ all. GivesRows (rows self.old) all) }
        ensures kept { KeepsRows (rows self.old) (rows self.new) }
        ensures told { SameRowsTold (rows self.old) (rows self.new) }
        ensures count { faults self.old ≤ faults self.new }
        ensures unfailed { OnOk result (faults self.new ≡ faults self.old) }
        ensures cause { IsErrOf result KeeperFault.Failed → Rose (faults self.old) (faults self.new) }
        ensures memory { IsErrOf result KeeperFault.Memory → faults self.new ≡ faults self.old };

    /// Adds rows at the end: all of them, or none after a fault or where memory ran out. Their numbers continue from the last.
    fn append(&mut self, alloc: Global, more: &[Row]) -> Result<(), KeeperFault>
        requires { GoOn (rows self.old) more.now }
        ensures ok { OnOk result (AddsRows (rows self.old) (rows self.new) more.now) }
        ensures err { OnErr result (KeepsRows (rows self.old) (rows self.new)) }
        ensures told { SameRowsTold (rows self.old) (rows self.new) }
        ensures count { faults self.old ≤ faults self.new }
        ensures unfailed { OnOk result (faults self.new ≡ faults self.old) }
        ensures cause { IsErrOf result KeeperFault.Failed → Rose (faults self.old) (faults self.new) }
        ensures memory { IsErrOf result KeeperFault.Memory → faults self.new ≡ faults self.old };
}
