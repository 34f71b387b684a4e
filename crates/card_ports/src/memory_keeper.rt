use crate::row::{add_copies, copies};
use crate::{Keeper, KeeperFault, Row, Rows};
use std::alloc::Global;
use std::marker::Model;

/// Rows in memory. It never fails, and adds rows of any number.
#[derive(Drop)]
pub struct MemoryKeeper {
    rows: Vec<Row>,
}

impl Model for MemoryKeeper {
    ghost use Rattle.std.specs.Prelude.{List};
    ghost use Rattle.card_ports.specs.declared.row.Row.{Row};

    ghost Value = { List Row };

    ghost view = { λ k. k.rows.items };
}

impl MemoryKeeper {
    ghost use Rattle.std.specs.Prelude.{◌≡◌, []};

    /// No row.
    pub fn new(alloc: Global) -> MemoryKeeper
        ensures { result ≡ [] }
    {
        MemoryKeeper {
            rows: Vec::new(alloc),
        }
    }

    /// The rows.
    pub fn rows(&self) -> &[Row]
        ensures { result.now ≡ self.now }
    {
        &self.rows
    }
}

impl Keeper for MemoryKeeper {
    ghost use Rattle.std.specs.Prelude.{◌≡◌, ◌++◌, Some, IfOk, OnOk, OnErr, IsErrOf};
    ghost use Rattle.card_ports.specs.Rows.{GivesRows, KeepsRows, AddsRows, SameRowsTold};

    ghost rows = { λ k. Some k };

    ghost faults = { λ k. 0 };

    fn load(&mut self, alloc: Global) -> Result<Vec<Row>, KeeperFault>
        ensures given { IfOk result (λ all. all.items ≡ self.old) }
        ensures kept { self.new ≡ self.old }
        ensures never { IsErrOf result KeeperFault.Failed → ⊥ }
    {
        let all = copies(alloc, &self.rows)?;
        Ok(all)
    }

    fn load_packed(&mut self, alloc: Global) -> Result<Rows, KeeperFault>
        ensures given { IfOk result (λ all. all ≡ self.old) }
        ensures kept { self.new ≡ self.old }
        ensures never { IsErrOf result KeeperFault.Failed → ⊥ }
    {
        let all = Rows::pack(alloc, &self.rows)?;
        Ok(all)
    }

    fn append(&mut self, alloc: Global, more: &[Row]) -> Result<(), KeeperFault>
        ensures ok { OnOk result (self.new ≡ self.old ++ more.now) }
        ensures err { OnErr result (self.new ≡ self.old) }
        ensures never { IsErrOf result KeeperFault.Failed → ⊥ }
    {
        add_copies(alloc, &mut self.rows, more)?;
        Ok(())
    }
}
