use crate::row::{add_copies, copies};
use crate::{Calls, Keeper, KeeperFault, Row, Rows};
use std::alloc::Global;
use std::marker::Model;

/// Rows in memory, whose listed calls fail. Loads and appends are counted together, from 1.
#[derive(Drop)]
pub struct FailingKeeper {
    rows: Vec<Row>,
    calls: Calls,
}

impl Model for FailingKeeper {
    ghost use Rattle.card_ports.specs.Rows.{Failing};

    ghost Value = { Failing };

    ghost view = { λ k. record { rows = k.rows.items; calls = k.calls } };
}

impl FailingKeeper {
    ghost use Rattle.std.specs.Prelude.{◌≡◌, []};
    ghost use Rattle.card_ports.specs.Forms.{no_calls};

    /// No row, and the listed calls fail.
    pub fn new(alloc: Global, fails: Vec<u64>) -> FailingKeeper
        ensures { result ≡ record { rows = []; calls = no_calls fails.items } }
    {
        FailingKeeper {
            rows: Vec::new(alloc),
            calls: Calls::new(fails),
        }
    }

    /// The rows.
    pub fn rows(&self) -> &[Row]
        ensures { result.now ≡ self.now.rows }
    {
        &self.rows
    }
}

impl Keeper for FailingKeeper {
    ghost use Rattle.std.specs.Prelude.{◌≡◌, ◌↔◌, ◌≤◌, ◌++◌, true, Some, IfOk, OnOk, OnErr, IsErrOf};
    ghost use Rattle.card_ports.specs.Counts.{Rose};
    ghost use Rattle.card_ports.specs.Forms.{fails_next, after_call};

    ghost rows = { λ k. Some k.rows };

    ghost faults = { λ k. k.calls.faults };

    fn load(&mut self, alloc: Global) -> Result<Vec<Row>, KeeperFault>
        ensures given { IfOk result (λ all. all.items ≡ self.old.rows) }
        ensures kept { self.new.rows ≡ self.old.rows }
        ensures fails { (fails_next self.old.calls ≡ true) ↔ IsErrOf result KeeperFault.Failed }
        ensures calls { self.new.calls ≡ after_call self.old.calls }
        ensures count { self.old.calls.faults ≤ self.new.calls.faults }
        ensures unfailed { OnOk result (self.new.calls.faults ≡ self.old.calls.faults) }
        ensures cause { IsErrOf result KeeperFault.Failed → Rose self.old.calls.faults self.new.calls.faults }
        ensures memory { IsErrOf result KeeperFault.Memory → self.new.calls.faults ≡ self.old.calls.faults }
    {
        if self.calls.fails_now() {
            return Err(KeeperFault::Failed);
        }
        let all = copies(alloc, &self.rows)?;
        Ok(all)
    }

    fn load_packed(&mut self, alloc: Global) -> Result<Rows, KeeperFault>
        ensures given { IfOk result (λ all. all ≡ self.old.rows) }
        ensures kept { self.new.rows ≡ self.old.rows }
        ensures fails { (fails_next self.old.calls ≡ true) ↔ IsErrOf result KeeperFault.Failed }
        ensures calls { self.new.calls ≡ after_call self.old.calls }
        ensures count { self.old.calls.faults ≤ self.new.calls.faults }
        ensures unfailed { OnOk result (self.new.calls.faults ≡ self.old.calls.faults) }
        ensures cause { IsErrOf result KeeperFault.Failed → Rose self.old.calls.faults self.new.calls.faults }
        ensures memory { IsErrOf result KeeperFault.Memory → self.new.calls.faults ≡ self.old.calls.faults }
    {
        if self.calls.fails_now() {
            return Err(KeeperFault::Failed);
        }
        let all = Rows::pack(alloc, &self.rows)?;
        Ok(all)
    }

    fn append(&mut self, alloc: Global, more: &[Row]) -> Result<(), KeeperFault>
        ensures ok { OnOk result (self.new.rows ≡ self.old.rows ++ more.now) }
        ensures err { OnErr result (self.new.rows ≡ self.old.rows) }
        ensures fails { (fails_next self.old.calls ≡ true) ↔ IsErrOf result KeeperFault.Failed }
        ensures calls { self.new.calls ≡ after_call self.old.calls }
        ensures count { self.old.calls.faults ≤ self.new.calls.faults }
        ensures unfailed { OnOk result (self.new.calls.faults ≡ self.old.calls.faults) }
        ensures cause { IsErrOf result KeeperFault.Failed → Rose self.old.calls.faults self.new.calls.faults }
        ensures memory { IsErrOf result KeeperFault.Memory → self.new.calls.faults ≡ self.old.calls.faults }
    {
        if self.calls.fails_now() {
            return Err(KeeperFault::Failed);
        }
        add_copies(alloc, &mut self.rows, more)?;
        Ok(())
    }
}
