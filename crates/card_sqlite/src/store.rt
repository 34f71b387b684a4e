ghost use Rattle.std.specs.Prelude.{◌≡◌, ◌≤◌, IfOk, IfErr, OnOk, IsErrOf};
ghost use Rattle.card_ports.specs.Counts.{Rose};
ghost use Rattle.sqlite.specs.State.{IsLive};
ghost use Rattle.sqlite.specs.Held.{state};
ghost use Rattle.card_sqlite.specs.Calls.{Loads, LoadsPacked, Appends};

use crate::append::append;
use crate::fault::fault_of;
use crate::fits::{fits, is_kept_alone};
use crate::load::load;
use card_ports::{KeeperFault, Row, Rows};
use sqlite::{Alter, Connection, FileStore};
use sqlite_disk::Disk;
use sqlite_schema::schema::Schema;
use std::alloc::Global;

/// Rows in the table `kept` of a database, which has no other table.
#[derive(Drop)]
pub struct StoreKeeper<S: Alter> {
    conn: Connection<S>,
    faults: u64,
}

// The fault of a call. A fault of the outside raises the count.
pub(crate) fn counted(faults: &mut u64, fault: KeeperFault) -> KeeperFault
    ensures same { result ≡ fault }
    ensures count { faults.old ≤ faults.new }
    ensures cause { result ≡ KeeperFault.Failed → Rose faults.old faults.new }
    ensures memory { result ≡ KeeperFault.Memory → faults.new ≡ faults.old }
{
    if fault == KeeperFault::Failed {
        *faults = faults.saturating_add(1);
    }
    fault
}

// Loads where no transaction is under way and the schema is the ledger's. Else nothing is done.
fn load_if_fit<S: Alter>(conn: &mut Connection<S>, alloc: Global) -> Result<Rows, KeeperFault>
    ensures loads { LoadsPacked S.Store conn.old conn.new result }
{
    if !conn.is_autocommit() || !fits(conn.schema()) {
        return Err(KeeperFault::Failed);
    }
    match load(conn, alloc) {
        Ok(rows) => Ok(rows),
        Err(error) => Err(fault_of(error)),
    }
}

// The rows, each with a list of its own.
fn unpacked(alloc: Global, rows: &Rows) -> Result<Vec<Row>, KeeperFault>
    ensures same { IfOk result (λ all. all.items ≡ rows.now) }
    ensures memory { IfErr result (λ fault. fault ≡ KeeperFault.Memory) }
{
    match rows.unpack(alloc) {
        Ok(all) => Ok(all),
        Err(_) => Err(KeeperFault::Memory),
    }
}

// Adds the rows where no transaction is under way and the table is there. Else nothing is done.
fn append_if_fit<S: Alter>(conn: &mut Connection<S>, rows: &[Row]) -> Result<(), KeeperFault>
    ensures appends { Appends S.Store rows.now conn.old conn.new result }
{
    if !conn.is_autocommit() || !is_kept_alone(conn.schema()) {
        return Err(KeeperFault::Failed);
    }
    match append(conn, rows) {
        Ok(()) => Ok(()),
        Err(error) => Err(fault_of(error)),
    }
}

// Copies the log of a keeper over files into its file and closes both.
pub(crate) fn close<D: Disk + Drop>(store: StoreKeeper<FileStore<D>>) -> Result<(), KeeperFault> {
    let StoreKeeper { conn, faults: _ } = store;
    match conn.close() {
        Ok(()) => Ok(()),
        Err(error) => Err(fault_of(error)),
    }
}

impl<S: Alter> StoreKeeper<S> {
    /// A keeper over an open connection, with no fault counted.
    pub fn adopt(conn: Connection<S>) -> StoreKeeper<S>
        ensures conn { result.conn ≡ conn }
        ensures faults { result.faults ≡ 0 }
    {
        StoreKeeper { conn, faults: 0 }
    }

    /// The connection.
    pub fn give_back(self) -> Connection<S>
        ensures { result ≡ self.conn }
    {
        let StoreKeeper { conn, faults: _ } = self;
        conn
    }

    // The schema, and that the database obeys its own.
    pub(crate) fn schema(&self) -> &Schema
        ensures { IsLive (state S.Store self.now.conn) }
    {
        self.conn.schema()
    }

    /// The rows of `kept`, in order of seq; the table is made where it is missing, and nothing else changes. A record with a
    /// seq below 0 is given with seq 0. `Failed`, which is counted, comes where a transaction is under way, where the database
    /// has anything but the table `kept`, or where a statement fails; `Memory` where memory was wanted and isn't there.
    pub fn load_rows(&mut self, alloc: Global) -> Result<Vec<Row>, KeeperFault>
        ensures loads { Loads S.Store self.old.conn self.new.conn result }
        ensures count { self.old.faults ≤ self.new.faults }
        ensures unfailed { OnOk result (self.new.faults ≡ self.old.faults) }
        ensures cause { IsErrOf result KeeperFault.Failed → Rose self.old.faults self.new.faults }
        ensures memory { IsErrOf result KeeperFault.Memory → self.new.faults ≡ self.old.faults }
    {
        match self.load_rows_packed(alloc) {
            Ok(rows) => unpacked(alloc, &rows),
            Err(fault) => Err(fault),
        }
    }

    /// The same rows, packed in one list, under the same conditions and with the same faults.
    pub fn load_rows_packed(&mut self, alloc: Global) -> Result<Rows, KeeperFault>
        ensures loads { LoadsPacked S.Store self.old.conn self.new.conn result }
        ensures count { self.old.faults ≤ self.new.faults }
        ensures unfailed { OnOk result (self.new.faults ≡ self.old.faults) }
        ensures cause { IsErrOf result KeeperFault.Failed → Rose self.old.faults self.new.faults }
        ensures memory { IsErrOf result KeeperFault.Memory → self.new.faults ≡ self.old.faults }
    {
        match load_if_fit(&mut self.conn, alloc) {
            Ok(rows) => Ok(rows),
            Err(fault) => Err(counted(&mut self.faults, fault)),
        }
    }

    /// Adds the rows at the end, all or none, in one commit. `Failed`, which is counted, comes where a transaction is under
    /// way, where the database has anything but the table `kept` or lacks it, where a seq is above that of a rowid, or where a
    /// statement fails; `Memory` where memory was wanted and isn't there. After both the rows are as they were. A crash leaves
    /// the rows from before, or with all of the new ones.
    pub fn append_rows(&mut self, rows: &[Row]) -> Result<(), KeeperFault>
        ensures appends { Appends S.Store rows.now self.old.conn self.new.conn result }
        ensures count { self.old.faults ≤ self.new.faults }
        ensures unfailed { OnOk result (self.new.faults ≡ self.old.faults) }
        ensures cause { IsErrOf result KeeperFault.Failed → Rose self.old.faults self.new.faults }
        ensures memory { IsErrOf result KeeperFault.Memory → self.new.faults ≡ self.old.faults }
    {
        match append_if_fit(&mut self.conn, rows) {
            Ok(()) => Ok(()),
            Err(fault) => Err(counted(&mut self.faults, fault)),
        }
    }
}
