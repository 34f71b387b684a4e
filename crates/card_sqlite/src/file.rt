ghost use Rattle.std.specs.Prelude.{◌≡◌, None, IfNone, IfSome, OnOk, IsErr};
ghost use Rattle.card_sqlite.specs.Calls.{LoadsPacked, Appends};
ghost use Rattle.card_sqlite.specs.Connected.{conn_of, connected, Between};

use crate::StoreKeeper;
use crate::fault::fault_of;
use crate::opening::{Missing, open};
use crate::store::{close, counted};
use card_ports::{Keeper, KeeperFault, Row, Rows};
use sqlite::{Alter, Connection, Error, File, FileStore};
use sqlite_disk::Disk;
use std::alloc::Global;
use std::rt::HostRuntime;

type Store<D> = StoreKeeper<FileStore<D>>;

type Made<S> = Result<Option<Connection<S>>, Error>;

/// Rows in the table `kept` of a SQLite file, which is opened at the first call. Clauses don't see its rows: what a file held before it
/// was opened isn't known. Each call is one of a `StoreKeeper` over the file, whose clauses say what it gives and leaves.
///
/// Beside the faults of a `StoreKeeper`, `Failed`, which is counted, comes where the file can't be opened: its folder isn't
/// there, it may not be read and written, another process has it for five seconds, or it is no sound SQLite database. The file
/// is then as it was, though an empty log may lie beside it. No clause says so; tests over files show it.
#[derive(Drop)]
pub struct SqliteKeeper {
    rt: HostRuntime,
    path: String,
    missing: Missing,
    store: Option<Store<File>>,
    was_written: bool,
    faults: u64,
}

// A connection to the file, where none was made before.
fn connect(
    store: &Option<Store<File>>,
    rt: &HostRuntime,
    path: &str,
    missing: Missing,
) -> Made<FileStore<File>> {
    // Opened at the first call, so a command that wants no rows touches no file.
    match store {
        Some(_) => Ok(None),
        None => match open(rt, path, missing) {
            Ok(conn) => Ok(Some(conn)),
            Err(error) => Err(error),
        },
    }
}

// Takes the connection that was made. This and the next three are over any store: what is proved of a call of one of them over
// a file takes long, so a load and an append are one such call.
fn take<S: Alter + Drop>(
    store: &mut Option<StoreKeeper<S>>,
    made: Made<S>,
) -> Result<(), KeeperFault>
    ensures ok { OnOk result (conn_of store.new ≡ connected store.old made) }
    ensures err { IsErr result → connected store.old made ≡ None }
    ensures none { connected store.old made ≡ None → store.new ≡ store.old }
{
    match made {
        Ok(Some(conn)) => {
            *store = Some(StoreKeeper::adopt(conn));
            Ok(())
        }
        Ok(None) => Ok(()),
        Err(error) => Err(fault_of(error)),
    }
}

// Adds the rows, and gives none.
fn add<S: Alter>(
    store: &mut StoreKeeper<S>,
    alloc: Global,
    rows: &[Row],
) -> Result<Rows, KeeperFault>
    ensures { Appends S.Store rows.now store.old.conn store.new.conn result }
{
    match store.append_rows(rows) {
        Ok(()) => Ok(Rows::new(alloc)),
        Err(fault) => Err(fault),
    }
}

// Adds the rows, where some are handed on. Else gives the rows that are kept.
fn answer<S: Alter>(
    store: &mut StoreKeeper<S>,
    alloc: Global,
    more: Option<&[Row]>,
) -> Result<Rows, KeeperFault>
    ensures loads { IfNone more.entry (LoadsPacked S.Store store.old.conn store.new.conn result) }
    ensures appends { IfSome more.entry (λ rows. Appends S.Store rows.now store.old.conn store.new.conn result) }
{
    match more {
        None => store.load_rows_packed(alloc),
        Some(rows) => add(store, alloc, rows),
    }
}

fn answer_over<S: Alter + Drop>(
    store: &mut Option<StoreKeeper<S>>,
    made: Made<S>,
    alloc: Global,
    more: Option<&[Row]>,
) -> Result<Rows, KeeperFault>
    ensures loads { IfNone more.entry (Between (connected store.old made) (conn_of store.new) (λ old new. LoadsPacked S.Store old new result)) }
    ensures appends { IfSome more.entry (λ rows. Between (connected store.old made) (conn_of store.new) (λ old new. Appends S.Store rows.now old new result)) }
    ensures unconnected { connected store.old made ≡ None → IsErr result × (store.new ≡ store.old) }
{
    take(store, made)?;
    match store {
        Some(store) => answer(store, alloc, more),
        None => Err(KeeperFault::Failed),
    }
}

// The same over files on any disk.
fn answer_on<D: Disk + Drop>(
    store: &mut Option<Store<D>>,
    made: Made<FileStore<D>>,
    alloc: Global,
    more: Option<&[Row]>,
) -> Result<Rows, KeeperFault> {
    answer_over(store, made, alloc, more)
}

impl SqliteKeeper {
    /// A keeper over the file at the path, which isn't opened yet, with no fault counted. Where there is none, the first call
    /// makes one that its owner alone reads and writes.
    pub fn new(rt: &HostRuntime, path: String) -> SqliteKeeper
        ensures { result.faults ≡ 0 }
    {
        SqliteKeeper::with(rt, path, Missing::IsMade)
    }

    /// The same over a file that is there: the first call fails where there is none, and where it holds no byte.
    pub fn of_file(rt: &HostRuntime, path: String) -> SqliteKeeper
        ensures { result.faults ≡ 0 }
    {
        SqliteKeeper::with(rt, path, Missing::IsRefused)
    }

    fn with(rt: &HostRuntime, path: String, missing: Missing) -> SqliteKeeper
        ensures { result.faults ≡ 0 }
    {
        SqliteKeeper {
            rt: *rt,
            path,
            missing,
            store: None,
            was_written: false,
            faults: 0,
        }
    }

    // Opens the file where that isn't done yet, and adds the rows, where some are handed on. Else gives the rows that are kept.
    fn answer(&mut self, alloc: Global, more: Option<&[Row]>) -> Result<Rows, KeeperFault>
        ensures { self.new.faults ≡ self.old.faults }
    {
        let made = connect(&self.store, &self.rt, self.path.as_str(), self.missing);
        answer_on(&mut self.store, made, alloc, more)
    }

    /// Where rows were to be added, copies the log into the file, and closes both; where that fails, every row stands in the
    /// file and its log. Else closes both as they are. No clause says so; tests over files show it.
    pub fn close(self) -> Result<(), KeeperFault> {
        let SqliteKeeper {
            rt: _,
            path: _,
            missing: _,
            store,
            was_written,
            faults: _,
        } = self;
        // A run that added nothing joins no log, so a file that was only read stays as it is.
        match store {
            Some(store) if was_written => close(store),
            _ => Ok(()),
        }
    }
}

impl Keeper for SqliteKeeper {
    ghost use Rattle.std.specs.Prelude.{None};

    ghost rows = { λ k. None };

    ghost faults = { λ k. k.faults };

    fn load_packed(&mut self, alloc: Global) -> Result<Rows, KeeperFault> {
        match self.answer(alloc, None) {
            Ok(rows) => Ok(rows),
            Err(fault) => Err(counted(&mut self.faults, fault)),
        }
    }

    fn append(&mut self, alloc: Global, more: &[Row]) -> Result<(), KeeperFault> {
        self.was_written = true;
        match self.answer(alloc, Some(more)) {
            Ok(_) => Ok(()),
            Err(fault) => Err(counted(&mut self.faults, fault)),
        }
    }
}
