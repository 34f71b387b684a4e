use card_ports::{Body, KeeperFault, Row};
use card_sqlite::StoreKeeper;
use sqlite::{Alter, Connection, Files, Options};
use sqlite_disk::{Crash, Disk, Fuse, Memory};
use std::alloc::Global;
use std::test::Fail;

const ENDLESS: u64 = u64::MAX;

type Fused = Fuse<Memory>;

fn row(alloc: Global, seq: u64) -> Result<Row, Fail> {
    let bytes = Vec::from_slice(alloc, b"row")?;
    Ok(Row {
        seq,
        body: Body::of(bytes),
    })
}

fn two_rows(alloc: Global) -> Result<Vec<Row>, Fail> {
    let mut rows = Vec::new(alloc);
    for seq in 1u64..3 {
        rows.push(row(alloc, seq)?)?;
    }
    Ok(rows)
}

// How many of the two rows are kept, where nothing else is.
fn kept(loaded: Result<Vec<Row>, KeeperFault>) -> Option<usize> {
    let rows = loaded.ok()?;
    let mut seq = 0u64;
    for row in rows.iter() {
        seq = seq.saturating_add(1);
        if row.seq != seq || row.body.bytes() != b"row".as_slice() {
            return None;
        }
    }
    Some(rows.len())
}

// The rows of a store, to which more are added, if there are some: what is left of the store, and how many there were. None
// where something stopped it. Over any store, since what is proved of a call over a file takes long.
fn add<S: Alter + Drop>(alloc: Global, conn: Connection<S>, more: &[Row]) -> (S, Option<usize>) {
    let mut keeper = StoreKeeper::adopt(conn);
    let rows = kept(keeper.load_rows(alloc));
    let done = more.is_empty() || keeper.append_rows(more).is_ok();
    (
        keeper.give_back().into_store(),
        if done { rows } else { None },
    )
}

// The same over two files, and what is left of them; None also where they can't be opened. Over any disk, so that no clause of
// a disk in memory is read for it.
fn added<D: Disk + Drop>(
    alloc: Global,
    files: Files<D>,
    seed: u64,
    more: &[Row],
) -> (Files<D>, Option<usize>) {
    if !files.may_be_used() {
        return (files, None);
    }
    match Connection::open_files(alloc, files, Options::new(seed)) {
        Ok(conn) => {
            let (store, rows) = add(alloc, conn, more);
            (store.close(), rows)
        }
        Err((_, left)) => (left.into_files(), None),
    }
}

// Files in memory that stop after so many calls.
fn stopping(alloc: Global, log: u64, db: u64) -> Files<Fused> {
    Files {
        log: Fuse::new(Memory::new(alloc), log),
        db: Fuse::new(Memory::new(alloc), db),
    }
}

fn crashed(mut files: Files<Fused>) -> Files<Fused> {
    files.log.crash();
    files.db.crash();
    files
}

// An append over files of which one stops after so many calls, and the same files after a crash: how many rows there were
// before both, or None where something stopped it.
fn run(alloc: Global, is_log: bool, calls: u64, two: &[Row]) -> (Option<usize>, Option<usize>) {
    let (log, db) = if is_log {
        (calls, ENDLESS)
    } else {
        (ENDLESS, calls)
    };
    let (files, before) = added(alloc, stopping(alloc, log, db), 7, two);
    let (_, after) = added(alloc, crashed(files), 8, &[]);
    (before, after)
}

// Stops one of the files after 0 calls, 1 call and so on, until a run isn't stopped: how many runs were stopped, where each
// left none of the rows or both.
fn stops(alloc: Global, is_log: bool, two: &[Row]) -> Option<u64> {
    for calls in 0u64..2000 {
        match run(alloc, is_log, calls, two) {
            (Some(0), Some(2)) => return Some(calls),
            (None, Some(0 | 2)) => {}
            _ => return None,
        }
    }
    None
}

#[test]
fn stopped_at_each_call(rt: HostRuntime) -> Result<(), Fail> {
    let two = two_rows(rt.alloc())?;
    assert!(rt; stops(rt.alloc(), true, &two).is_some());
    assert!(rt; stops(rt.alloc(), false, &two).is_some());
    Ok(())
}
