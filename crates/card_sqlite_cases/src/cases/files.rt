use crate::cases::commands::are_rows;
use card_ports::{Body, Keeper, Row};
use card_sqlite::SqliteKeeper;
use std::alloc::Global;
use std::fs;
use std::test::Fail;

const PATH: &str = "files_test.db";

const LOG: &str = "files_test.db-wal";

fn clear(rt: &HostRuntime) {
    let _ = fs::remove_file(rt, PATH);
    let _ = fs::remove_file(rt, LOG);
}

fn row(alloc: Global, seq: u64, body: &[u8]) -> Result<Row, Fail> {
    Ok(Row {
        seq,
        body: Body::of(Vec::from_slice(alloc, body)?),
    })
}

fn keeper_at(rt: &HostRuntime) -> Result<SqliteKeeper, Fail> {
    Ok(SqliteKeeper::new(rt, String::from_str(rt.alloc(), PATH)?))
}

// Whether the keeper gives so many rows, with these bodies.
fn gives(alloc: Global, keeper: &mut SqliteKeeper, bodies: &[&[u8]]) -> bool {
    let Ok(rows) = keeper.load(alloc) else {
        return false;
    };
    are_rows(&rows, bodies)
}

fn adds(alloc: Global, keeper: &mut SqliteKeeper, row: &Row) -> bool {
    keeper.append(alloc, std::slice::from_ref(row)).is_ok()
}

// One keeper loads and adds two rows, and another one over the same file loads them.
#[test]
fn a_file_keeps_rows(rt: HostRuntime) -> Result<(), Fail> {
    let alloc = rt.alloc();
    clear(&rt);
    let mut first = keeper_at(&rt)?;
    assert!(rt; gives(alloc, &mut first, &[]));
    assert!(rt; adds(alloc, &mut first, &row(alloc, 1, b"one")?));
    assert!(rt; adds(alloc, &mut first, &row(alloc, 2, b"two")?));
    assert!(rt; first.close().is_ok());
    let mut second = keeper_at(&rt)?;
    assert!(rt; gives(alloc, &mut second, &[b"one", b"two"]));
    assert!(rt; second.close().is_ok());
    clear(&rt);
    Ok(())
}
