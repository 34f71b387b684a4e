// Forms in memory: keepers, of which one fails where it is told to, and a connection.
use card_ports::{Body, FailingKeeper, Keeper, KeeperFault, MemoryKeeper, MemoryLink, Row, Sink};
use std::alloc::Global;
use std::slice::from_ref;
use std::test::Fail;

fn row(alloc: Global) -> Result<Row, Fail> {
    let bytes = Vec::from_slice(alloc, b"roll")?;
    Ok(Row {
        seq: 1,
        body: Body::of(bytes),
    })
}

// Whether these rows are that one.
fn is_kept(rows: &[Row]) -> bool {
    match rows.first() {
        Some(row) => rows.len() == 1 && row.seq == 1 && row.body.bytes() == b"roll".as_slice(),
        None => false,
    }
}

#[test]
fn a_keeper_keeps_rows(rt: HostRuntime) -> Result<(), Fail> {
    let alloc = rt.alloc();
    let row = row(alloc)?;
    let mut keeper = MemoryKeeper::new(alloc);
    keeper.append(alloc, from_ref(&row))?;
    assert!(rt; is_kept(keeper.rows()));
    assert!(rt; is_kept(&keeper.load(alloc)?));
    Ok(())
}

// The second call fails.
#[test]
fn a_keeper_fails_where_it_is_told(rt: HostRuntime) -> Result<(), Fail> {
    let alloc = rt.alloc();
    let row = row(alloc)?;
    let mut keeper = FailingKeeper::new(alloc, Vec::from_slice(alloc, &[2])?);
    keeper.append(alloc, from_ref(&row))?;
    assert!(rt; matches!(keeper.load(alloc), Err(KeeperFault::Failed)));
    assert!(rt; is_kept(&keeper.load(alloc)?));
    Ok(())
}

#[test]
fn a_connection_takes_bytes(rt: HostRuntime) {
    let alloc = rt.alloc();
    let mut link = MemoryLink::new(alloc, Vec::new(alloc), Vec::new(alloc));
    assert!(rt; link.write(b"ok").is_ok());
    assert!(rt; link.taken() == b"ok".as_slice());
}
