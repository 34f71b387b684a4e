use crate::stored::billctl_over_store;
use card_ports::{MemoryDoor, MemorySink, MemorySource, Row};
use card_sqlite::StoreKeeper;
use sqlite::{Connection, MemStore};
use std::alloc::Global;
use std::test::Fail;

// Commands, each with its input and the replies that are wanted, none of them a refusal. Records that come twice are told their
// old numbers.
static RUNS: [(&str, &[u8], &[u8]); 3] = [
    (
        "apply",
        LINES,
        b"ok\nok 1\nok 2\nshow a 2024-03-01 owed 1250 credit 0 held 0\n",
    ),
    ("import", RECORDS, b"ok 3\nok 4\n"),
    ("import", RECORDS, b"ok 3\nok 4\n"),
];

pub(crate) const LINES: &[u8] =
    b"roll 2024-03-01\nopen a o 2024-03-01 5 1999 2499 2199 2999 2500 100\ncharge a c1 2024-03-01 purchase 1250\nshow a\n";

pub(crate) const SHOWN: &[u8] = b"show a 2024-03-01 owed 1250 credit 0 held 0\n";

pub(crate) const RECORDS: &[u8] =
    b"account,key,kind,day,place,cents,minute,channel\na,c2,charge,2024-03-01,purchase,1100,,\na,p1,payment,2024-03-01,,500,600,online\n";

// The bodies of the rows that they leave.
pub(crate) static ROWS: [&[u8]; 5] = [
    b"\x02\x01\x12\xc8",
    b"\x02\x04\x01\x61\x01\x6f\x12\xc8\x01\x05\x02\x07\xcf\x02\x09\xc3\x02\x08\x97\x02\x0b\xb7\x02\x09\xc4\x01\x64",
    b"\x02\x05\x01\x61\x02\x63\x31\x12\xc8\x00\x02\x04\xe2",
    b"\x02\x05\x01\x61\x02\x63\x32\x12\xc8\x00\x02\x04\x4c",
    b"\x02\x07\x01\x61\x02\x70\x31\x12\xc8\x02\x02\x58\x01\x02\x01\xf4",
];

// The replies to a command over rows in a database.
fn replies(
    alloc: Global,
    command: &str,
    text: &[u8],
    keeper: &mut StoreKeeper<MemStore>,
) -> Result<(u8, MemorySink), Fail> {
    let mut words = Vec::new(alloc);
    words.push(String::from_str(alloc, command)?)?;
    let mut input = MemorySource::new(Vec::from_slice(alloc, text)?, Vec::new(alloc));
    let mut output = MemorySink::new(alloc, Vec::new(alloc));
    let mut door = MemoryDoor::new(alloc, Vec::new(alloc), Vec::new(alloc))?;
    let status = billctl_over_store(alloc, &words, &mut input, &mut output, keeper, &mut door);
    Ok((status, output))
}

// Whether these rows have these bodies, and are numbered from 1.
pub(crate) fn are_rows(rows: &[Row], bodies: &[&[u8]]) -> bool {
    let mut seq = 0u64;
    for (row, body) in rows.iter().zip(bodies) {
        seq = seq.saturating_add(1);
        if row.seq != seq || row.body.bytes() != *body {
            return false;
        }
    }
    rows.len() == bodies.len()
}

#[test]
fn a_database_keeps_what_is_accepted(rt: HostRuntime) -> Result<(), Fail> {
    let alloc = rt.alloc();
    let mut store = StoreKeeper::adopt(Connection::open_in_memory(alloc)?);
    for &(command, text, wanted) in &RUNS {
        let (status, output) = replies(alloc, command, text, &mut store)?;
        assert!(rt; status == 0 && output.taken() == wanted, "{command}");
    }
    let rows = store.load_rows(alloc)?;
    assert!(rt; are_rows(rows.as_slice(), &ROWS));
    Ok(())
}
