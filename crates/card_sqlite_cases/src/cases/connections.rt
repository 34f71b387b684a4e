ghost use Rattle.std.specs.Prelude.{All, IfOk};
ghost use Rattle.card_ports.specs.Forms.{IsFresh};

use crate::cases::commands::are_rows;
use card_commands::billctl;
use card_ports::{FailingKeeper, MemoryDoor, MemoryLink, MemorySink, MemorySource};
use std::alloc::Global;
use std::test::Fail;

static WORDS: [&str; 3] = ["serve", "8080", "2"];

// Two connections: a day is posted, and the open tasks are asked for.
const ROLL: &[u8] =
    b"POST /posts HTTP/1.1\r\nContent-Length: 34\r\n\r\n{\"kind\":\"roll\",\"day\":\"2024-01-28\"}";

const WORK: &[u8] = b"GET /work HTTP/1.1\r\n\r\n";

// The row that the day is kept as.
static ROW: [&[u8]; 1] = [b"\x02\x01\x12\xa7"];

// Their answers, and that of a keeper that fails.
const ROLLED: &[u8] =
    b"HTTP/1.1 200 OK\r\nContent-Type: application/json\r\nContent-Length: 8\r\nConnection: close\r\n\r\n{\"ok\":0}";

const NO_TASKS: &[u8] =
    b"HTTP/1.1 200 OK\r\nContent-Type: text/plain; charset=utf-8\r\nContent-Length: 0\r\nConnection: close\r\n\r\n";

const NOT_KEPT: &[u8] =
    b"HTTP/1.1 503 Service Unavailable\r\nContent-Type: application/json\r\nContent-Length: 18\r\nConnection: close\r\n\r\n{\"fault\":\"keeper\"}";

// More calls than a connection makes.
const ENOUGH: u64 = 1000;

// The calls that fail, counted from 1, so at 0 none does. `listen` and `accept` are counted together, a load and appends too,
// and a connection's reads and writes.
#[derive(Clone, Copy)]
struct Fails {
    door: u64,
    sink: u64,
    keeper: u64,
    first: u64,
    second: u64,
}

const NONE: Fails = Fails {
    door: 0,
    sink: 0,
    keeper: 0,
    first: 0,
    second: 0,
};

fn one(alloc: Global, call: u64) -> Result<Vec<u64>, Fail> {
    let mut calls = Vec::new(alloc);
    calls.push(call)?;
    Ok(calls)
}

fn link(alloc: Global, bytes: &[u8], call: u64) -> Result<MemoryLink, Fail>
    ensures { IfOk result (λ link. IsFresh link) }
{
    let bytes = Vec::from_slice(alloc, bytes)?;
    Ok(MemoryLink::new(alloc, bytes, one(alloc, call)?))
}

// Both connections.
fn both(alloc: Global, fails: &Fails) -> Result<Vec<MemoryLink>, Fail>
    ensures { IfOk result (λ links. All IsFresh links.items) }
{
    let mut links = Vec::new(alloc);
    links.push(link(alloc, ROLL, fails.first)?)?;
    links.push(link(alloc, WORK, fails.second)?)?;
    Ok(links)
}

// What a server leaves.
#[derive(Drop)]
struct Left {
    status: u8,
    output: MemorySink,
    keeper: FailingKeeper,
    door: MemoryDoor,
}

fn served(alloc: Global, fails: &Fails) -> Result<Left, Fail> {
    let mut words = Vec::new(alloc);
    for &word in &WORDS {
        words.push(String::from_str(alloc, word)?)?;
    }
    let links = both(alloc, fails)?;
    let mut input = MemorySource::new(Vec::new(alloc), Vec::new(alloc));
    let mut output = MemorySink::new(alloc, one(alloc, fails.sink)?);
    let mut keeper = FailingKeeper::new(alloc, one(alloc, fails.keeper)?);
    let mut door = MemoryDoor::new(alloc, links, one(alloc, fails.door)?)?;
    let status = billctl(
        alloc,
        &words,
        &mut input,
        &mut output,
        &mut keeper,
        &mut door,
    );
    Ok(Left {
        status,
        output,
        keeper,
        door,
    })
}

// Whether the closed connections took these answers.
fn have_taken(links: &[MemoryLink], answers: &[&[u8]]) -> bool {
    for (link, answer) in links.iter().zip(answers) {
        if link.taken() != *answer {
            return false;
        }
    }
    links.len() == answers.len()
}

// Whether so many rows are kept, of which the first is that of the day.
fn are_kept(left: &Left, rows: usize) -> bool {
    match ROW.get(..rows) {
        Some(bodies) => are_rows(left.keeper.rows(), bodies),
        None => false,
    }
}

// Whether a server ends so: its status, its lines, how many rows are kept, and the answers.
fn ends(
    alloc: Global,
    fails: &Fails,
    status: u8,
    lines: &[u8],
    rows: usize,
    answers: &[&[u8]],
) -> Result<bool, Fail> {
    let left = served(alloc, fails)?;
    Ok(
        left.status == status
            && left.output.taken() == lines
            && are_kept(&left, rows)
            && have_taken(left.door.closed(), answers),
    )
}

// Where a connection fails it took a front of its answer, and nothing where its request wasn't read whole.
fn is_cut(link: &MemoryLink, answer: &[u8]) -> bool {
    let taken = link.taken();
    answer.starts_with(taken)
        && taken.len() < answer.len()
        && (link.left().is_empty() || taken.is_empty())
}

// Whether the first connection failed, the day is posted exactly where its request was read whole, and the second was served.
fn first_is_cut(left: &Left) -> bool {
    let [first, second] = left.door.closed() else {
        return false;
    };
    let rows = if first.left().is_empty() { 1 } else { 0 };
    left.status == 0
        && left.output.taken() == b"cut\n200\n".as_slice()
        && are_kept(left, rows)
        && is_cut(first, ROLLED)
        && second.taken() == NO_TASKS
}

// Whether the second failed, and the first was served.
fn second_is_cut(left: &Left) -> bool {
    let [first, second] = left.door.closed() else {
        return false;
    };
    left.status == 0
        && left.output.taken() == b"200\ncut\n".as_slice()
        && are_kept(left, 1)
        && first.taken() == ROLLED
        && is_cut(second, NO_TASKS)
}

fn is_served(left: &Left) -> bool {
    left.status == 0
        && left.output.taken() == b"200\n200\n".as_slice()
        && have_taken(left.door.closed(), &[ROLLED, NO_TASKS])
}

// Lets a connection fail at call 1, 2 and so on, until it meets no fault: how often it failed, where each time came out right.
fn cuts(alloc: Global, is_first: bool) -> Result<Option<u64>, Fail> {
    for call in 1..ENOUGH {
        let (first, second) = if is_first { (call, 0) } else { (0, call) };
        let left = served(
            alloc,
            &Fails {
                door: 0,
                sink: 0,
                keeper: 0,
                first,
                second,
            },
        )?;
        if is_served(&left) {
            return Ok(Some(call - 1));
        }
        let right = if is_first {
            first_is_cut(&left)
        } else {
            second_is_cut(&left)
        };
        if !right {
            return Ok(None);
        }
    }
    Ok(None)
}

fn door_at(call: u64) -> Fails {
    Fails {
        door: call,
        sink: 0,
        keeper: 0,
        first: 0,
        second: 0,
    }
}

fn sink_at(call: u64) -> Fails {
    Fails {
        door: 0,
        sink: call,
        keeper: 0,
        first: 0,
        second: 0,
    }
}

fn keeper_at(call: u64) -> Fails {
    Fails {
        door: 0,
        sink: 0,
        keeper: call,
        first: 0,
        second: 0,
    }
}

#[test]
fn each_call_of_a_server_fails_once(rt: HostRuntime) -> Result<(), Fail> {
    let alloc = rt.alloc();
    assert!(rt; ends(alloc, &NONE, 0, b"200\n200\n", 1, &[ROLLED, NO_TASKS])?);
    assert!(rt; ends(alloc, &door_at(1), 7, b"", 0, &[])?);
    assert!(rt; ends(alloc, &door_at(2), 7, b"", 0, &[])?);
    assert!(rt; ends(alloc, &door_at(3), 7, b"200\n", 1, &[ROLLED])?);
    assert!(rt; ends(alloc, &sink_at(1), 4, b"", 1, &[ROLLED])?);
    assert!(rt; ends(alloc, &sink_at(2), 4, b"200\n", 1, &[ROLLED, NO_TASKS])?);
    assert!(rt; ends(alloc, &keeper_at(1), 5, b"", 0, &[])?);
    assert!(rt;
        ends(
            alloc,
            &keeper_at(2),
            0,
            b"503\n200\n",
            0,
            &[NOT_KEPT, NO_TASKS]
        )?
    );
    Ok(())
}

#[test]
fn each_call_of_a_connection_fails_once(rt: HostRuntime) -> Result<(), Fail> {
    let alloc = rt.alloc();
    assert!(rt; matches!(cuts(alloc, true)?, Some(2..)));
    assert!(rt; matches!(cuts(alloc, false)?, Some(2..)));
    Ok(())
}
