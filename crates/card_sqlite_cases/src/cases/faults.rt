use crate::cases::commands::{LINES, RECORDS, ROWS, SHOWN, are_rows};
use card_commands::billctl;
use card_ports::{FailingKeeper, MemoryDoor, MemorySink, MemorySource};
use std::alloc::Global;
use std::test::Fail;

// Commands, each with its input and the replies to its lines or records. Each goes on from the rows of those before it. The last
// one has other cents in its first record.
static STAGES: [(&str, &[u8], &[&[u8]]); 4] = [
    ("apply", LINES, &[b"ok\n", b"ok 1\n", b"ok 2\n", SHOWN]),
    ("import", RECORDS, &[b"ok 3\n", b"ok 4\n"]),
    ("import", RECORDS, &[b"ok 3\n", b"ok 4\n"]),
    ("import", OTHER_CENTS, &[b"no 3 KeyReused 3\n", b"ok 4\n"]),
];

const OTHER_CENTS: &[u8] =
    b"account,key,kind,day,place,cents,minute,channel\na,c2,charge,2024-03-01,purchase,1101,,\na,p1,payment,2024-03-01,,500,600,online\n";

// How many calls of the keeper the commands before each make: a load, and an append for each new row.
static CALLS_BEFORE: [u64; 4] = [0, 4, 7, 8];

// What comes of each command where its source, its sink or its keeper fails at call 1, 2 and so on, until none fails: the status,
// how many replies stand, each whole, and how many rows are kept.
static SOURCE_FAILS: [&[[usize; 3]]; 4] = [
    &[[3, 0, 0], [3, 4, 3], [0, 4, 3]],
    &[[3, 0, 3], [3, 0, 3], [0, 2, 5]],
    &[[3, 0, 5], [3, 0, 5], [0, 2, 5]],
    &[[3, 0, 5], [3, 0, 5], [1, 2, 5]],
];

static SINK_FAILS: [&[[usize; 3]]; 4] = [
    &[[4, 0, 1], [4, 1, 2], [4, 2, 3], [4, 3, 3], [0, 4, 3]],
    &[[4, 0, 4], [4, 1, 5], [0, 2, 5]],
    &[[4, 0, 5], [4, 1, 5], [0, 2, 5]],
    &[[4, 0, 5], [4, 1, 5], [1, 2, 5]],
];

static KEEPER_FAILS: [&[[usize; 3]]; 4] = [
    &[[5, 0, 0], [5, 0, 0], [5, 1, 1], [5, 2, 2], [0, 4, 3]],
    &[[5, 0, 3], [5, 0, 3], [5, 1, 4], [0, 2, 5]],
    &[[5, 0, 5], [0, 2, 5]],
    &[[5, 0, 5], [1, 2, 5]],
];

// What comes of each command where it is sent again over rows of which some were kept: the status, how many rows are kept then, and
// the replies. A post gets its old number; the day was reached before, and has no key.
static AGAIN: [(usize, usize, &[&[u8]]); 4] = [
    (
        1,
        3,
        &[b"no 27 RollBack 2024-03-01\n", b"ok 1\n", b"ok 2\n", SHOWN],
    ),
    (0, 5, &[b"ok 3\n", b"ok 4\n"]),
    (0, 5, &[b"ok 3\n", b"ok 4\n"]),
    (1, 5, &[b"no 3 KeyReused 3\n", b"ok 4\n"]),
];

// The calls of a command that fail. They are counted from 1, so at 0 none does.
#[derive(Clone, Copy)]
struct Fails {
    source: u64,
    sink: u64,
    keeper: u64,
}

const NONE: Fails = Fails {
    source: 0,
    sink: 0,
    keeper: 0,
};

#[derive(Clone, Copy)]
enum Part {
    Source,
    Sink,
    Keeper,
}

fn fails_at(part: Part, call: u64) -> Fails {
    let (source, sink, keeper) = match part {
        Part::Source => (call, 0, 0),
        Part::Sink => (0, call, 0),
        Part::Keeper => (0, 0, call),
    };
    Fails {
        source,
        sink,
        keeper,
    }
}

fn one(alloc: Global, call: u64) -> Result<Vec<u64>, Fail> {
    let mut calls = Vec::new(alloc);
    calls.push(call)?;
    Ok(calls)
}

// Runs a command: its status, and what it wrote.
fn ran(
    alloc: Global,
    command: &str,
    text: &[u8],
    fails: &Fails,
    keeper: &mut FailingKeeper,
) -> Result<(usize, MemorySink), Fail> {
    let mut words = Vec::new(alloc);
    words.push(String::from_str(alloc, command)?)?;
    let mut input = MemorySource::new(Vec::from_slice(alloc, text)?, one(alloc, fails.source)?);
    let mut output = MemorySink::new(alloc, one(alloc, fails.sink)?);
    let mut door = MemoryDoor::new(alloc, Vec::new(alloc), Vec::new(alloc))?;
    let status = billctl(alloc, &words, &mut input, &mut output, keeper, &mut door);
    Ok((usize::from(status), output))
}

// A keeper with the rows of the commands before this one, which fails at this command's listed call.
fn kept_before(alloc: Global, stage: usize, fails: &Fails) -> Result<FailingKeeper, Fail> {
    let call = match CALLS_BEFORE.get(stage) {
        Some(before) if fails.keeper > 0 => before.saturating_add(fails.keeper),
        _ => 0,
    };
    let mut keeper = FailingKeeper::new(alloc, one(alloc, call)?);
    for &(command, text, _) in STAGES.iter().take(stage) {
        let _ = ran(alloc, command, text, &NONE, &mut keeper)?;
    }
    Ok(keeper)
}

// Whether these bytes are these replies, one after the other.
fn are_replies(taken: &[u8], replies: &[&[u8]]) -> bool {
    let mut rest = taken;
    for reply in replies {
        match rest.strip_prefix(*reply) {
            Some(behind) => rest = behind,
            None => return false,
        }
    }
    rest.is_empty()
}

// Whether a command left so much: these replies, and the first rows.
fn has_left(output: &MemorySink, replies: &[&[u8]], keeper: &FailingKeeper, rows: usize) -> bool {
    match ROWS.get(..rows) {
        Some(bodies) => are_replies(output.taken(), replies) && are_rows(keeper.rows(), bodies),
        None => false,
    }
}

// Whether this comes of a command of which one call fails.
fn comes_to(
    alloc: Global,
    stage: usize,
    fails: &Fails,
    wanted: &[usize; 3],
    keeper: &mut FailingKeeper,
) -> Result<bool, Fail> {
    let Some(&(command, text, replies)) = STAGES.get(stage) else {
        return Ok(false);
    };
    let [status, count, rows] = *wanted;
    let (ended, output) = ran(alloc, command, text, fails, keeper)?;
    Ok(match replies.get(..count) {
        Some(first) => ended == status && has_left(&output, first, keeper, rows),
        None => false,
    })
}

// Whether the command, sent again, comes to what it comes to over rows that it left.
fn comes_again(alloc: Global, stage: usize, keeper: &mut FailingKeeper) -> Result<bool, Fail> {
    let (Some(&(command, text, _)), Some(&(status, rows, replies))) = (
        STAGES.get(stage),
        AGAIN.get(stage),
    ) else {
        return Ok(false);
    };
    let (ended, output) = ran(alloc, command, text, &NONE, keeper)?;
    Ok(ended == status && has_left(&output, replies, keeper, rows))
}

// Whether a command comes to this, and, where something ended it over rows that were kept, sent again to what it has to.
fn is_right(alloc: Global, stage: usize, fails: &Fails, wanted: &[usize; 3]) -> Result<bool, Fail> {
    let mut keeper = kept_before(alloc, stage, fails)?;
    if !comes_to(alloc, stage, fails, wanted, &mut keeper)? {
        return Ok(false);
    }
    let [status, _, rows] = *wanted;
    Ok(status <= 1 || rows == 0 || comes_again(alloc, stage, &mut keeper)?)
}

// Whether all cases of a command come out as they are wanted.
fn are_right(alloc: Global, part: Part, stage: usize, cases: &[[usize; 3]]) -> Result<bool, Fail> {
    let mut call = 0u64;
    for wanted in cases {
        call = call.saturating_add(1);
        if !is_right(alloc, stage, &fails_at(part, call), wanted)? {
            return Ok(false);
        }
    }
    Ok(true)
}

// The same of all commands.
fn all_are_right(alloc: Global, part: Part, cases: &[&[[usize; 3]]; 4]) -> Result<bool, Fail> {
    let [first, second, third, fourth] = *cases;
    Ok(
        are_right(alloc, part, 0, first)?
            && are_right(alloc, part, 1, second)?
            && are_right(alloc, part, 2, third)?
            && are_right(alloc, part, 3, fourth)?,
    )
}

#[test]
fn each_call_of_a_command_fails_once(rt: HostRuntime) -> Result<(), Fail> {
    let alloc = rt.alloc();
    assert!(rt; all_are_right(alloc, Part::Source, &SOURCE_FAILS)?);
    assert!(rt; all_are_right(alloc, Part::Sink, &SINK_FAILS)?);
    assert!(rt; all_are_right(alloc, Part::Keeper, &KEEPER_FAILS)?);
    Ok(())
}
