//! The ledger of a card issuer: reads request lines or requests over HTTP, replies to each, and keeps a row of each newly
//! accepted one.
#![tactic(auto)]

use card_commands::{Keeping, billctl, exit_status, keeping_of, memory_status};
use card_events::NoMemory;
use card_ports::{Asking, Keeper, Lent, MemoryKeeper, Replies, StdSink, StdSource, TcpDoor};
use card_sqlite::{Ended, SqliteKeeper, Waiting, WaitingKeeper};
use std::cell::RefCell;
use std::io::{self, ErrorKind, Read, Write};
use std::mem::forget;
use std::process::ExitCode;

// How many bytes of replies may wait until more is read, where the rows are in memory.
const REPLY_ROOM: usize = 8192;

// A reader that has what waits kept and written before it waits for more. Where that fails it reads no more, so that a line whose row
// can't be kept ends the run at once.
#[derive(Drop)]
struct Settling<'a, R: Read, W: Write> {
    reader: R,
    waiting: Lent<'a, W>,
}

impl<'a, R: Read, W: Write> Read for Settling<'a, R, W> {
    fn read(&mut self, buf: &mut [u8]) -> io::Result<usize> {
        self.waiting.flush()?;
        self.reader.read(buf)
    }
}

// The first word, which says where the rows are kept, and the words behind it. An empty list and words that aren't text give
// no words, and no words are no command. Where memory is wanted for them, the run ends with that.
struct Words {
    place: Option<String>,
    command: Vec<String>,
}

fn read_words(rt: &HostRuntime) -> Result<Words, NoMemory> {
    let mut command = Vec::new(rt.alloc());
    let mut args = match std::env::args(rt) {
        Ok(args) => args,
        Err(error) if error.kind() == ErrorKind::OutOfMemory => return Err(NoMemory),
        Err(_) => {
            return Ok(Words {
                place: None,
                command,
            });
        }
    };
    let _ = args.next();
    let place = args.next();
    for word in args {
        command.push(word)?;
    }
    Ok(Words { place, command })
}

// A server waits for connections and not for more input, so its lines don't wait.
fn reply_room(keeping: Keeping) -> usize {
    match keeping {
        Keeping::AtOnce => 0,
        Keeping::Waiting | Keeping::Reading => REPLY_ROOM,
    }
}

// The status of a call, and whether its last replies were written.
#[derive(Drop)]
struct Called {
    status: u8,
    written: bool,
}

// Runs the command, and writes its last replies. Neither the reader nor the writer tells its bytes.
fn over<R: Read + Drop, W: Write, K: Keeper>(
    rt: &HostRuntime,
    words: &Vec<String>,
    reader: R,
    replies: &RefCell<W>,
    keeper: &mut K,
) -> Called {
    let mut input = StdSource::new(reader, false);
    let mut output = StdSink::new(Lent::new(replies), false);
    let mut door = TcpDoor::new(rt);
    let status = billctl(
        rt.alloc(),
        words,
        &mut input,
        &mut output,
        keeper,
        &mut door,
    );
    let written = Lent::new(replies).flush().is_ok();
    Called { status, written }
}

// The same over a writer of its own.
fn over_keeper<K: Keeper>(
    rt: &HostRuntime,
    words: &Vec<String>,
    room: usize,
    keeper: &mut K,
) -> u8 {
    let Ok(replies) = Replies::new(rt.alloc(), io::writer(rt), room) else {
        return memory_status();
    };
    let replies = RefCell::new(replies);
    let reader = Asking::new(rt.reader(), &replies);
    let called = over(rt, words, reader, &replies, keeper);
    exit_status(called.status, called.written, Ok(()))
}

// Rows in memory, for this run alone. They go with the process: to give each back first takes a part of a run's time.
fn over_memory(rt: &HostRuntime, words: &Vec<String>) -> u8 {
    let mut keeper = MemoryKeeper::new(rt.alloc());
    let status = over_keeper(rt, words, reply_room(keeping_of(words)), &mut keeper);
    forget(keeper);
    status
}

// Rows in a file that wait with the replies to them. Where they can't be kept, that is the status of the run: the replies that were
// written are those of a run that ended there. At the end the log is joined to the file; where that fails, all rows stand in both.
fn over_waiting(rt: &HostRuntime, words: &Vec<String>, keeper: SqliteKeeper) -> u8 {
    let Ok(waiting) = Waiting::new(rt.alloc(), keeper, io::writer(rt)) else {
        return memory_status();
    };
    let waiting = RefCell::new(waiting);
    let mut keeper = WaitingKeeper::new(&waiting);
    let reader = Settling {
        reader: rt.reader(),
        waiting: Lent::new(&waiting),
    };
    let called = over(rt, words, reader, &waiting, &mut keeper);
    let Ended {
        keeper,
        writer: _,
        kept,
        written,
    } = waiting.into_inner().end();
    let _ = keeper.close();
    exit_status(called.status, called.written && written, kept)
}

// Each reply is written at once, behind its row.
fn over_rows(rt: &HostRuntime, words: &Vec<String>, keeper: SqliteKeeper) -> u8 {
    let mut keeper = keeper;
    let status = over_keeper(rt, words, 0, &mut keeper);
    let _ = keeper.close();
    status
}

// Rows in a file: each is kept before its reply is written. What was answered stands in the file and its log, also where the close
// that joins them fails.
fn over_file(rt: &HostRuntime, path: String, words: &Vec<String>) -> u8 {
    match keeping_of(words) {
        Keeping::Waiting => over_waiting(rt, words, SqliteKeeper::new(rt, path)),
        Keeping::AtOnce => over_rows(rt, words, SqliteKeeper::new(rt, path)),
        Keeping::Reading => over_rows(rt, words, SqliteKeeper::of_file(rt, path)),
    }
}

// The first word is `-`, or the file that keeps the rows.
fn main(rt: HostRuntime) -> ExitCode {
    let Ok(Words { place, command }) = read_words(&rt) else {
        return ExitCode::from(memory_status());
    };
    match place {
        Some(path) if path.as_str() != "-" => ExitCode::from(over_file(&rt, path, &command)),
        _ => ExitCode::from(over_memory(&rt, &command)),
    }
}
