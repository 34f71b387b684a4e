// Connections over TCP: the trusted edge. Nothing of them is visible to clauses.
ghost use Rattle.std.specs.Prelude.{◌≡◌, None, ℕ};

use crate::memory::copy_front;
use crate::{Door, Failed, Link, Sink, SinkFault, Source};
use std::io::{self, ErrorKind, Read, Write};
use std::net::{Ipv4Addr, Net, OpenListener, OpenStream, Shutdown, TcpListener};
use std::time::{Clock, Duration, Instant};

// How many seconds a connection has from when it is accepted.
const SECONDS: u64 = 30;

// How many seconds `close` waits at most for what the other side still sends.
const LINGER_SECONDS: u64 = 1;

// How often `close` reads, at most `KEPT` bytes each time.
const LINGER_READS: u32 = 1024;

// How many bytes a connection reads at once: the whole request, mostly. Each connection begins with so many zeros, and they move with
// it.
const KEPT: usize = 1024;

// How many connections that were broken off `accept` passes over.
const ABORTED: u32 = 1024;

// How long a read or a write waits before it looks again how much time is left, in milliseconds. It is less than the second that
// `close` waits, so that the limit that was set before the first read mostly serves to the end.
const TURN_MILLIS: u64 = 500;

// How many turns without a byte, and interruptions by signals, one read or write continues after: 30 seconds have sixty turns.
const TURNS: u32 = 1024;

// What is left until the deadline. No time left is an error, since a wait of no time would be one without end.
fn time_left<R: Clock>(clock: &R, deadline: Instant) -> io::Result<Duration> {
    let left = deadline.saturating_duration_since(Instant::now(clock)?);
    if left < Duration::from_micros(1) {
        return Err(io::Error::from(ErrorKind::TimedOut));
    }
    Ok(left)
}

// How long the next turn may be: no longer than what is left until the deadline.
fn next_turn<R: Clock>(clock: &R, deadline: Instant) -> io::Result<Duration> {
    let left = time_left(clock, deadline)?;
    let turn = Duration::from_millis(TURN_MILLIS);
    if left < turn { Ok(left) } else { Ok(turn) }
}

// Whether a read or a write continues after this error: its turn is over, or a signal interrupted it, as when a stopped program
// continues.
fn goes_on(kind: ErrorKind) -> bool {
    kind == ErrorKind::Interrupted || kind == ErrorKind::WouldBlock || kind == ErrorKind::TimedOut
}

// Whether this is the limit of a socket's waits.
fn is_set(limit: Option<Duration>, turn: Duration) -> bool {
    match limit {
        Some(before) => before == turn,
        None => false,
    }
}

// The moment that comes so many seconds later.
fn deadline_in<R: Clock>(clock: &R, seconds: u64) -> io::Result<Instant> {
    match Instant::now(clock)?.checked_add(Duration::from_secs(seconds)) {
        Some(deadline) => Ok(deadline),
        None => Err(io::Error::from(ErrorKind::TimedOut)),
    }
}

/// A connection over TCP. It has one deadline, and each read and write waits for no more than what is left until then, so a
/// client that sends a byte now and then is cut too. What is read from the socket and not asked for yet, at most 1,024
/// bytes, is kept here. Each error is a fault, and so is a write that takes nothing of a piece that isn't empty.
///
/// A socket keeps the limit of its waits. It is half a second from before the first read on, and the same of writes; before each later
/// one the time that is left is looked at, and the limit is set anew only where less than that is left. A wait that reaches its limit
/// begins again. So none goes past the deadline, and none begins behind it.
#[derive(Drop)]
pub struct TcpLink<'a, R: Net + Clock> {
    clock: &'a R,
    stream: R::Stream,
    deadline: Instant,
    read_limit: Option<Duration>,
    write_limit: Option<Duration>,
    kept: [u8; KEPT],
    at: usize,
    end: usize,
    faults: u64,
}

impl<'a, R: Net + Clock> TcpLink<'a, R> {
    ghost use Rattle.std.specs.Prelude.{◌≡◌, ◌≤◌, length, IfOk};

    fn new(clock: &'a R, stream: R::Stream) -> io::Result<TcpLink<'a, R>>
        ensures { IfOk result (λ link. link.faults ≡ 0) }
    {
        let deadline = deadline_in(clock, SECONDS)?;
        Ok(TcpLink {
            clock,
            stream,
            deadline,
            read_limit: None,
            write_limit: None,
            kept: [0; KEPT],
            at: 0,
            end: 0,
            faults: 0,
        })
    }

    // Reads what has come, where all that was kept is given.
    fn fill(&mut self) -> io::Result<()>
        ensures { self.new.faults ≡ self.old.faults }
    {
        if self.at < self.end {
            return Ok(());
        }
        self.end = self.receive(self.deadline)?;
        self.at = 0;
        Ok(())
    }

    // Has the next read wait for a turn, and no longer than until the deadline.
    fn begin_read(&mut self, deadline: Instant) -> io::Result<()>
        ensures { self.new.faults ≡ self.old.faults }
    {
        let turn = next_turn(self.clock, deadline)?;
        if !is_set(self.read_limit, turn) {
            self.stream.set_read_timeout(Some(turn))?;
            self.read_limit = Some(turn);
        }
        Ok(())
    }

    // The same of the next write, by the deadline of the connection.
    fn begin_write(&mut self) -> io::Result<()>
        ensures { self.new.faults ≡ self.old.faults }
    {
        let turn = next_turn(self.clock, self.deadline)?;
        if !is_set(self.write_limit, turn) {
            self.stream.set_write_timeout(Some(turn))?;
            self.write_limit = Some(turn);
        }
        Ok(())
    }

    // Waits for what comes, until the deadline.
    fn receive(&mut self, deadline: Instant) -> io::Result<usize>
        ensures { self.new.faults ≡ self.old.faults }
    {
        for _ in 0..TURNS {
            self.begin_read(deadline)?;
            match self.stream.read(&mut self.kept) {
                Err(error) if goes_on(error.kind()) => {}
                result => return result,
            }
        }
        Err(io::Error::from(ErrorKind::TimedOut))
    }

    // Gives as much of what is kept as the buffer has room for.
    fn give(&mut self, buf: &mut [u8]) -> usize
        ensures within { result ≤ length buf.new }
        ensures count { self.new.faults ≡ self.old.faults }
    {
        let kept = self.kept.get(self.at..self.end).unwrap_or(&[]);
        let n = copy_front(kept, buf);
        self.at = self.at.saturating_add(n);
        n
    }

    // Writes what is taken.
    fn send(&mut self, bytes: &[u8]) -> io::Result<usize>
        ensures within { IfOk result (λ n. n ≤ length bytes.now) }
        ensures count { self.new.faults ≡ self.old.faults }
    {
        for _ in 0..TURNS {
            self.begin_write()?;
            match self.stream.write(bytes) {
                Err(error) if goes_on(error.kind()) => {}
                result => return result,
            }
        }
        Err(io::Error::from(ErrorKind::TimedOut))
    }

    // Says that no more is written, and reads a bounded rest: a socket that is closed over bytes that weren't read may lose
    // what was written last.
    fn finish(&mut self) -> io::Result<()> {
        self.stream.shutdown(Shutdown::Write)?;
        let deadline = deadline_in(self.clock, LINGER_SECONDS)?;
        for _ in 0..LINGER_READS {
            if self.receive(deadline)? == 0 {
                return Ok(());
            }
        }
        Ok(())
    }
}

impl<'a, R: Net + Clock> Source for TcpLink<'a, R> {
    ghost left = { λ c. None };

    ghost faults = { λ c. c.faults };

    fn read(&mut self, buf: &mut [u8]) -> Result<usize, Failed> {
        match self.fill() {
            Ok(()) => Ok(self.give(buf)),
            Err(_) => {
                self.faults = self.faults.saturating_add(1);
                Err(Failed)
            }
        }
    }
}

impl<'a, R: Net + Clock> Sink for TcpLink<'a, R> {
    ghost taken = { λ c. None };

    ghost faults = { λ c. c.faults };

    fn write(&mut self, bytes: &[u8]) -> Result<usize, SinkFault> {
        match self.send(bytes) {
            Ok(n) if n > 0 || bytes.is_empty() => Ok(n),
            _ => {
                self.faults = self.faults.saturating_add(1);
                Err(SinkFault::Failed)
            }
        }
    }
}

impl<'a, R: Net + Clock> Link for TcpLink<'a, R> {
    ghost use Rattle.std.specs.Prelude.{refl};

    ghost reads = { λ c. refl };

    ghost writes = { λ c. refl };

    ghost counts = { λ c. refl };
}

// The next connection. Those that the other side broke off before are passed over.
fn next_stream<R: Net>(listener: &R::Listener) -> io::Result<R::Stream> {
    for _ in 0..ABORTED {
        match listener.accept() {
            Ok((stream, _)) => return Ok(stream),
            Err(error) if error.kind() == ErrorKind::ConnectionAborted => {}
            Err(error) => return Err(error),
        }
    }
    Err(io::Error::from(ErrorKind::ConnectionAborted))
}

/// Connections over TCP, to a port of this machine's loopback (127.0.0.1) alone. Each has 30 seconds from when it is
/// accepted. Each error of the network and of the clock is a fault, and so is an `accept` before a `listen` that was Ok.
#[derive(Drop)]
pub struct TcpDoor<'a, R: Net + Clock> {
    system: &'a R,
    listener: Option<R::Listener>,
    faults: u64,
}

impl<'a, R: Net + Clock> TcpDoor<'a, R> {
    ghost use Rattle.std.specs.Prelude.{◌≡◌, IfOk};

    /// A door that doesn't listen yet, with no fault counted.
    pub fn new(system: &'a R) -> TcpDoor<'a, R>
        ensures faults { result.faults ≡ 0 }
    {
        TcpDoor {
            system,
            listener: None,
            faults: 0,
        }
    }

    fn next_link(&self) -> io::Result<TcpLink<'a, R>>
        ensures { IfOk result (λ link. link.faults ≡ 0) }
    {
        match &self.listener {
            Some(listener) => TcpLink::new(self.system, next_stream::<R>(listener)?),
            None => Err(io::Error::from(ErrorKind::NotConnected)),
        }
    }
}

impl<'a, R: Net + Clock> Door for TcpDoor<'a, R> {
    type Conn = TcpLink<'a, R>;

    ghost visits = { λ d. None };

    ghost faults = { λ d. d.faults };

    fn listen(&mut self, port: u16) -> Result<(), Failed> {
        match TcpListener::bind(self.system, (Ipv4Addr::LOCALHOST, port)) {
            Ok(listener) => {
                self.listener = Some(listener);
                Ok(())
            }
            Err(_) => {
                self.faults = self.faults.saturating_add(1);
                Err(Failed)
            }
        }
    }

    fn accept(&mut self) -> Result<TcpLink<'a, R>, Failed> {
        match self.next_link() {
            Ok(link) => Ok(link),
            Err(_) => {
                self.faults = self.faults.saturating_add(1);
                Err(Failed)
            }
        }
    }

    fn close(&mut self, conn: TcpLink<'a, R>) {
        let mut link = conn;
        let _ = link.finish();
    }
}
