ghost use Rattle.std.specs.Prelude.{◌≡◌};
ghost use Rattle.card_sqlite.specs.Waiting as spec;

use crate::SqliteKeeper;
use crate::flush::{Lost, flush};
use crate::store::counted;
use card_ports::{Keeper, KeeperFault, MemoryKeeper, Row, Rows};
use std::alloc::Global;
use std::cell::RefCell;
use std::io::{self, Error, ErrorKind, Write};
use std::marker::Model;

// How many rows may wait for one commit, and how many bytes of replies behind them.
const ROWS: usize = 1024;

const REPLIES: usize = 8192;

/// Rows on their way to a keeper, and replies on their way to a writer of std, which wait for one another: the rows are kept by one
/// append, and the replies are written after it. So no reply is written whose row isn't kept. It comes at each `flush`; before a row
/// is taken where 1,024 wait, and behind a piece of a reply where more than 8,192 bytes of them then wait: but these two only where
/// a line feed came last, which ends a reply. So, however a reply is cut into pieces, no row is kept by one commit whose reply waits
/// for another, unless a `flush` asks for it. Where the rows can't be kept, the replies that waited go with them. After that no row
/// and no reply is taken any more; where replies couldn't be written, no reply is, and rows are kept as before.
///
/// Clauses see what is kept and written, where it is visible in keeper and writer, and what waits.
#[derive(Drop)]
pub struct Waiting<K: Keeper + Drop, W: Write + Drop> {
    alloc: Global,
    keeper: K,
    rows: MemoryKeeper,
    writer: W,
    replies: Vec<u8>,
    lost: Option<Lost>,
    is_between: bool,
}

// Whether the bytes end a reply: the last is a line feed.
fn ends_reply(bytes: &[u8]) -> bool
    ensures { result ≡ spec.ends_reply bytes.now }
{
    match bytes.last() {
        Some(byte) => *byte == b'\n',
        None => false,
    }
}

impl<K: Keeper + Drop, W: Write + Drop> Model for Waiting<K, W> {
    ghost use Rattle.card_ports.specs.Rows.{GoOn};
    ghost use Rattle.card_sqlite.specs.Waiting.{Held};

    ghost Value = { Held };

    ghost view = { λ w. record { kept = K.rows w.keeper; waiting = w.rows; written = W.contents w.writer; replies = w.replies.items; lost = w.lost; is_between = w.is_between; faults = K.faults w.keeper } };

    ghost invariant = { λ w. GoOn (K.rows w.keeper) w.rows };
}

impl<K: Keeper + Drop, W: Write + Drop> Waiting<K, W> {
    ghost use Rattle.std.specs.Prelude.{◌≡◌, ◌⊎◌, None, false, IfOk, IfErr, IfSome, OnOk, OnErr, IsTrue};
    ghost use Rattle.std.specs.Io.KnownBytes.{Appends, Keeps};
    ghost use Rattle.card_ports.specs.Rows.{AddsRows, GivesRows, GoOn, KeepsRows, SameRowsTold};
    ghost use Rattle.card_sqlite.specs.Waiting.{HasGround, KeptAll, LostFor, PartsNone, Settled, WentFor, all_bytes, all_rows, fault_in, starting};

    /// Nothing waits yet. An error says that memory was wanted and isn't there.
    #[tactic(auto, using(crate::proofs::Flushed::none_goes_on))]
    pub fn new(alloc: Global, keeper: K, writer: W) -> io::Result<Waiting<K, W>>
        ensures { IfOk result (λ w. w ≡ starting (K.rows keeper) (W.contents writer) (K.faults keeper)) }
    {
        let replies = Vec::with_capacity(alloc, 2 * REPLIES)?;
        Ok(Waiting {
            alloc,
            keeper,
            rows: MemoryKeeper::new(alloc),
            writer,
            replies,
            lost: None,
            is_between: true,
        })
    }

    // Has the rows kept and the replies written. After rows were lost none is kept. After replies were lost none waits, and rows are
    // kept as before.
    #[tactic(auto, using(crate::proofs::Flushed::keeps_same, crate::proofs::Flushed::none_goes_on))]
    fn settle(&mut self) -> Result<(), Lost>
        ensures ok { OnOk result (Settled self.old self.new) }
        ensures err { IfErr result (λ lost. WentFor lost self.old self.new) }
    {
        if let Some(Lost::Rows(fault)) = self.lost {
            return Err(Lost::Rows(fault));
        }
        let settled = flush(
            self.alloc,
            &mut self.keeper,
            &mut self.rows,
            &mut self.writer,
            &mut self.replies,
        );
        match settled {
            Ok(()) => match self.lost {
                None => Ok(()),
                Some(lost) => Err(lost),
            },
            Err(lost) => {
                self.lost = Some(lost);
                Err(lost)
            }
        }
    }

    // The fault for which rows weren't kept, if there was one.
    fn fault(&self) -> Option<KeeperFault>
        ensures { result ≡ fault_in self.now.lost }
    {
        match self.lost {
            Some(Lost::Rows(fault)) => Some(fault),
            _ => None,
        }
    }

    /// The rows of the keeper, behind which those stand that waited: they are kept first. An error is the fault of the keeper, now or
    /// when rows were lost.
    pub fn load(&mut self, alloc: Global) -> Result<Vec<Row>, KeeperFault>
        ensures given { IfOk result (λ rows. GivesRows (all_rows self.old) rows.items) }
        ensures ok { OnOk result (KeptAll self.old self.new) }
        ensures err { IfErr result (λ fault. LostFor fault self.old self.new ⊎ KeptAll self.old self.new) }
        ensures ground { IfErr result (λ fault. HasGround fault self.old self.new.faults) }
    {
        let _ = self.settle();
        match self.fault() {
            Some(fault) => Err(fault),
            None => self.keeper.load(alloc),
        }
    }

    /// The same rows, packed in one list.
    pub fn load_packed(&mut self, alloc: Global) -> Result<Rows, KeeperFault>
        ensures given { IfOk result (λ rows. GivesRows (all_rows self.old) rows) }
        ensures ok { OnOk result (KeptAll self.old self.new) }
        ensures err { IfErr result (λ fault. LostFor fault self.old self.new ⊎ KeptAll self.old self.new) }
        ensures ground { IfErr result (λ fault. HasGround fault self.old self.new.faults) }
    {
        let _ = self.settle();
        match self.fault() {
            Some(fault) => Err(fault),
            None => self.keeper.load_packed(alloc),
        }
    }

    // Has what waits kept and written where no more rows may wait, and none of them waits for its reply.
    #[tactic(auto, using(crate::proofs::Flushed::told_behind))]
    fn make_room(&mut self)
        ensures told { SameRowsTold (all_rows self.old) (all_rows self.new) }
        ensures rows { fault_in self.new.lost ≡ None → KeepsRows (all_rows self.old) (all_rows self.new) }
        ensures lost { IfSome (fault_in self.new.lost) (λ fault. LostFor fault self.old self.new) }
        ensures bytes { self.new.lost ≡ None → Keeps (all_bytes self.old) (all_bytes self.new) }
        ensures parted { PartsNone self.old self.new self.old.is_between }
    {
        if self.is_between && self.rows.rows().len() >= ROWS {
            let _ = self.settle();
        }
    }

    // Has the rows wait, behind those that are there.
    #[tactic(auto, using(crate::proofs::Flushed::goes_behind, crate::proofs::Flushed::adds_behind))]
    fn wait(&mut self, alloc: Global, more: &[Row]) -> Result<(), KeeperFault>
        requires { GoOn (all_rows self.old) more.now }
        ensures ok { OnOk result (AddsRows (all_rows self.old) (all_rows self.new) more.now) }
        ensures err { IfErr result (λ fault. (fault ≡ KeeperFault.Memory) × (self.new ≡ self.old)) }
        ensures bytes { all_bytes self.new ≡ all_bytes self.old }
        ensures lost { self.new.lost ≡ self.old.lost }
        ensures stay { (self.new.kept ≡ self.old.kept) × (self.new.written ≡ self.old.written) }
        ensures between { OnOk result (self.new.is_between ≡ false) }
    {
        match self.rows.append(alloc, more) {
            Ok(()) => {
                self.is_between = false;
                Ok(())
            }
            Err(fault) => Err(fault),
        }
    }

    /// Has the rows wait, behind those that are there. An error is the fault for which rows were lost, now or before; or `Memory`, and
    /// then nothing was lost.
    #[tactic(auto, using(crate::proofs::Flushed::goes_from, crate::proofs::Flushed::adds_from, crate::proofs::Flushed::keeps_same))]
    pub fn append(&mut self, alloc: Global, more: &[Row]) -> Result<(), KeeperFault>
        requires { GoOn (all_rows self.old) more.now }
        ensures ok { OnOk result (AddsRows (all_rows self.old) (all_rows self.new) more.now) }
        ensures err { IfErr result (λ fault. LostFor fault self.old self.new ⊎ (fault ≡ KeeperFault.Memory) × KeepsRows (all_rows self.old) (all_rows self.new)) }
        ensures bytes { self.new.lost ≡ None → Keeps (all_bytes self.old) (all_bytes self.new) }
        ensures parted { PartsNone self.old self.new self.old.is_between }
        ensures between { OnOk result (self.new.is_between ≡ false) }
    {
        self.make_room();
        match self.fault() {
            Some(fault) => Err(fault),
            None => self.wait(alloc, more),
        }
    }

    /// Has the rows kept that still wait, and the replies written, and gives keeper and writer back. An error is the fault for which
    /// rows were lost, now or before; then the keeper has the rows that it had, and the writer the bytes. Whether all replies were
    /// written: none was lost, now or before.
    pub fn end(self) -> Ended<K, W>
        ensures ok { OnOk result.kept (AddsRows self.kept (K.rows result.keeper) self.waiting) }
        ensures err { OnErr result.kept (KeepsRows self.kept (K.rows result.keeper) × (W.contents result.writer ≡ self.written)) }
        ensures ground { IfErr result.kept (λ fault. HasGround fault self (K.faults result.keeper)) }
        ensures written { IsTrue result.written → Appends self.written (W.contents result.writer) self.replies × (self.lost ≡ None) }
    {
        let mut last = self;
        let written = last.settle().is_ok();
        let kept = match last.fault() {
            Some(fault) => Err(fault),
            None => Ok(()),
        };
        let Waiting { keeper, writer, .. } = last;
        Ended {
            keeper,
            writer,
            kept,
            written,
        }
    }
}

/// Keeper and writer at the end, whether the rows were kept that waited, and whether all replies were written.
#[derive(Drop)]
pub struct Ended<K: Keeper + Drop, W: Write + Drop> {
    pub keeper: K,
    pub writer: W,
    pub kept: Result<(), KeeperFault>,
    pub written: bool,
}

impl<K: Keeper + Drop, W: Write + Drop> Write for Waiting<K, W> {
    ghost use Rattle.std.specs.Prelude.{◌≡◌, ◌⊎◌, IfOk, IfErr, OnOk, OnErr, length};
    ghost use Rattle.std.specs.Io.{WritesAtMost};
    ghost use Rattle.std.specs.Io.KnownBytes.{Appends};
    ghost use Rattle.std.specs.IoError.{error_kind};
    ghost use Rattle.card_ports.specs.Rows.{KeepsRows};
    ghost use Rattle.card_sqlite.specs.Waiting.{IsBroken, PartsNone, Settled, all_bytes, all_rows, ends_reply};

    // Takes the whole piece, and then has what waits kept and written where it is too much and the piece ends a reply. After an error
    // the piece is lost with what waited, if that was lost then or before; and alone, if memory was wanted for it.
    #[tactic(auto, using(crate::proofs::Flushed::stays_broken))]
    fn write(&mut self, bytes: &[u8]) -> io::Result<usize>
        ensures bound { WritesAtMost result bytes.now }
        ensures all { IfOk result (λ n. n ≡ length bytes.now) }
        ensures taken { OnOk result (Appends (all_bytes self.old) (all_bytes self.new) bytes.now) }
        ensures rows { OnOk result (KeepsRows (all_rows self.old) (all_rows self.new)) }
        ensures parted { PartsNone self.old self.new (ends_reply bytes.now) }
        ensures between { OnOk result (self.new.is_between ≡ ends_reply bytes.now) }
        ensures err { IfErr result (λ e. (error_kind e ≡ ErrorKind.OutOfMemory) × (self.new ≡ self.old) ⊎ IsBroken self.old self.new) }
    {
        if let Some(_) = self.lost {
            return Err(Error::from(ErrorKind::BrokenPipe));
        }
        self.replies.extend_from_slice(bytes)?;
        self.is_between = ends_reply(bytes);
        if self.is_between && self.replies.len() > REPLIES {
            self.flush()?;
        }
        Ok(bytes.len())
    }

    fn flush(&mut self) -> io::Result<()>
        ensures ok { OnOk result (Settled self.old self.new) }
        ensures err { OnErr result (IsBroken self.old self.new) }
    {
        match self.settle() {
            Ok(()) => Ok(()),
            Err(_) => Err(Error::from(ErrorKind::BrokenPipe)),
        }
    }
}

impl<W: Write + Drop> Waiting<SqliteKeeper, W> {
    ghost use Rattle.std.specs.Prelude.{◌≡◌, None};

    // The rows of a keeper over a file aren't visible to clauses.
    fn tells_none(&self)
        ensures { self.now.kept ≡ None }
    {
        let _keeper = &self.keeper;
    }

    // Has rows wait for the file.
    fn append_to_file(&mut self, alloc: Global, more: &[Row]) -> Result<(), KeeperFault> {
        self.tells_none();
        self.append(alloc, more)
    }
}

/// A keeper whose rows wait for a file with the replies to them. It fails while these are being written elsewhere. What the cell holds
/// stands in no clause, so neither do its rows.
#[derive(Drop)]
pub struct WaitingKeeper<'a, W: Write + Drop> {
    to: &'a RefCell<Waiting<SqliteKeeper, W>>,
    faults: u64,
}

impl<'a, W: Write + Drop> WaitingKeeper<'a, W> {
    ghost use Rattle.std.specs.Prelude.{◌≡◌};

    /// What is kept goes there, and no fault is counted yet.
    pub fn new(to: &'a RefCell<Waiting<SqliteKeeper, W>>) -> WaitingKeeper<'a, W>
        ensures { result.faults ≡ 0 }
    {
        WaitingKeeper { to, faults: 0 }
    }

    fn load_there(&self, alloc: Global) -> Result<Rows, KeeperFault> {
        match self.to.try_borrow_mut() {
            Ok(mut waiting) => waiting.load_packed(alloc),
            Err(_) => Err(KeeperFault::Failed),
        }
    }

    fn append_there(&self, alloc: Global, more: &[Row]) -> Result<(), KeeperFault> {
        match self.to.try_borrow_mut() {
            Ok(mut waiting) => waiting.append_to_file(alloc, more),
            Err(_) => Err(KeeperFault::Failed),
        }
    }
}

impl<'a, W: Write + Drop> Keeper for WaitingKeeper<'a, W> {
    ghost use Rattle.std.specs.Prelude.{None};

    ghost rows = { λ k. None };

    ghost faults = { λ k. k.faults };

    fn load_packed(&mut self, alloc: Global) -> Result<Rows, KeeperFault> {
        match self.load_there(alloc) {
            Ok(rows) => Ok(rows),
            Err(fault) => Err(counted(&mut self.faults, fault)),
        }
    }

    fn append(&mut self, alloc: Global, more: &[Row]) -> Result<(), KeeperFault> {
        match self.append_there(alloc, more) {
            Ok(()) => Ok(()),
            Err(fault) => Err(counted(&mut self.faults, fault)),
        }
    }
}
