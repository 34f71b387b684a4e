// A connection and a door in memory.
ghost use Rattle.std.specs.Prelude.{◌≡◌};

use crate::calls::Calls;
use crate::memory::copy_front;
use crate::{Failed, Link, Sink, SinkFault, Source};
use std::alloc::Global;
use std::marker::Model;

/// A connection in memory: bytes that are read from the front, and bytes that are written at the end.
#[derive(Drop)]
pub struct MemoryLink {
    bytes: Vec<u8>,
    at: usize,
    taken: Vec<u8>,
    calls: Calls,
}

impl Model for MemoryLink {
    ghost use Rattle.std.specs.Prelude.{◌≤◌, drop, length};
    ghost use Rattle.card_ports.specs.Forms.{Line};

    ghost Value = { Line };

    ghost view = { λ l. record { left = drop l.at l.bytes.items; taken = l.taken.items; calls = l.calls } };

    ghost invariant = { λ l. l.at ≤ length l.bytes.items };
}

impl MemoryLink {
    ghost use Rattle.std.specs.Prelude.{◌≡◌, []};
    ghost use Rattle.card_ports.specs.Forms.{no_calls};

    /// A connection with these bytes left, which took none. Its calls, reads and writes together, fail where they are listed.
    pub fn new(alloc: Global, bytes: Vec<u8>, fails: Vec<u64>) -> MemoryLink
        ensures { result ≡ record { left = bytes.items; taken = []; calls = no_calls fails.items } }
    {
        MemoryLink {
            bytes,
            at: 0,
            taken: Vec::new(alloc),
            calls: Calls::new(fails),
        }
    }

    /// The bytes that are left.
    pub fn left(&self) -> &[u8]
        ensures { result.now ≡ self.now.left }
    {
        &self.bytes[self.at..]
    }

    /// The bytes that were taken.
    pub fn taken(&self) -> &[u8]
        ensures { result.now ≡ self.now.taken }
    {
        &self.taken
    }
}

impl Source for MemoryLink {
    ghost use Rattle.std.specs.Prelude.{◌≡◌, ◌↔◌, ◌≤◌, ◌<◌, true, IsErr, IfOk, OnOk, OnErr, Some, length};
    ghost use Rattle.std.specs.Io.KnownBytes.{ReadConsumes};
    ghost use Rattle.card_ports.specs.Counts.{Rose};
    ghost use Rattle.card_ports.specs.Bytes.{SameTold};
    ghost use Rattle.card_ports.specs.Forms.{fails_next, after_call};

    ghost left = { λ l. Some l.left };

    ghost beside = { λ l. Some l.taken };

    ghost faults = { λ l. l.calls.faults };

    fn read(&mut self, buf: &mut [u8]) -> Result<usize, Failed>
        ensures within { IfOk result (λ n. n ≤ length buf.new) }
        ensures bytes { ReadConsumes (Some self.old.left) (Some self.new.left) result buf.new }
        ensures told { SameTold (Some self.old.left) (Some self.new.left) }
        ensures beside { Some self.new.taken ≡ Some self.old.taken }
        ensures count { self.old.calls.faults ≤ self.new.calls.faults }
        ensures unfailed { OnOk result (self.new.calls.faults ≡ self.old.calls.faults) }
        ensures cause { OnErr result (Rose self.old.calls.faults self.new.calls.faults) }

        // It fails at the listed calls, and counts that.
        ensures fails { (fails_next self.old.calls ≡ true) ↔ IsErr result }
        ensures calls { self.new.calls ≡ after_call self.old.calls }
    {
        if self.calls.fails_now() {
            return Err(Failed);
        }
        let n = copy_front(&self.bytes[self.at..], buf);
        self.at += n;
        Ok(n)
    }
}

impl Sink for MemoryLink {
    ghost use Rattle.std.specs.Prelude.{◌≡◌, ◌↔◌, ◌≤◌, ◌<◌, true, IfOk, OnOk, IsErrOf, Some, length};
    ghost use Rattle.std.specs.Io.KnownBytes.{WriteAppends};
    ghost use Rattle.card_ports.specs.Counts.{Rose};
    ghost use Rattle.card_ports.specs.Bytes.{SameTold};
    ghost use Rattle.card_ports.specs.Forms.{fails_next, after_call};

    ghost taken = { λ l. Some l.taken };

    ghost beside = { λ l. Some l.left };

    ghost faults = { λ l. l.calls.faults };

    fn write(&mut self, bytes: &[u8]) -> Result<usize, SinkFault>
        ensures within { IfOk result (λ n. n ≤ length bytes.now) }
        ensures some { IfOk result (λ n. 0 < length bytes.now → 0 < n) }
        ensures bytes { WriteAppends (Some self.old.taken) (Some self.new.taken) result bytes.now }
        ensures told { SameTold (Some self.old.taken) (Some self.new.taken) }
        ensures beside { Some self.new.left ≡ Some self.old.left }
        ensures count { self.old.calls.faults ≤ self.new.calls.faults }
        ensures unfailed { OnOk result (self.new.calls.faults ≡ self.old.calls.faults) }
        ensures cause { IsErrOf result SinkFault.Failed → Rose self.old.calls.faults self.new.calls.faults }
        ensures memory { IsErrOf result SinkFault.Memory → self.new.calls.faults ≡ self.old.calls.faults }

        // It takes all, fails at the listed calls, and counts these alone.
        ensures all { IfOk result (λ n. n ≡ length bytes.now) }
        ensures fails { (fails_next self.old.calls ≡ true) ↔ IsErrOf result SinkFault.Failed }
        ensures calls { self.new.calls ≡ after_call self.old.calls }
    {
        if self.calls.fails_now() {
            return Err(SinkFault::Failed);
        }
        match self.taken.extend_from_slice(bytes) {
            Ok(()) => Ok(bytes.len()),
            Err(_) => Err(SinkFault::Memory),
        }
    }
}

impl Link for MemoryLink {
    ghost use Rattle.std.specs.Prelude.{refl};

    ghost reads = { λ l. refl };

    ghost writes = { λ l. refl };

    ghost counts = { λ l. refl };
}
