// Forms in memory.
ghost use Rattle.std.specs.Prelude.{◌≡◌, ◌≤◌, ◌<◌, length, take, []};

use crate::calls::Calls;
use crate::{Failed, Sink, SinkFault, Source};
use std::alloc::Global;
use std::marker::Model;

// Copies as much of the bytes as the buffer has room for.
pub(crate) fn copy_front(bytes: &[u8], buf: &mut [u8]) -> usize
    ensures within { result ≤ length buf.new }
    ensures some { result ≤ length bytes.now }
    ensures front { take result buf.new ≡ take result bytes.now }
    ensures end { result ≡ 0 → 0 < length buf.new → bytes.now ≡ [] }
{
    let n = buf.len().min(bytes.len());
    buf[..n].copy_from_slice(&bytes[..n]);
    n
}

/// Bytes in memory, read from the front.
#[derive(Drop)]
pub struct MemorySource {
    bytes: Vec<u8>,
    at: usize,
    calls: Calls,
}

impl Model for MemorySource {
    ghost use Rattle.std.specs.Prelude.{◌≤◌, drop, length};
    ghost use Rattle.card_ports.specs.Forms.{Supply};

    ghost Value = { Supply };

    ghost view = { λ s. record { left = drop s.at s.bytes.items; calls = s.calls } };

    ghost invariant = { λ s. s.at ≤ length s.bytes.items };
}

impl MemorySource {
    ghost use Rattle.std.specs.Prelude.{◌≡◌};
    ghost use Rattle.card_ports.specs.Forms.{no_calls};

    /// A source of these bytes, whose listed reads fail.
    pub fn new(bytes: Vec<u8>, fails: Vec<u64>) -> MemorySource
        ensures { result ≡ record { left = bytes.items; calls = no_calls fails.items } }
    {
        MemorySource {
            bytes,
            at: 0,
            calls: Calls::new(fails),
        }
    }

    /// The bytes that are left.
    pub fn left(&self) -> &[u8]
        ensures { result.now ≡ self.now.left }
    {
        &self.bytes[self.at..]
    }
}

impl Source for MemorySource {
    ghost use Rattle.std.specs.Prelude.{◌≡◌, ◌↔◌, ◌≤◌, ◌<◌, true, IsErr, IfOk, OnOk, OnErr, Some, length};
    ghost use Rattle.std.specs.Io.KnownBytes.{ReadConsumes};
    ghost use Rattle.card_ports.specs.Counts.{Rose};
    ghost use Rattle.card_ports.specs.Bytes.{SameTold};
    ghost use Rattle.card_ports.specs.Forms.{fails_next, after_call};

    ghost left = { λ s. Some s.left };

    ghost faults = { λ s. s.calls.faults };

    fn read(&mut self, buf: &mut [u8]) -> Result<usize, Failed>
        ensures within { IfOk result (λ n. n ≤ length buf.new) }
        ensures bytes { ReadConsumes (Some self.old.left) (Some self.new.left) result buf.new }
        ensures told { SameTold (Some self.old.left) (Some self.new.left) }
        ensures count { self.old.calls.faults ≤ self.new.calls.faults }
        ensures unfailed { OnOk result (self.new.calls.faults ≡ self.old.calls.faults) }
        ensures cause { OnErr result (Rose self.old.calls.faults self.new.calls.faults) }

        // It fails at the listed calls, and counts that.
        ensures fails { (fails_next self.old.calls ≡ true) ↔ IsErr result }
        ensures calls { self.new.calls ≡ after_call self.old.calls }
    {
        if self.calls.fails_now() {
            return Err(Failed);
        }
        let n = copy_front(&self.bytes[self.at..], buf);
        self.at += n;
        Ok(n)
    }
}

/// Bytes in memory, written at the end.
#[derive(Drop)]
pub struct MemorySink {
    bytes: Vec<u8>,
    calls: Calls,
}

impl Model for MemorySink {
    ghost use Rattle.card_ports.specs.Forms.{Store};

    ghost Value = { Store };

    ghost view = { λ s. record { taken = s.bytes.items; calls = s.calls } };
}

impl MemorySink {
    ghost use Rattle.std.specs.Prelude.{◌≡◌, []};
    ghost use Rattle.card_ports.specs.Forms.{no_calls};

    /// A sink that holds nothing, whose listed writes fail.
    pub fn new(alloc: Global, fails: Vec<u64>) -> MemorySink
        ensures { result ≡ record { taken = []; calls = no_calls fails.items } }
    {
        MemorySink {
            bytes: Vec::new(alloc),
            calls: Calls::new(fails),
        }
    }

    /// The bytes that were taken.
    pub fn taken(&self) -> &[u8]
        ensures { result.now ≡ self.now.taken }
    {
        &self.bytes
    }
}

impl Sink for MemorySink {
    ghost use Rattle.std.specs.Prelude.{◌≡◌, ◌↔◌, ◌≤◌, ◌<◌, true, IfOk, OnOk, IsErrOf, Some, length};
    ghost use Rattle.std.specs.Io.KnownBytes.{WriteAppends};
    ghost use Rattle.card_ports.specs.Counts.{Rose};
    ghost use Rattle.card_ports.specs.Bytes.{SameTold};
    ghost use Rattle.card_ports.specs.Forms.{fails_next, after_call};

    ghost taken = { λ s. Some s.taken };

    ghost faults = { λ s. s.calls.faults };

    fn write(&mut self, bytes: &[u8]) -> Result<usize, SinkFault>
        ensures within { IfOk result (λ n. n ≤ length bytes.now) }
        ensures some { IfOk result (λ n. 0 < length bytes.now → 0 < n) }
        ensures bytes { WriteAppends (Some self.old.taken) (Some self.new.taken) result bytes.now }
        ensures told { SameTold (Some self.old.taken) (Some self.new.taken) }
        ensures count { self.old.calls.faults ≤ self.new.calls.faults }
        ensures unfailed { OnOk result (self.new.calls.faults ≡ self.old.calls.faults) }
        ensures cause { IsErrOf result SinkFault.Failed → Rose self.old.calls.faults self.new.calls.faults }
        ensures memory { IsErrOf result SinkFault.Memory → self.new.calls.faults ≡ self.old.calls.faults }

        // It takes all, fails at the listed calls, and counts these alone.
        ensures all { IfOk result (λ n. n ≡ length bytes.now) }
        ensures fails { (fails_next self.old.calls ≡ true) ↔ IsErrOf result SinkFault.Failed }
        ensures calls { self.new.calls ≡ after_call self.old.calls }
    {
        if self.calls.fails_now() {
            return Err(SinkFault::Failed);
        }
        match self.bytes.extend_from_slice(bytes) {
            Ok(()) => Ok(bytes.len()),
            Err(_) => Err(SinkFault::Memory),
        }
    }
}
