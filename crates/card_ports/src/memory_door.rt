// A door in memory.
ghost use Rattle.std.specs.Prelude.{◌≡◌};

use crate::calls::Calls;
use crate::{Door, Failed, MemoryLink};
use std::alloc::{AllocError, Global};
use std::collections::VecDeque;
use std::marker::Model;

/// Connections in memory, which come one after the other.
#[derive(Drop)]
pub struct MemoryDoor {
    left: VecDeque<MemoryLink>,
    closed: Vec<MemoryLink>,
    out: usize,
    port: Option<u16>,
    calls: Calls,
}

impl Model for MemoryDoor {
    ghost use Rattle.std.specs.Prelude.{◌≤◌, ◌+◌, All, length, vec_len, vec_capacity};
    ghost use Rattle.card_ports.specs.Forms.{Entrance, IsFresh};

    ghost Value = { Entrance };

    ghost view = { λ d. record { left = d.left.items; closed = d.closed.items; out = d.out; port = d.port; calls = d.calls } };

    ghost invariant = { λ d. (vec_len d.closed + d.out + length d.left.items ≤ vec_capacity d.closed) × All IsFresh d.left.items };
}

impl MemoryDoor {
    ghost use Rattle.std.specs.Prelude.{◌≡◌, All, IfOk};
    ghost use Rattle.card_ports.specs.Forms.{new_entrance, IsFresh};

    /// A door with these connections, of which none has counted a fault. Its calls that can fail, `listen` and `accept`
    /// together, fail where they are listed; `accept` also fails, and counts it, where no connection is left. It keeps a
    /// place for each connection, so that `close` doesn't allocate. An error means that memory ran out.
    pub fn new(
        alloc: Global,
        links: Vec<MemoryLink>,
        fails: Vec<u64>,
    ) -> Result<MemoryDoor, AllocError>
        requires fresh { All IsFresh links.items }
        ensures { IfOk result (λ d. d ≡ new_entrance links.items fails.items) }
    {
        let closed = Vec::with_capacity(alloc, links.len())?;
        Ok(MemoryDoor {
            left: VecDeque::from(links),
            closed,
            out: 0,
            port: None,
            calls: Calls::new(fails),
        })
    }

    /// The connections that were closed, in order.
    pub fn closed(&self) -> &[MemoryLink]
        ensures { result.now ≡ self.now.closed }
    {
        &self.closed
    }
}

impl Door for MemoryDoor {
    ghost use Rattle.std.specs.Prelude.{◌≡◌, ◌↔◌, ◌<◌, [], ◌∷◌, ◌++◌, true, Some, IsErr, IfOk, OnOk, OnErr};
    ghost use Rattle.card_ports.specs.Counts.{IsCounted};
    ghost use Rattle.card_ports.specs.Visits.{Accepts, listening, closing};
    ghost use Rattle.card_ports.specs.Forms.{visits_of, wire_of, fails_next, after_call, fails_to_accept, after_accept};

    type Conn = MemoryLink;

    ghost visits = { λ d. Some (visits_of d) };

    ghost faults = { λ d. d.calls.faults };

    fn listen(&mut self, port: u16) -> Result<(), Failed>
        ensures ok { OnOk result (visits_of self.new ≡ listening port (visits_of self.old)) }
        ensures err { OnErr result (visits_of self.new ≡ visits_of self.old) }
        ensures counts { IsCounted self.old.calls.faults self.new.calls.faults result }

        // It fails at the listed calls, and counts that.
        ensures fails { (fails_next self.old.calls ≡ true) ↔ IsErr result }
        ensures calls { self.new.calls ≡ after_call self.old.calls }
    {
        if self.calls.fails_now() {
            return Err(Failed);
        }
        self.port = Some(port);
        Ok(())
    }

    fn accept(&mut self) -> Result<MemoryLink, Failed>
        ensures ok { IfOk result (λ link. Accepts (Some (visits_of self.old)) (Some (visits_of self.new)) (wire_of link)) }
        ensures fresh { IfOk result (λ link. link.calls.faults ≡ 0) }
        ensures err { OnErr result (visits_of self.new ≡ visits_of self.old) }
        ensures counts { IsCounted self.old.calls.faults self.new.calls.faults result }

        // It gives the connection as it is, fails at the listed calls and where none is left, and counts that.
        ensures first { IfOk result (λ link. self.old.left ≡ link ∷ self.new.left) }
        ensures fails { (fails_to_accept self.old ≡ true) ↔ IsErr result }
        ensures calls { self.new.calls ≡ after_accept self.old }
    {
        if self.calls.fails_now() {
            return Err(Failed);
        }
        match self.left.pop_front() {
            Some(link) => {
                self.out += 1;
                Ok(link)
            }
            None => {
                self.calls.count_fault();
                Err(Failed)
            }
        }
    }

    fn close(&mut self, conn: MemoryLink)
        requires out { 0 < self.old.out }
        ensures closed { visits_of self.new ≡ closing (wire_of conn) (visits_of self.old) }

        // The connection is kept as it is, and no call that can fail was made.
        ensures last { self.new.closed ≡ self.old.closed ++ conn ∷ [] }
        ensures calls { self.new.calls ≡ self.old.calls }
    {
        self.out -= 1;
        self.closed.push_reserved(conn);
    }
}
