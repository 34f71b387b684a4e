ghost use Rattle.std.specs.Prelude.{◌≡◌, ◌<◌, ℕ, Option, option_map, IfOk, OnOk, OnErr, IfSome};
ghost use Rattle.card_ports.specs.Counts.{IsCounted};
ghost use Rattle.card_ports.specs.Visits.{Visits, wire, Accepts, listening, closing};

use crate::{Failed, Link};

/// Where connections come from.
pub trait Door {
    /// A connection. It is handed back to `close`.
    type Conn: Link;

    /// The connections that are left and those that were closed, how many are out, and the port, where they are visible to clauses.
    ghost visits: { Self → Option Visits };

    /// How often the door failed. No other call counts, and faults of a connection aren't counted here.
    ghost faults: { Self → ℕ };

    /// Listens on the port. Where it fails, all is as before.
    fn listen(&mut self, port: u16) -> Result<(), Failed>
        ensures ok { OnOk result (visits self.new ≡ option_map (listening port) (visits self.old)) }
        ensures err { OnErr result (visits self.new ≡ visits self.old) }
        ensures counts { IsCounted (faults self.old) (faults self.new) result };

    /// The first connection that is left, which has counted no fault. Where it fails, all is as before.
    fn accept(&mut self) -> Result<Self::Conn, Failed>
        ensures ok { IfOk result (λ c. Accepts (visits self.old) (visits self.new) (wire Self.Conn.Source.left Self.Conn.Sink.taken Self.Conn.Source.faults c)) }
        ensures fresh { IfOk result (λ c. Self.Conn.Source.faults c ≡ 0) }
        ensures err { OnErr result (visits self.new ≡ visits self.old) }
        ensures counts { IsCounted (faults self.old) (faults self.new) result };

    /// Puts the connection behind those that were closed. It doesn't allocate and can't fail.
    fn close(&mut self, conn: Self::Conn)
        requires out { IfSome (visits self.old) (λ v. 0 < v.out) }
        ensures closed { visits self.new ≡ option_map (closing (wire Self.Conn.Source.left Self.Conn.Sink.taken Self.Conn.Source.faults conn)) (visits self.old) }
        ensures count { faults self.new ≡ faults self.old };
}
