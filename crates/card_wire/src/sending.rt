// Whole answers to a connection.
ghost use Rattle.std.specs.Prelude.{OnOk, IfErr};
ghost use Rattle.card_ports.specs.Visits.{wire};
ghost use Rattle.card_wire.specs.Links.{Sent, SentFront};

use card_ports::{Link, SinkFault, write_all};

/// Writes all of the bytes, or a front of them. `Failed`: the connection failed; `Memory`: memory ran out.
pub fn send<C: Link>(link: &mut C, bytes: &[u8]) -> Result<(), SinkFault>
    ensures ok { let at = wire C.Source.left C.Sink.taken C.Source.faults in OnOk result (Sent (at link.old) (at link.new) bytes.now) }
    ensures err { let at = wire C.Source.left C.Sink.taken C.Source.faults in IfErr result (SentFront (at link.old) (at link.new) bytes.now) }
{
    write_all(link, bytes)
}
