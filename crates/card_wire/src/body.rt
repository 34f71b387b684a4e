// The body of a request, byte by byte.
ghost use Rattle.std.specs.Prelude.{◌≡◌, ◌<◌, ◌≤◌, [], length, OnOk, OnErr, IfErr};
ghost use Rattle.card_ports.specs.Visits.{wire};
ghost use Rattle.card_wire.specs.Links.{Read, Stopped};
ghost use Rattle.card_wire.specs.Wants.{body_limit};

use crate::byte::read_byte;
use crate::stop::Stop;
use arrayvec::ArrayVec;
use card_ports::Link;

/// A body has at most so many bytes.
pub const BODY_LIMIT: usize = 16384;

/// Reads so many bytes, and no byte behind them.
pub fn read_body<C: Link>(
    link: &mut C,
    body: &mut ArrayVec<u8, BODY_LIMIT>,
    count: usize,
) -> Result<(), Stop>
    requires empty { body.old.items ≡ [] }
    requires few { count ≤ body_limit }
    ensures ok { let at = wire C.Source.left C.Sink.taken C.Source.faults in OnOk result (Read (at link.old) (at link.new) body.new.items) }
    ensures whole { OnOk result (length body.new.items ≡ count) }
    ensures err { let at = wire C.Source.left C.Sink.taken C.Source.faults in IfErr result (Stopped (at link.old) (at link.new) body.new.items) }
    ensures part { OnErr result (length body.new.items < count) }
{
    while body.len() < count {
        let byte = read_byte(link)?;
        body.push(byte);
    }
    Ok(())
}
