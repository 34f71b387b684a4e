// One byte of a connection.
ghost use Rattle.std.specs.Prelude.{[], ◌∷◌, IfOk, IfErr};
ghost use Rattle.card_ports.specs.Visits.{wire};
ghost use Rattle.card_wire.specs.Links.{Read, Stopped};

use crate::stop::Stop;
use card_ports::{Failed, Link};

/// Reads the next byte, and no other.
pub fn read_byte<C: Link>(link: &mut C) -> Result<u8, Stop>
    ensures ok { let at = wire C.Source.left C.Sink.taken C.Source.faults in IfOk result (λ b. Read (at link.old) (at link.new) (b ∷ [])) }
    ensures err { let at = wire C.Source.left C.Sink.taken C.Source.faults in IfErr result (Stopped (at link.old) (at link.new) []) }
{
    let mut byte = [0; 1];
    match link.read(&mut byte) {
        Ok(0) => Err(Stop::Ended),
        Ok(_) => Ok(byte[0]),
        Err(Failed) => Err(Stop::Failed),
    }
}
