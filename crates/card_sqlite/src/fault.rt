ghost use Rattle.std.specs.Prelude.{◌≡◌};
ghost use Rattle.card_sqlite.specs.Faults as spec;

use card_ports::KeeperFault;
use sqlite::{Error, ErrorCode};

// Only running out of memory is `Memory`.
pub(crate) fn fault_of(error: Error) -> KeeperFault
    ensures { result ≡ spec.fault_of error }
{
    match error {
        Error::SqliteFailure(ErrorCode::OutOfMemory) => KeeperFault::Memory,
        _ => KeeperFault::Failed,
    }
}
