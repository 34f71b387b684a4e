// What a run over a file keeps, and the exit status of a whole run.
ghost use Rattle.std.specs.Prelude.{◌≡◌, map};
ghost use Rattle.std.specs.String.{string_bytes};
ghost use Rattle.card_words.specs.Commands.{command_of};
ghost use Rattle.card_commands.specs.Exit as spec;

use crate::ended::{Ended, status_of};
use card_ports::KeeperFault;
use card_words::{Command, command_of};

/// How a command keeps its rows in a file.
#[derive(Clone, Copy)]
pub enum Keeping {
    /// Rows wait with the replies to them, and many are kept by one commit. A file that is missing is made.
    Waiting,
    /// Each row is kept before its reply is written. A file that is missing is made.
    AtOnce,
    /// No row is added. The file has to be there.
    Reading,
}

/// How the command that the words are keeps its rows; words that are none keep none.
pub fn keeping_of(words: &[String]) -> Keeping
    ensures { result ≡ spec.keeping_of (command_of (map string_bytes words.now)) }
{
    kept_by(&command_of(words))
}

fn kept_by(command: &Option<Command>) -> Keeping
    ensures { result ≡ spec.keeping_of command.now }
{
    match command {
        Some(Command::Apply) => Keeping::Waiting,
        Some(Command::Import) => Keeping::Waiting,
        Some(Command::Trial { .. }) => Keeping::Waiting,
        Some(Command::Serve { .. }) => Keeping::AtOnce,
        _ => Keeping::Reading,
    }
}

// Whether a status says that each reply stands.
fn says_all_stand(status: u8) -> bool
    ensures { result ≡ spec.says_all_stand status }
{
    status <= status_of(Ended::Refused)
        || status == status_of(Ended::Source)
        || status == status_of(Ended::Endless)
}

/// The exit status of a run, from that of its call, whether its last replies were written, and whether the rows were kept that
/// waited at its end. Rows that weren't kept come first (5, or 6 where memory ran out); replies that weren't written (4) where the
/// call's status says that each stands; else it is the call's.
pub fn exit_status(status: u8, written: bool, rows: Result<(), KeeperFault>) -> u8
    ensures { result ≡ spec.exit_status status written rows }
{
    match rows {
        Ok(()) if !written && says_all_stand(status) => status_of(Ended::Sink),
        Ok(()) => status,
        Err(KeeperFault::Failed) => status_of(Ended::Keeper),
        Err(KeeperFault::Memory) => status_of(Ended::Memory),
    }
}

/// The exit status where memory is wanted before the call.
pub fn memory_status() -> u8
    ensures { result ≡ 6 }
{
    status_of(Ended::Memory)
}
