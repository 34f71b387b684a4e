// How a call ends.
ghost use Rattle.std.specs.Prelude.{◌≡◌};
ghost use Rattle.card_commands.specs.Statuses as spec;

use crate::stop::Stop;
use card_ports::SinkFault;

/// How a call ends.
#[derive(Clone, Copy)]
pub enum Ended {
    /// The input was read to its end, and no line was refused; or all connections were attended to.
    Done,
    /// The input was read to its end, and at least one line was refused.
    Refused,
    /// The words are no command.
    Usage,
    /// The source failed.
    Source,
    /// The sink failed.
    Sink,
    /// The keeper failed.
    Keeper,
    /// Memory was wanted and isn't there.
    Memory,
    /// The door failed: it didn't listen on the port, or didn't accept a connection.
    Door,
    /// The kept rows are damaged.
    Damaged,
    /// So many bytes were read, and no end came.
    Endless,
}

/// The exit status.
pub fn status_of(ended: Ended) -> u8
    ensures { result ≡ spec.status_of ended }
{
    match ended {
        Ended::Done => 0,
        Ended::Refused => 1,
        Ended::Usage => 2,
        Ended::Source => 3,
        Ended::Sink => 4,
        Ended::Keeper => 5,
        Ended::Memory => 6,
        Ended::Door => 7,
        Ended::Damaged => 8,
        Ended::Endless => 9,
    }
}

/// The end of a run that was ended early.
pub fn ended_by(stop: Stop) -> Ended
    ensures { result ≡ spec.ended_by stop }
{
    match stop {
        Stop::Source => Ended::Source,
        Stop::Sink => Ended::Sink,
        Stop::Keeper => Ended::Keeper,
        Stop::Memory => Ended::Memory,
        Stop::Endless => Ended::Endless,
    }
}

/// The end of a call that a sink's fault ended.
pub fn ended_by_sink(fault: SinkFault) -> Ended
    ensures { result ≡ spec.ended_by_sink fault }
{
    match fault {
        SinkFault::Failed => Ended::Sink,
        SinkFault::Memory => Ended::Memory,
    }
}

/// The end of a run, where Ok says whether a line was refused.
pub fn ended_of(run: Result<bool, Stop>) -> Ended
    ensures { result ≡ spec.ended_of run }
{
    match run {
        Ok(false) => Ended::Done,
        Ok(true) => Ended::Refused,
        Err(stop) => ended_by(stop),
    }
}
