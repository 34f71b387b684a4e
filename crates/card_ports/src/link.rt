ghost use Rattle.std.specs.Prelude.{◌≡◌};

use crate::{Sink, Source};

/// What is both read from and written to, as a connection. A read leaves the bytes that it took as they are, and a write
/// those that are left; both count their faults in one count.
pub trait Link: Source + Sink {
    ghost reads: { (c : Self) → Self.Source.beside c ≡ Self.Sink.taken c };

    ghost writes: { (c : Self) → Self.Sink.beside c ≡ Self.Source.left c };

    ghost counts: { (c : Self) → Self.Source.faults c ≡ Self.Sink.faults c };
}
