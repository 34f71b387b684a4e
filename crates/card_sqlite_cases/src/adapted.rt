// The top call over rows in a SQLite database in memory, and over a reader and a writer of std.
ghost use Rattle.std.specs.Prelude.{None, if◌then◌else◌};
ghost use Rattle.std.specs.Io.Buffered.{writer_contents};
ghost use Rattle.card_sqlite.specs.Told.{told_in_memory};
ghost use Rattle.card_commands.specs.World.{Answered, world};

use card_commands::billctl;
use card_ports::{Door, Replies, StdSink, StdSource};
use card_sqlite::StoreKeeper;
use sqlite::MemStore;
use std::alloc::Global;
use std::io::{Read, Write};

/// `billctl` over a reader and a writer of std, as `main` has them except for the operating system's: its clause, with what the reader
/// has left and what the writer holds with the replies that wait before it, where they are said to show it. So nothing is lost, added
/// or changed by the adapters between the bytes of std and the lines and replies of the ledger.
pub fn billctl_over_std<R: Read, W: Write + Drop, D: Door>(
    alloc: Global,
    words: &[String],
    input: &mut StdSource<R>,
    output: &mut StdSink<Replies<W>>,
    keeper: &mut StoreKeeper<MemStore>,
    door: &mut D,
) -> u8
    ensures { let at = world (λ s. if s.told then R.remaining s.reader else None) (λ s. s.faults) (λ s. if s.told then writer_contents W.contents s.writer.writer else None) (λ s. s.faults) (λ k. told_in_memory k.conn) (λ k. k.faults) D.visits D.faults in
        Answered (at input.old output.old keeper.old door.old) (at input.new output.new keeper.new door.new) words.now result }
{
    billctl(alloc, words, input, output, keeper, door)
}
