// The top call over rows in a SQLite database in memory.
ghost use Rattle.std.specs.Prelude.{map};
ghost use Rattle.std.specs.String.{string_bytes};
ghost use Rattle.card_words.specs.Commands.{command_of};
ghost use Rattle.card_commands.specs.Statuses.{IsOneOf, statuses_of};
ghost use Rattle.card_sqlite.specs.Told.{told_in_memory};
ghost use Rattle.card_commands.specs.World.{Answered, world};

use card_commands::billctl;
use card_ports::{Door, Sink, Source};
use card_sqlite::StoreKeeper;
use sqlite::MemStore;
use std::alloc::Global;

/// `billctl` over a database in memory: its clause, with the rows that the database holds.
pub fn billctl_over_store<I: Source, O: Sink, D: Door>(
    alloc: Global,
    words: &[String],
    input: &mut I,
    output: &mut O,
    keeper: &mut StoreKeeper<MemStore>,
    door: &mut D,
) -> u8
    ensures outcome { let at = world I.left I.faults O.taken O.faults (λ k. told_in_memory k.conn) (λ k. k.faults) D.visits D.faults in
        Answered (at input.old output.old keeper.old door.old) (at input.new output.new keeper.new door.new) words.now result }
    ensures statuses { IsOneOf result (statuses_of (command_of (map string_bytes words.now))) }
{
    billctl(alloc, words, input, output, keeper, door)
}
