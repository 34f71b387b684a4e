// The demonstration.
ghost use Rattle.std.specs.Prelude.{Some};
ghost use Rattle.card_demo.specs.Summary.{demo_text};
ghost use Rattle.card_commands.specs.Views.{Told};
ghost use Rattle.card_ports.specs.Written.{sink_side};

use crate::ended::Ended;
use crate::tell::write_told;
use card_demo::demo_text;
use card_events::NoMemory;
use card_ports::Sink;
use card_words::Demonstration;
use std::alloc::Global;

/// Writes the replies to the generated requests of a demonstration. Their ledger is its own, so no keeper is asked.
pub fn demo<O: Sink>(alloc: Global, size: &Demonstration, output: &mut O) -> Ended
    ensures { let at = sink_side O.taken O.faults in
        Told (at output.old) (at output.new) (Some (demo_text size.now.start size.now.accounts size.now.cycles)) result }
{
    match demo_text(alloc, size) {
        Ok(text) => write_told(output, text.as_str()),
        Err(NoMemory) => Ended::Memory,
    }
}
