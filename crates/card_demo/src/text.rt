// A demonstration's results.
ghost use Rattle.std.specs.Prelude.{◌≡◌, IfOk};
ghost use Rattle.std.specs.String.{string_bytes};
ghost use Rattle.card_demo.specs.Summary as spec;

use crate::progress::Progress;
use crate::summary::summary_text;
use card_events::NoMemory;
use card_words::Demonstration;
use std::alloc::Global;

/// Has a ledger of its own carry out the requests of a demonstration, one after the other, and sums up, in six lines: how many
/// requests there were, were accepted and were refused; and over all accounts after the last request what is owed, and the sums
/// of all entries of interest and of fees, in units with two digits. The ledger's rows are kept in memory, and are gone with it.
#[tactic(auto, unfolding(crate::specs::Summary::demo_text))]
pub fn demo_text(alloc: Global, demo: &Demonstration) -> Result<String, NoMemory>
    ensures { IfOk result (λ text. string_bytes text ≡ spec.demo_text demo.now.start demo.now.accounts demo.now.cycles) }
{
    let accounts = demo.accounts();
    let mut progress = Progress::new(alloc, demo.start());
    progress.run(alloc, accounts, demo.cycles())?;
    let totals = progress.totals(alloc, accounts)?;
    summary_text(alloc, progress.tally(), &totals)
}
