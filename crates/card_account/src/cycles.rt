// Closed cycles by their numbers as they are read.
ghost use Rattle.std.specs.Prelude.{◌≡◌, ◌≤◌, option_copied};
ghost use Rattle.card_events.specs.Range.{last_calendar_day};
ghost use Rattle.card_model.specs.Folds.{cycle_at};

use card_book::{Cycle, Folded};
use card_events::Num;

/// The closed cycle with a number, at most 48,576; none where it isn't closed. It doesn't allocate.
pub fn closed_cycle<'a>(folded: &Folded<'a>, cycle: Num) -> Option<&'a Cycle>
    requires { cycle ≤ last_calendar_day }
    ensures { option_copied result ≡ cycle_at cycle folded.now.book.cycles }
{
    folded.cycle(cycle.get() as u32)
}
