// The closings of cycles by their numbers as they are read.
ghost use Rattle.std.specs.Prelude.{◌≡◌, ◌≤◌, SomeIff};
ghost use Rattle.card_events.specs.Range.{last_calendar_day};
ghost use Rattle.card_events.specs.Billing.{IsCloseDay, closing};

use card_events::{Anchor, Day, Num, closing};

/// The day on which a cycle closes. None comes exactly where the cycle is 0 or closes past 2102-12-31.
pub fn closing_of(anchor: &Anchor, cycle: Num) -> Option<Day>
    requires { IsCloseDay anchor.now.close_day }
    ensures { SomeIff result ((1 ≤ cycle) × (closing anchor.now cycle ≤ last_calendar_day)) (closing anchor.now cycle) }
{
    match u32::try_from(cycle.get()) {
        Ok(cycle) => closing(*anchor, cycle),
        Err(_) => None,
    }
}
