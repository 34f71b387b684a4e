ghost use Rattle.std.specs.Prelude.{◌≡◌};
ghost use Rattle.card_events.specs.Dated as spec;

use crate::Day;

// Whether requests may have the day.
pub fn is_request_day(day: Day) -> bool
    ensures { result ≡ spec.is_request_day day }
{
    day.is_request_day()
}
