// From which day on no date, Lower or penalty changes a rate, and whether there are deferred plans.
ghost use Rattle.std.specs.Prelude.{◌≡◌, IfSome};
ghost use Rattle.std.specs.List.{All};
ghost use Rattle.card_rates.specs.Settled.{AreSettled, HasBegun, has_deferred};

use crate::segment::{RateCap, RatedSegment, is_plan_sort, number_of};
use card_model::{Interval, Sort};

// The number of the day from which on a vintage bears its own rate, where no plan and no end is to change it.
fn begun_from(g: &RatedSegment) -> Option<u32>
    ensures { IfSome result (λ day. HasBegun day g.now) }
{
    if is_plan_sort(g.sort) || g.ends.is_some() {
        return None;
    }
    Some(g.begins.max(number_of(g.effective)))
}

// Of all segments.
fn all_begun_from(segments: &[RatedSegment]) -> Option<u32>
    ensures { IfSome result (λ day. All (HasBegun day) segments.now) }
{
    let mut from = 0;
    for g in segments {
        match begun_from(g) {
            Some(day) => from = day.max(from),
            None => return None,
        }
    }
    Some(from)
}

// The number of the day from which on each segment bears its own rate; None where a Lower, a penalty or a plan may change one.
pub fn settled_from(
    segments: &[RatedSegment],
    caps: &[RateCap],
    penalties: &[Interval],
) -> Option<u32>
    ensures { IfSome result (λ day. AreSettled day segments.now caps.now penalties.now) }
{
    if !caps.is_empty() || !penalties.is_empty() {
        return None;
    }
    all_begun_from(segments)
}

// Whether some segment is a deferred plan.
pub fn has_deferred(segments: &[RatedSegment]) -> bool
    ensures { result ≡ has_deferred segments.now }
{
    for g in segments {
        if g.sort == Sort::Deferred {
            return true;
        }
    }
    false
}
