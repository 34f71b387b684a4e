ghost use Rattle.std.specs.Prelude.{◌≡◌};
ghost use Rattle.card_model.specs.Interest.{case_in};
ghost use Rattle.card_model.specs.Segments.{is_deferred_in};

use crate::GraceCase;
use card_events::Day;
use card_model::{Segment, Sort};

/// Whether it is a deferred balance on a day of its plan's period (12 CFR 1026.55(b)(1), comment 55(b)(1)-3).
pub fn is_deferred(segment: &Segment, day: Day) -> bool
    ensures { result ≡ is_deferred_in day segment.now }
{
    let Sort::Deferred = segment.sort else {
        return false;
    };
    let Some(end) = segment.ends else {
        return false;
    };
    segment.begins <= day && day <= end
}

/// How a segment bears interest on a day (12 CFR 1026.54), where purchases do so in this way: a deferred balance bears
/// none in its period, and any other bears it as it stands.
pub fn case_of(purchase: &GraceCase, segment: &Segment, day: Day) -> GraceCase
    ensures { result ≡ case_in purchase.now day segment.now }
{
    if let Sort::Purchase = segment.sort {
        return *purchase;
    }
    if is_deferred(segment, day) {
        GraceCase::None
    } else {
        GraceCase::Plain
    }
}
