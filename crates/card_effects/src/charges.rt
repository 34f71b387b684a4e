// The segment and the cents of a charge.
ghost use Rattle.std.specs.Prelude.{◌≡◌, ◌<◌, ◌≤◌, IfSome, List, length};
ghost use Rattle.card_events.specs.declared.kept.Kept.{Kept};
ghost use Rattle.card_effects.specs.Accounts.{AreOf, OfSeenSegments};
ghost use Rattle.card_effects.specs.Seen.{cents_of, segment_in, segment_of};

use card_events::{Day, Post};
use card_rates::{DayPost, RateBook, segment_at};
use card_segments::Segments;

// The segment of a post's place on a day, as the fold of this or a later day sees it.
fn segment_in(rates: &RateBook, segments: &Segments, post: &Post, day: Day, today: Day) -> u8
    requires { day ≤ today }
    ensures value { OfSeenSegments today segments.now.segments rates.now (λ all. result ≡ segment_in all day post.now) }
{
    match post {
        Post::Charge { place, .. } => segment_at(rates, segments, place, day, today),
        _ => 2,
    }
}

// The segment of a charge on its day, as the fold of this or a later day sees it.
pub fn segment_of(rates: &RateBook, segments: &Segments, charge: &Option<DayPost>, today: Day) -> u8
    requires { IfSome charge.now (λ p. p.slot.day ≤ today) }
    ensures value { OfSeenSegments today segments.now.segments rates.now (λ all. result ≡ segment_of all charge.now) }
    ensures low { (history : List Kept) → AreOf history segments.now.segments rates.now → 2 ≤ result }
    ensures known { (history : List Kept) → AreOf history segments.now.segments rates.now → result < length segments.now.balances }
{
    // what the length says is needed as a fact: a balance for each segment, five of them at least, and at most 64
    let _count = segments.len();
    match charge {
        Some(charge) => segment_in(rates, segments, &charge.post, charge.slot.day, today),
        None => 2,
    }
}

// The cents of a charge.
pub fn cents_of(charge: &Option<DayPost>) -> u64
    ensures { result ≡ cents_of charge.now }
{
    match charge {
        Some(charge) => charge.slot.cents.unsigned_abs(),
        None => 0,
    }
}
