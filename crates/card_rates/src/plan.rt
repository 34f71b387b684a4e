// The segment that a transaction goes to.
ghost use Rattle.std.specs.Prelude.{◌≡◌, ◌≤◌};
ghost use Rattle.card_model.specs.Segments as model;
ghost use Rattle.card_rates.specs.Segments.{OfRatedSegments, OfSeenSegments, is_plan_of, plan_from};

use crate::RateBook;
use card_events::{Category, Day, Num, Place};
use card_model::{Segment, Sort};
use card_segments::Segments;

fn is_plan_of(segment: &Segment, post: Num, today: Day) -> bool
    ensures { result ≡ is_plan_of post today segment.now }
{
    segment.post as u64 == post.get()
        && (segment.sort == Sort::Promo || segment.sort == Sort::Deferred)
        && segment.begins <= today
}

fn first_plan(segments: &Segments, post: Num, today: Day) -> u8
    ensures { result ≡ plan_from post today 0 segments.now.segments }
{
    for id in 0..segments.len() {
        if is_plan_of(segments.get(id), post, today) {
            return id;
        }
    }
    2
}

/// The number of the segment of the plan that the post of this number began, as the fold of a day sees it; where no post up
/// to that day began a plan under this number, that of the opening Purchase vintage. It doesn't allocate.
pub fn plan_segment(segments: &Segments, post: Num, today: Day) -> u8
    ensures { OfSeenSegments today segments.now.segments (λ all. result ≡ model.plan_segment post all) }
{
    first_plan(segments, post, today)
}

/// The number of the segment that a charge of a day goes to on a place, as the fold of this or a later day sees it. It takes
/// no memory.
pub fn segment_at(rates: &RateBook, segments: &Segments, place: &Place, day: Day, today: Day) -> u8
    ensures { OfRatedSegments today rates.now segments.now.segments (λ all. day ≤ today → result ≡ model.segment_at place.now day all) }
{
    match place {
        Place::Purchase => rates.vintage(Category::Purchase, day),
        Place::Cash => rates.vintage(Category::Cash, day),
        Place::Transfer => rates.vintage(Category::Transfer, day),
        Place::Plan(post) => plan_segment(segments, *post, today),
    }
}
