// The segments of places.
ghost use Rattle.std.specs.Prelude.{◌≡◌, ◌++◌, ◌<◌, ◌≤◌, if◌then◌else◌, List, [], ◌∷◌, IfOk, OnOk, drop, length, map};
ghost use Rattle.std.specs.List.{filter};
ghost use Rattle.card_model.specs.Segments.{SegmentTerms, is_kept_of, kept_segment, newest, plan_segment, segment_at, sort_of_category};
ghost use Rattle.card_effects.specs.Places.{IsBilled, numbers_of};
ghost use Rattle.card_effects.specs.Standing.{AreRated, is_added};
ghost use Rattle.card_rates.specs.RateBooks.{AreByNumber};
ghost use Rattle.card_rates.specs.Segments.{is_plan_of};

use card_events::{Category, Day, NoMemory, Place};
use card_model::{Segment, Sort};
use card_rates::RateBook;
use card_segments::Segments;
use std::alloc::Global;

// The plan that a post began, by a day.
fn is_plan_by(post: u64, day: Day, segment: &Segment) -> bool
    ensures { result ≡ is_plan_of post day segment.now }
{
    let is_plan = match segment.sort {
        Sort::Promo => true,
        Sort::Deferred => true,
        _ => false,
    };
    is_plan && segment.post as u64 == post && segment.begins <= day
}

// The segment of a plan that is there on a day, else that of the opening purchases.
fn plan_segment(segments: &Segments, post: u64, day: Day) -> u8
    ensures value { (gs : List SegmentTerms) → AreByNumber 2 gs → drop 2 segments.now.segments ≡ map kept_segment gs → result ≡ plan_segment post (filter (is_added day) gs) }
    ensures billed { IsBilled result segments.now.balances }
{
    for id in 2..segments.len() {
        if is_plan_by(post, day, segments.get(id)) {
            return id;
        }
    }
    2
}

// The newest vintage of a category that has begun by a day.
pub fn newest(segments: &Segments, rates: &RateBook, category: Category, day: Day) -> u8
    requires { AreRated segments.now.segments rates.now }
    ensures value { result ≡ newest (sort_of_category category) day (filter (is_added day) rates.now.segments) }
    ensures billed { IsBilled result segments.now.balances }
{
    // what the length says is needed as a fact: a balance for each segment, five of them at least, and at most 64
    let _count = segments.len();
    rates.vintage(category, day)
}

// The segment that a charge on a place goes to on a day.
pub fn segment_at(segments: &Segments, rates: &RateBook, place: &Place, day: Day) -> u8
    requires { AreRated segments.now.segments rates.now }
    ensures value { result ≡ segment_at place.now day (filter (is_added day) rates.now.segments) }
    ensures billed { IsBilled result segments.now.balances }
{
    match place {
        Place::Purchase => newest(segments, rates, Category::Purchase, day),
        Place::Cash => newest(segments, rates, Category::Cash, day),
        Place::Transfer => newest(segments, rates, Category::Transfer, day),
        Place::Plan(post) => plan_segment(segments, post.get(), day),
    }
}

// Whether a segment is of a place.
fn is_of_place(place: &Place, segment: &Segment) -> bool
    ensures { result ≡ is_kept_of place.now segment.now }
{
    match (place, segment.sort) {
        (Place::Purchase, Sort::Purchase) => true,
        (Place::Cash, Sort::Cash) => true,
        (Place::Transfer, Sort::Transfer) => true,
        (Place::Plan(post), Sort::Promo) => segment.post as u64 == post.get(),
        (Place::Plan(post), Sort::Deferred) => segment.post as u64 == post.get(),
        _ => false,
    }
}

// Adds a number, where its segment is of the place.
fn add_number(list: &mut Vec<u8>, place: &Place, segment: &Segment, id: u8) -> Result<(), NoMemory>
    ensures { OnOk result (list.new.items ≡ list.old.items ++ (if is_kept_of place.now segment.now then id ∷ [] else [])) }
{
    if is_of_place(place, segment) {
        list.push(id)?;
    }
    Ok(())
}

// The numbers of the segments of a place.
pub fn numbers_of(alloc: Global, segments: &Segments, place: &Place) -> Result<Vec<u8>, NoMemory>
    ensures { IfOk result (λ v. (gs : List SegmentTerms) → AreByNumber 2 gs → drop 2 segments.now.segments ≡ map kept_segment gs → v.items ≡ numbers_of place.now gs) }
{
    let mut list = Vec::new(alloc);
    for id in 2..segments.len() {
        add_number(&mut list, place, segments.get(id), id)?;
    }
    Ok(list)
}
