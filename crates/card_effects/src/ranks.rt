// The rank of each segment on a day.
ghost use Rattle.std.specs.Prelude.{◌≡◌, ◌-◌, ◌<◌, ◌≤◌, ◌++◌, [], ◌∷◌, IfOk, OnOk, length, slice_index_or};
ghost use Rattle.card_effects.specs.Ranks.{no_rank, rank_on, ranks_on};
ghost use Rattle.card_effects.specs.Standing.{AreRated};
ghost use Rattle.card_model.specs.Effects.{end_by};
ghost use Rattle.card_model.specs.Segments.{SegmentTerms};

use card_closing::is_deferred;
use card_events::{Day, NoMemory};
use card_model::Segment;
use card_rates::{IndexTable, RateBook};
use card_segments::{Rank, Segments};
use smallvec::SmallVec;
use std::alloc::Global;

// The end of a deferred plan in its period, where it doesn't lie after a day.
fn end_by(until: Day, day: Day, segment: &Segment) -> Option<Day>
    ensures { result ≡ end_by until day segment.now }
{
    if !is_deferred(segment, day) {
        return None;
    }
    match segment.ends {
        Some(end) => if end <= until { Some(end) } else { None },
        None => None,
    }
}

// The rank of a segment other than Credit and Held.
fn rank(
    segments: &Segments,
    rates: &RateBook,
    index: &IndexTable,
    id: u8,
    until: Day,
    day: Day,
) -> Rank
    requires rated { AreRated segments.now.segments rates.now }
    requires low { 2 ≤ id }
    requires known { id < length segments.now.segments }
    ensures { (d : SegmentTerms) → result ≡ rank_on index.now rates.now until day (slice_index_or rates.now.segments (id - 2) d) }
{
    let rate = rates.rate_on(index, id, day);
    let segment = segments.get(id);
    Rank {
        rate: rate.get(),
        last_two: end_by(until, day, segment),
    }
}

fn no_rank() -> Rank
    ensures { result ≡ no_rank }
{
    Rank {
        rate: 0,
        last_two: None,
    }
}

// Adds a rank.
fn add(list: &mut SmallVec<Rank, 8>, rate: u16, last_two: Option<Day>) -> Result<(), NoMemory>
    ensures { OnOk result (list.new.items ≡ list.old.items ++ record { rate = rate; last_two = last_two } ∷ []) }
{
    list.push(Rank { rate, last_two })?;
    Ok(())
}

// The ranks of all segments, where the last two cycles from a day on end on another. Those of up to eight take no memory.
pub fn ranks(
    alloc: Global,
    segments: &Segments,
    rates: &RateBook,
    index: &IndexTable,
    until: Day,
    day: Day,
) -> Result<SmallVec<Rank, 8>, NoMemory>
    requires { AreRated segments.now.segments rates.now }
    ensures items { IfOk result (λ v. v.items ≡ ranks_on index.now rates.now until day) }
    ensures all { IfOk result (λ v. length v.items ≡ length segments.now.balances) }
{
    let mut list = SmallVec::new(alloc);
    add(&mut list, 0, None)?;
    add(&mut list, 0, None)?;
    for id in 2..segments.len() {
        let rank = rank(segments, rates, index, id, until, day);
        add(&mut list, rank.rate, rank.last_two)?;
    }
    Ok(list)
}
