// The best holding of a list.
ghost use Rattle.std.specs.Prelude.{◌≡◌, ℕ, ◌+◌, ◌<◌, length, drop, unwrap_or, pos};
ghost use Rattle.card_segments.specs.Rules.{IsPlaceOf, chosen, is_before, passes};

use card_events::Day;
use card_model::Holding;

// What is looked for: the least rate, the greatest rate, the soonest end in the last two cycles, or a segment of the place.
// Among equals the holding that stands first is taken.
#[derive(Clone, Copy)]
pub enum Choice {
    LowerRate,
    HigherRate,
    SoonerEnd,
    OfPlace,
}

fn end_of(last_two: Option<Day>) -> i32
    ensures { result ≡ pos (unwrap_or last_two 0) }
{
    match last_two {
        Some(day) => day.number(),
        None => 0,
    }
}

fn passes(choice: Choice, holding: &Holding) -> bool
    ensures { result ≡ passes choice holding.now }
{
    match choice {
        Choice::LowerRate => true,
        Choice::HigherRate => true,
        Choice::SoonerEnd => holding.last_two.is_some(),
        Choice::OfPlace => holding.of_place,
    }
}

fn is_before(choice: Choice, later: &Holding, holding: &Holding) -> bool
    ensures { result ≡ is_before choice later.now holding.now }
{
    match choice {
        Choice::LowerRate => later.rate < holding.rate,
        Choice::HigherRate => holding.rate < later.rate,
        Choice::SoonerEnd => end_of(later.last_two) < end_of(holding.last_two),
        Choice::OfPlace => false,
    }
}

// The better of a place and the one found among the places behind it.
fn better(choice: Choice, holdings: &[Holding], i: usize, found: Option<usize>) -> Option<usize>
    requires place { i < length holdings.now }
    requires behind { IsPlaceOf holdings.now (chosen choice (drop (i + 1) holdings.now)) found }
    ensures { IsPlaceOf holdings.now (chosen choice (drop i holdings.now)) result }
{
    let here = &holdings[i];
    if here.balance == 0 {
        return found;
    }
    if !passes(choice, here) {
        return found;
    }
    match found {
        Some(j) => {
            let there = &holdings[j];
            if is_before(choice, there, here) {
                Some(j)
            } else {
                Some(i)
            }
        }
        None => Some(i),
    }
}

// The place of the best holding.
pub fn best(choice: Choice, holdings: &[Holding]) -> Option<usize>
    ensures { IsPlaceOf holdings.now (chosen choice holdings.now) result }
{
    let mut found: Option<usize> = None;
    for i in (0..holdings.len()).rev() {
        found = better(choice, holdings, i, found);
    }
    found
}
