// Where the next cent goes.
ghost use Rattle.card_model.specs.Allocation.{excess_rule};
ghost use Rattle.card_segments.specs.Rules.{IsPlaceOf, rule_of};

use crate::choice::{Choice, best};
use card_model::Holding;

// A cent of the minimum payment, one above it, or one of a merchant's credit.
#[derive(Clone, Copy)]
pub enum Rule {
    Minimum,
    Excess,
    Place,
}

fn excess_place(holdings: &[Holding]) -> Option<usize>
    ensures { IsPlaceOf holdings.now (excess_rule holdings.now) result }
{
    match best(Choice::SoonerEnd, holdings) {
        Some(i) => Some(i),
        None => best(Choice::HigherRate, holdings),
    }
}

// The place of the holding that the next cent goes to, where it doesn't go to Credit.
pub fn place_of(rule: Rule, holdings: &[Holding]) -> Option<usize>
    ensures { IsPlaceOf holdings.now (rule_of rule holdings.now) result }
{
    match rule {
        Rule::Minimum => best(Choice::LowerRate, holdings),
        Rule::Excess => excess_place(holdings),
        Rule::Place => match best(Choice::OfPlace, holdings) {
            Some(i) => Some(i),
            None => excess_place(holdings),
        },
    }
}
