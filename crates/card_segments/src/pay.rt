// Pays an amount by a rule, whole parts at a time.
ghost use Rattle.std.specs.Prelude.{◌≡◌, ℕ, ◌+◌, ◌<◌, ◌≤◌, ◌^◌, length, slice_index_or};
ghost use Rattle.std.specs.List.{All};
ghost use Rattle.card_model.specs.Allocation.{Ascends, paid_at, pay};
ghost use Rattle.card_model.specs.declared.holding.Holding.{Holding};
ghost use Rattle.card_segments.specs.Rules.{rule_of};

use crate::rule::{Rule, place_of};
use card_model::Holding;

// Pays cents on the holding at a place.
fn give(holdings: &mut [Holding], i: usize, cents: u64)
    requires place { i < length holdings.old }
    requires ascending { Ascends 0 holdings.old }
    requires enough { (d : Holding) → cents ≤ (slice_index_or holdings.old i d).balance }
    requires fits { (d : Holding) → (slice_index_or holdings.old i d).paid + cents < 2 ^ 64 }
    requires room { All (λ h. h.paid + h.balance < 2 ^ 64) holdings.old }
    ensures room { All (λ h. h.paid + h.balance < 2 ^ 64) holdings.new }
    ensures paid { (d : Holding) → holdings.new ≡ paid_at (slice_index_or holdings.old i d).id cents holdings.old }
{
    let holding = &mut holdings[i];
    holding.balance -= cents;
    holding.paid += cents;
}

// Pays an amount, where Credit was given some cents before, and answers what Credit is given now.
pub fn pay_by(holdings: &mut [Holding], rule: Rule, amount: u64, credit: u64) -> u64
    requires ascending { Ascends 0 holdings.old }
    requires room { All (λ h. h.paid + h.balance < 2 ^ 64) holdings.old }
    requires few { credit + amount < 2 ^ 64 }
    ensures paid { pay (rule_of rule) amount (record { left = holdings.old; credit = credit }) ≡ record { left = holdings.new; credit = result } }
    ensures ascending { Ascends 0 holdings.new }
    ensures room { All (λ h. h.paid + h.balance < 2 ^ 64) holdings.new }
    ensures few { result ≤ credit + amount }
{
    let mut left = amount;
    while left > 0 {
        match place_of(rule, holdings) {
            Some(i) => {
                let cents = holdings[i].balance.min(left);
                give(holdings, i, cents);
                left -= cents;
            }
            None => {
                return credit + left;
            }
        }
    }
    credit + left
}
