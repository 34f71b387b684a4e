ghost use Rattle.std.specs.Prelude.{◌≡◌, ◌≤◌, ◌≤ℤ◌, neg_ℤ, pos, unsigned_abs};
ghost use Rattle.card_fees.specs.Limits.{statement_limit};
ghost use Rattle.card_model.specs.Closing.{minimum_of};

use card_events::{Cents, portion};

/// The minimum payment of a closing, in cents: the floor, or the portion of the balance with the cycle's interest and
/// fees where that is more, and on top what is past due; at most the balance, and 0 where that isn't above 0. The
/// balance is what is owed less what is in dispute, at most 10^17. The percentage is in basis points, at most 10,000. It takes no
/// memory (12 CFR 1026.7(b)(13)).
pub fn minimum(nb: Cents, floor: u64, pct: u16, charges: u128, past_due: u64) -> u64
    requires nb_high { nb ≤ℤ pos statement_limit }
    requires part { pct ≤ 10_000 }
    ensures value { result ≡ minimum_of nb floor pct charges past_due }
    ensures bound { result ≤ 9_223_372_036_854_775_807 }
{
    if nb <= 0 {
        return 0;
    }
    let part = (portion(nb, pct) as u128).saturating_add(charges);
    let asked = (floor as u128).max(part).saturating_add(past_due as u128);
    (nb as u128).min(asked) as u64
}
