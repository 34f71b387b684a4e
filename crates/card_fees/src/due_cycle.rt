// What a closed cycle asks for at its due date.
ghost use Rattle.std.specs.Prelude.{◌≡◌, ◌-◌};
ghost use Rattle.card_model.specs.Payments.{asks};

use card_model::DueCycle;

/// What a closed cycle's due date asks for, in cents: its minimum payment, and 0 where the cycle has no due payment
/// (12 CFR 1026.5(b)(2)(ii)). It doesn't allocate.
pub fn asked(c: &DueCycle) -> u64
    ensures { result ≡ asks c.now }
{
    if c.has_due_payment { c.minimum } else { 0 }
}

// what an amount leaves of a minimum payment
pub fn left_of(minimum: u64, paid: u64) -> u64
    ensures { result ≡ minimum - paid }
{
    minimum.saturating_sub(paid)
}
