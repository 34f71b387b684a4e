ghost use Rattle.std.specs.Prelude.{◌≡◌, ◌≤◌, ◌^◌, ℕ, pos, ◌≤ℤ◌, unsigned_abs, SomeIff, Some, OnSome, IfSome};
ghost use Rattle.card_events.specs.Money.{daily, interest, portion, rate_limit};

use crate::Cents;
use crate::limits::RATE_LIMIT;
use std::marker::Model;

/// A yearly rate in basis points, hundredths of a percent, from 0 to 9,999. It is the annual percentage rate that is
/// shown (12 CFR 1026.14(b)).
#[derive(Clone, Copy, PartialEq, Eq, PartialOrd, Ord)]
pub struct Bp {
    points: u16,
}

impl Model for Bp {
    ghost Value = { ℕ };

    ghost view = { λ b. b.points };

    ghost inverse = { λ n. record { points = n } };

    ghost invariant = { λ b. b.points ≤ rate_limit };
}

impl Bp {
    /// The rate of so many basis points. None comes exactly where that is above 9,999.
    pub fn new(n: u64) -> Option<Bp>
        ensures { SomeIff result (n ≤ rate_limit) n }
    {
        if n > RATE_LIMIT as u64 {
            return None;
        }
        Some(Bp { points: n as u16 })
    }

    /// Basis points, 0 to 9,999.
    pub fn get(self) -> u16
        ensures value { result ≡ self }
        ensures bound { self ≤ rate_limit }
    {
        self.points
    }
}

/// The daily rate in units of 10^-9: the yearly rate divided by 365, rounded down. A leap year has the same divisor.
#[tactic(auto, unfolding(crate::specs::Money::daily))]
pub fn daily(rate: Bp) -> u64
    ensures value { result ≡ daily rate }
    ensures bound { result ≤ 2_739_452 }
{
    rate.get() as u64 * 100_000 / 365
}

/// The cents of a sum of balances in cents, each times its day's rate in units of 10^-9, rounded half up. The sum is at
/// most 10^27.
#[tactic(auto, unfolding(crate::specs::Money::interest))]
pub fn interest(sum: u128) -> Cents
    requires { sum ≤ 10 ^ 27 }
    ensures { result ≡ pos (interest sum) }
{
    ((sum + 500_000_000) / 1_000_000_000) as i64
}

/// The part of a balance in cents that a percentage in basis points gives, rounded down. The balance is 0 to 10^17, and
/// the percentage at most 10,000.
#[tactic(auto, unfolding(crate::specs::Money::portion))]
pub fn portion(balance: Cents, pct: u16) -> Cents
    requires low { pos 0 ≤ℤ balance }
    requires high { balance ≤ℤ pos (10 ^ 17) }
    requires part { pct ≤ 10_000 }
    ensures { result ≡ pos (portion (unsigned_abs balance) pct) }
{
    (balance as u128 * pct as u128 / 10_000) as i64
}
