ghost use Rattle.std.specs.Prelude.{◌≡◌, ◌+◌, ◌≤◌, ◌^◌, pos, ◌≤ℤ◌, unsigned_abs};
ghost use Rattle.card_model.specs.Limits.{balance_limit};
ghost use Rattle.card_closing.specs.Accruals.{nothing_accrued, with_accrual};

use card_events::{Bp, Cents, daily};
use std::marker::Model;

/// The interest that a deferred balance accrues over the whole period of its plan (12 CFR 1026.55(b)(1), comment 55(b)(1)-3). Clauses see the
/// number of its days, and the sum of their balances in cents, each times the daily rate in units of 10^-9.
#[derive(Clone, Copy)]
pub struct Accrual {
    days: u32,
    sum: u128,
}

impl Model for Accrual {
    ghost use Rattle.std.specs.Prelude.{◌*◌, ◌≤◌, ◌^◌};
    ghost use Rattle.card_model.specs.Limits.{balance_limit};
    ghost use Rattle.card_closing.specs.Accruals.{Accrued};

    ghost Value = { Accrued };

    ghost view = { λ a. record { days = a.days; sum = a.sum } };

    ghost inverse = { λ v. record { days = v.days; sum = v.sum } };

    ghost invariant = { λ a. (a.days ≤ 40_000) × (a.sum ≤ a.days * 2_739_452 * balance_limit) };
}

impl Accrual {
    /// Nothing accrued yet.
    pub fn start() -> Accrual
        ensures { result ≡ nothing_accrued }
    {
        Accrual { days: 0, sum: 0 }
    }

    /// So many days more with the same balance in cents, 0 to 10^15, at the plan's rate. All days together are at most
    /// 40,000.
    pub fn accrue(&mut self, days: u32, balance: Cents, rate: Bp)
        requires low { pos 0 ≤ℤ balance }
        requires high { balance ≤ℤ pos balance_limit }
        requires few { self.old.days + days ≤ 40_000 }
        ensures { self.new ≡ with_accrual days (unsigned_abs balance) rate self.old }
    {
        self.sum += days as u128 * balance.unsigned_abs() as u128 * daily(rate) as u128;
        self.days += days;
    }

    /// The sum of the balances, each times the daily rate, at most 10^27.
    pub fn sum(&self) -> u128
        ensures value { result ≡ self.now.sum }
        ensures bound { result ≤ 10 ^ 27 }
    {
        self.sum
    }
}
