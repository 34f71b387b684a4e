use crate::{Amounts, Fees};
use card_events::{Cents, Day, NoMemory};
use std::alloc::Global;
use std::marker::Model;

/// A closed cycle (12 CFR 1026.7(b)): its number, first day, closing and due date; what was owed at the closing before and
/// at this one, and the part of it that is in dispute (12 CFR 1026.13); the interest and the average daily balance of each segment;
/// the penalty fees; the minimum payment; what has to be paid by the due date to keep the grace period (12 CFR
/// 1026.54(a)(1)); and how many entries the account had at the end of the closing. Amounts are cents; what is held, the
/// minimum payment and the grace amount are at least 0, and the new balance is at most 10^17 in size.
#[derive(Drop)]
pub struct Cycle {
    pub number: u32,
    pub first: Day,
    pub closing: Day,
    pub due: Day,
    pub previous: Cents,
    pub new_balance: Cents,
    pub held: Cents,
    pub interest: Amounts,
    pub average: Amounts,
    pub fees: Fees,
    pub minimum: Cents,
    pub grace_amount: Cents,
    pub entries: usize,
}

impl Model for Cycle {
    ghost use Rattle.std.specs.Prelude.{pos, ◌≤ℤ◌};
    ghost use Rattle.card_fees.specs.Limits.{statement_limit};
    ghost use Rattle.card_model.specs.Cycles.{Cycle};
    ghost use Rattle.card_model.specs.Entries.{at_least_zero};
    ghost use Rattle.card_segments.specs.Balances.{IsWithin};

    ghost Value = { Cycle };

    ghost view = { λ c. record { number = c.number; first = c.first; closing = c.closing; due = c.due; previous = c.previous; new_balance = c.new_balance; held = at_least_zero c.held; interest = c.interest; average = c.average; fees = c.fees; minimum = at_least_zero c.minimum; grace_amount = at_least_zero c.grace_amount; entries = c.entries } };

    ghost invariant = { λ c. (pos 0 ≤ℤ c.held) × (pos 0 ≤ℤ c.minimum) × (pos 0 ≤ℤ c.grace_amount) × IsWithin statement_limit c.new_balance };
}

impl Cycle {
    ghost use Rattle.std.specs.Prelude.{◌≡◌, IfOk};
    ghost use Rattle.card_fees.specs.Limits.{statement_limit};
    ghost use Rattle.card_segments.specs.Balances.{IsWithin};

    /// What was owed at its closing, in cents, at most 10^17 in size.
    pub fn owed(&self) -> Cents
        ensures value { result ≡ self.now.new_balance }
        ensures small { IsWithin statement_limit result }
    {
        self.new_balance
    }

    /// The same cycle in memory of its own.
    pub fn copy(&self, alloc: Global) -> Result<Cycle, NoMemory>
        ensures { IfOk result (λ c. c ≡ self.now) }
    {
        Ok(Cycle {
            number: self.number,
            first: self.first,
            closing: self.closing,
            due: self.due,
            previous: self.previous,
            new_balance: self.new_balance,
            held: self.held,
            interest: self.interest.copy(alloc)?,
            average: self.average.copy(alloc)?,
            fees: self.fees.copy(alloc)?,
            minimum: self.minimum,
            grace_amount: self.grace_amount,
            entries: self.entries,
        })
    }
}
