ghost use Rattle.std.specs.Prelude.{◌≡◌, ◌==◌, ◌++◌, if◌then◌else◌, [], ◌∷◌, IfOk, OnOk, pos};
ghost use Rattle.card_model.specs.Entries.{at_least_zero};
ghost use Rattle.card_model.specs.Fees.{fees_in, fees_sum};

use card_events::{Cents, NoMemory};
use card_model::Fee;
use std::alloc::Global;
use std::marker::Model;

/// The penalty fees of a cycle (12 CFR 1026.52(b)), in the order in which they were charged.
#[derive(Drop)]
pub struct Fees {
    items: Vec<Fee>,
}

impl Model for Fees {
    ghost use Rattle.std.specs.Prelude.{List};
    ghost use Rattle.card_model.specs.declared.fee.Fee.{Fee};

    ghost Value = { List Fee };

    ghost view = { λ f. f.items.items };
}

// An amount where it is at least 0, else 0.
pub fn at_least_zero(cents: Cents) -> u64
    ensures { result ≡ at_least_zero cents }
{
    if cents < 0 { 0 } else { cents as u64 }
}

// The cents of fees together. It doesn't allocate.
pub fn sum_of(fees: &[Fee]) -> u128
    ensures { result ≡ fees_sum fees.now }
{
    let mut sum = 0;
    for fee in fees {
        sum += at_least_zero(fee.cents) as u128;
    }
    sum
}

// Adds a fee, where it is of a cycle.
fn keep(items: &mut Vec<Fee>, cycle: u32, fee: &Fee) -> Result<(), NoMemory>
    ensures { OnOk result (items.new.items ≡ items.old.items ++ (if fee.now.cycle == cycle then fee.now ∷ [] else [])) }
{
    if fee.cycle == cycle {
        items.push(*fee)?;
    }
    Ok(())
}

// The fees of a cycle, in order.
fn fees_in(alloc: Global, fees: &[Fee], cycle: u32) -> Result<Vec<Fee>, NoMemory>
    ensures { IfOk result (λ v. v.items ≡ fees_in cycle fees.now) }
{
    let mut items = Vec::new(alloc);
    for fee in fees {
        keep(&mut items, cycle, fee)?;
    }
    Ok(items)
}

impl Fees {
    /// Of all fees those of a cycle, in memory of their own.
    pub fn of_cycle(alloc: Global, fees: &[Fee], cycle: u32) -> Result<Fees, NoMemory>
        ensures { IfOk result (λ f. f ≡ fees_in cycle fees.now) }
    {
        let items = fees_in(alloc, fees, cycle)?;
        Ok(Fees { items })
    }

    /// These fees, in memory of their own.
    pub fn of(alloc: Global, fees: &[Fee]) -> Result<Fees, NoMemory>
        ensures { IfOk result (λ f. f ≡ fees.now) }
    {
        Ok(Fees {
            items: Vec::from_slice(alloc, fees)?,
        })
    }

    /// The fees.
    pub fn items(&self) -> &[Fee]
        ensures { result.now ≡ self.now }
    {
        &self.items
    }

    /// The cents of all fees together. It doesn't allocate.
    pub fn sum(&self) -> u128
        ensures { result ≡ fees_sum self.now }
    {
        sum_of(&self.items)
    }

    /// The same fees in memory of their own.
    pub fn copy(&self, alloc: Global) -> Result<Fees, NoMemory>
        ensures { IfOk result (λ f. f ≡ self.now) }
    {
        Fees::of(alloc, &self.items)
    }
}
