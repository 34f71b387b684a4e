ghost use Rattle.std.specs.Prelude.{◌≡◌, ◌==◌, ◌<◌, ℕ, if◌then◌else◌, [], ◌∷◌, ◌++◌, length, slice_index_or, IfOk, OnOk, OnErr};
ghost use Rattle.card_model.specs.Cycles.{amount_at, amounts_sum};

use crate::amount::Amount;
use crate::few::Few;
use card_events::NoMemory;
use std::alloc::Global;
use std::marker::Model;

// Where amounts lie: up to four in place, more in memory of their own.
#[derive(Drop)]
enum Places {
    Few(Few),
    Many(Vec<Amount>),
}

/// Amounts by segment: pairs of a segment's number and cents. Those of a closed cycle are in order of segment number,
/// and none is 0. Up to four of them take no memory of their own.
#[derive(Drop)]
pub struct Amounts {
    places: Places,
    alloc: Global,
}

impl Model for Amounts {
    ghost use Rattle.card_model.specs.Cycles.{Amounts};
    ghost use Rattle.card_closing.specs.Places.{listed};

    ghost Value = { Amounts };

    ghost view = { λ a. listed a.places };
}

// the cents of an amount of this segment, else 0
fn cents_at(amount: Amount, segment: u8) -> u64
    ensures { result ≡ (if amount.0 == segment then amount.1 else 0) }
{
    let (own, cents) = amount.pair();
    if own == segment { cents } else { 0 }
}

// the sum of the amounts of one segment
fn sum_at(items: &[Amount], segment: u8) -> u128
    ensures { result ≡ amount_at segment items.now }
{
    let mut sum = 0;
    for item in items {
        sum += cents_at(*item, segment) as u128;
    }
    sum
}

// the sum of all amounts
fn sum_all(items: &[Amount]) -> u128
    ensures { result ≡ amounts_sum items.now }
{
    let mut sum = 0;
    for item in items {
        sum += item.pair().1 as u128;
    }
    sum
}

impl Amounts {
    /// No amounts. It doesn't allocate.
    pub fn none(alloc: Global) -> Amounts
        ensures { result ≡ [] }
    {
        Amounts {
            places: Places::Few(Few::none()),
            alloc,
        }
    }

    fn as_slice(&self) -> &[Amount]
        ensures { result.now ≡ self.now }
    {
        match &self.places {
            Places::Few(few) => few.as_slice(),
            Places::Many(many) => many.as_slice(),
        }
    }

    /// How many amounts there are.
    pub fn len(&self) -> usize
        ensures { result ≡ length self.now }
    {
        self.as_slice().len()
    }

    /// The amount at a place, counted from 0: a segment's number and its cents. It doesn't allocate.
    pub fn get(&self, place: usize) -> (u8, u64)
        requires known { place < length self.now }
        ensures { (d : ℕ × ℕ) → result ≡ slice_index_or self.now place d }
    {
        self.as_slice()[place].pair()
    }

    /// The cents of a segment, 0 where it has none. It doesn't allocate.
    pub fn at(&self, segment: u8) -> u128
        ensures { result ≡ amount_at segment self.now }
    {
        sum_at(self.as_slice(), segment)
    }

    /// The cents of all segments together. It doesn't allocate.
    pub fn sum(&self) -> u128
        ensures { result ≡ amounts_sum self.now }
    {
        sum_all(self.as_slice())
    }

    /// One amount more, at the end. If memory runs out, the amounts are as they were.
    pub fn push(&mut self, segment: u8, cents: u64) -> Result<(), NoMemory>
        ensures ok { OnOk result (self.new ≡ self.old ++ (segment, cents) ∷ []) }
        ensures err { OnErr result (self.new ≡ self.old) }
    {
        let amount = Amount::new(segment, cents);
        let pushed = match &mut self.places {
            Places::Few(few) => few.push(amount),
            Places::Many(many) => {
                many.push(amount)?;
                true
            }
        };
        if !pushed {
            let mut more = Vec::with_capacity(self.alloc, 8)?;
            more.extend_from_slice(self.as_slice())?;
            more.push(amount)?;
            self.places = Places::Many(more);
        }
        Ok(())
    }

    /// The same amounts in memory of their own.
    pub fn copy(&self, alloc: Global) -> Result<Amounts, NoMemory>
        ensures { IfOk result (λ a. a ≡ self.now) }
    {
        let places = match &self.places {
            Places::Few(few) => Places::Few(few.copy()),
            Places::Many(many) => Places::Many(Vec::from_slice(alloc, many.as_slice())?),
        };
        Ok(Amounts { places, alloc })
    }
}
