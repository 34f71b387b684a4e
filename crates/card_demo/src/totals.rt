// Sums over entries.
ghost use Rattle.std.specs.Prelude.{◌≡◌, ◌<◌, ◌+◌, ◌^◌, ◌+ℤ◌, ℕ, cond, length, pos};
ghost use Rattle.card_demo.specs.Sums.{AreWithin, with_entries, with_entry};
ghost use Rattle.card_model.specs.Entries.{is_kind};
ghost use Rattle.card_model.specs.declared.entry.EntryKind.TheVariants as kind;
ghost use Rattle.card_segments.specs.Balances.{IsWithin};

use card_events::Cents;
use card_model::{Entry, EntryKind};

/// What is owed, and of that interest and fees, in cents.
#[derive(Clone, Copy)]
pub struct Totals {
    pub owed: i128,
    pub interest: i128,
    pub fees: i128,
}

impl Totals {
    ghost use Rattle.std.specs.Prelude.{◌≡◌, []};
    ghost use Rattle.card_demo.specs.Sums.{totals};

    /// Those of no entries.
    #[tactic(auto, unfolding(crate::specs::Sums::totals))]
    pub fn none() -> Totals
        ensures { result ≡ totals [] }
    {
        Totals {
            owed: 0,
            interest: 0,
            fees: 0,
        }
    }
}

// The cents of an entry of interest, else 0.
fn interest_in(entry: &Entry) -> Cents
    ensures { result ≡ cond (is_kind kind.Interest entry.now.kind) entry.now.cents (pos 0) }
{
    let is_interest = entry.kind == EntryKind::Interest;
    if is_interest { entry.cents } else { 0 }
}

// The cents of an entry of a fee, else 0.
fn fee_in(entry: &Entry) -> Cents
    ensures { result ≡ cond (is_kind kind.Fee entry.now.kind) entry.now.cents (pos 0) }
{
    let is_fee = entry.kind == EntryKind::Fee;
    if is_fee { entry.cents } else { 0 }
}

// A sum of at most 2^120 in size, with more cents.
fn plus(sum: i128, cents: Cents) -> i128
    requires room { IsWithin (2 ^ 120) sum }
    ensures value { result ≡ sum +ℤ cents }
    ensures bound { (n : ℕ) → IsWithin n sum → IsWithin (n + 2 ^ 63) result }
{
    sum + i128::from(cents)
}

// The sums with one more entry.
fn with_entry(sums: &Totals, entry: &Entry) -> Totals
    requires room { AreWithin (2 ^ 120) sums.now }
    ensures sums { result ≡ with_entry entry.now sums.now }
    ensures bound { (n : ℕ) → AreWithin n sums.now → AreWithin (n + 2 ^ 63) result }
{
    Totals {
        owed: plus(sums.owed, entry.cents),
        interest: plus(sums.interest, interest_in(entry)),
        fees: plus(sums.fees, fee_in(entry)),
    }
}

/// The sums with more entries, fewer than 2^32. Sums of up to 2^110 cents fit, and grow by at most 2^95.
pub fn with_entries(sums: &Totals, entries: &[Entry]) -> Totals
    requires few { length entries.now < 2 ^ 32 }
    requires room { AreWithin (2 ^ 110) sums.now }
    ensures sums { result ≡ with_entries entries.now sums.now }
    ensures bound { (n : ℕ) → AreWithin n sums.now → AreWithin (n + 2 ^ 95) result }
{
    let mut all = *sums;
    for i in 0..entries.len() {
        all = with_entry(&all, &entries[i]);
    }
    all
}
