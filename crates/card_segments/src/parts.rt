ghost use Rattle.std.specs.Prelude.{◌≡◌, ◌++◌, [], ◌∷◌, IfOk, OnOk};
ghost use Rattle.std.specs.List.{filter};
ghost use Rattle.card_model.specs.Effects.{is_part_of, size};
ghost use Rattle.card_segments.specs.Parts.{parts_in};

use crate::{Entry, EntryKind};
use card_events::{Cents, NoMemory};
use smallvec::SmallVec;
use std::alloc::Global;
use std::marker::Model;

/// The parts of a payment or a merchant's credit: segments with the cents that reached them, each segment once, ascending.
/// Segment 0 is Credit. Up to four parts take no memory of their own.
#[derive(Drop)]
pub struct Parts {
    items: SmallVec<(u8, u64), 4>,
}

impl Model for Parts {
    ghost use Rattle.std.specs.Prelude.{ℕ, List};
    ghost use Rattle.card_segments.specs.Parts.{Ascend};

    ghost Value = { List (ℕ × ℕ) };

    ghost view = { λ p. p.items.items };

    ghost invariant = { λ p. Ascend 0 p.items.items };
}

// Whether an entry is a part of a payment.
fn is_part_of(payment: u32, entry: &Entry) -> bool
    ensures { result ≡ is_part_of payment entry.now }
{
    match entry.kind {
        EntryKind::Payment => entry.post == payment,
        _ => false,
    }
}

// How far cents lie below 0.
fn size(cents: Cents) -> u64
    ensures { result ≡ size cents }
{
    if cents < 0 { cents.unsigned_abs() } else { 0 }
}

// Adds the part that an entry records, where it is one of the payment.
fn add_entry(list: &mut SmallVec<(u8, u64), 4>, payment: u32, entry: &Entry) -> Result<(), NoMemory>
    ensures { OnOk result (list.new.items ≡ list.old.items ++ parts_in (filter (is_part_of payment) (entry.now ∷ []))) }
{
    if is_part_of(payment, entry) {
        list.push((entry.segment, size(entry.cents)))?;
    }
    Ok(())
}

fn parts_of_payment(
    alloc: Global,
    entries: &[Entry],
    payment: u32,
) -> Result<SmallVec<(u8, u64), 4>, NoMemory>
    ensures { IfOk result (λ v. v.items ≡ parts_in (filter (is_part_of payment) entries.now)) }
{
    let mut list = SmallVec::new(alloc);
    for entry in entries {
        add_entry(&mut list, payment, entry)?;
    }
    Ok(list)
}

impl Parts {
    ghost use Rattle.std.specs.Prelude.{◌≡◌, IfOk};
    ghost use Rattle.std.specs.List.{filter};
    ghost use Rattle.card_model.specs.Effects.{is_part_of};
    ghost use Rattle.card_segments.specs.Parts.{Ascend, parts_in};

    pub(crate) fn of(items: SmallVec<(u8, u64), 4>) -> Parts
        requires { Ascend 0 items.items }
        ensures { result ≡ items.items }
    {
        Parts { items }
    }

    /// The parts of a payment, as its entries among these record them. Condition: its entries are in order of segment number,
    /// each segment once.
    pub fn of_payment(alloc: Global, entries: &[Entry], payment: u32) -> Result<Parts, NoMemory>
        requires { Ascend 0 (parts_in (filter (is_part_of payment) entries.now)) }
        ensures { IfOk result (λ parts. parts ≡ parts_in (filter (is_part_of payment) entries.now)) }
    {
        Ok(Parts {
            items: parts_of_payment(alloc, entries, payment)?,
        })
    }

    /// Each segment with its cents.
    pub fn items(&self) -> &[(u8, u64)]
        ensures value { result.now ≡ self.now }
        ensures ascending { Ascend 0 self.now }
    {
        &self.items
    }
}
