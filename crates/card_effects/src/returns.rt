// What a returned payment brings back.
ghost use Rattle.std.specs.Prelude.{◌≡◌, ℕ, ◌++◌, ◌<◌, ◌≤◌, List, Option, Some, OnOk, OnErr, length, pos, take, ◌≤ℤ◌, vec_capacity};
ghost use Rattle.card_model.specs.Limits.{balance_limit};
ghost use Rattle.card_segments.specs.Parts.{back_entries};
ghost use Rattle.card_effects.specs.Returned.{AreOfThose, AreReturnable, IsChargeable, parts_of};
ghost use Rattle.card_effects.specs.Entering.{ChargesFee, EntersWhere, IsReturnOf, PutsBack};
ghost use Rattle.card_effects.specs.Standing.{AreRated};
ghost use Rattle.card_events.specs.History.{CorrectedPost};
ghost use Rattle.card_events.specs.declared.post.Post.TheVariants as post;
ghost use Rattle.card_model.specs.Books.{Account, Book};
ghost use Rattle.card_model.specs.Cycles.{IssuedRow, Seen};
ghost use Rattle.card_model.specs.Effects.{effect, meant_for, payment_at};
ghost use Rattle.card_model.specs.Effects as model;
ghost use Rattle.card_model.specs.Fees.{with_fee};
ghost use Rattle.card_model.specs.declared.entry.Entry.{Entry};
ghost use Rattle.card_model.specs.declared.entry.EntryKind.TheVariants as kind;
ghost use Rattle.card_segments.specs.Balances.{AreWithin, movable_balance};

use crate::debits::note_of;
use crate::place::newest;
use card_events::{Category, NoMemory, Slot};
use card_model::Fee;
use card_rates::RateBook;
use card_segments::{Entry, EntryKind, Note, Parts, Segments, put_back};
use std::alloc::Global;

// Puts the parts of a payment back, each on its segment, and Credit's part on the newest purchases.
fn put_parts_back(
    alloc: Global,
    segments: &mut Segments,
    rates: &RateBook,
    slot: &Slot,
    payment: u32,
    out: &mut Vec<Entry>,
) -> Result<(), NoMemory>
    requires rated { AreRated segments.old.segments rates.now }
    requires parts { AreReturnable (length segments.old.balances) (parts_of payment out.old.items) }
    requires small { AreWithin balance_limit segments.old.balances }
    ensures stands { OnOk result (PutsBack payment slot.now rates.now segments.old out.old.items segments.new out.new.items) }
    ensures segments { segments.new.segments ≡ segments.old.segments }
    ensures small { OnOk result (AreWithin movable_balance segments.new.balances) }
    ensures begins { take (length out.old.items) out.new.items ≡ out.old.items }
    ensures capacity { vec_capacity out.old ≤ vec_capacity out.new }
{
    let parts = Parts::of_payment(alloc, out, payment)?;
    let newest = newest(segments, rates, Category::Purchase, slot.day);
    let note = note_of(slot, EntryKind::Return);
    put_back(segments, &parts, newest, &note, out)
}

// Debits a fee to the newest purchases, on the day of a post.
fn charge_fee(
    segments: &mut Segments,
    rates: &RateBook,
    slot: &Slot,
    fee: &Fee,
    out: &mut Vec<Entry>,
) -> Result<(), NoMemory>
    requires rated { AreRated segments.old.segments rates.now }
    requires amount { pos 0 ≤ℤ fee.now.cents }
    requires limit { fee.now.cents ≤ℤ pos balance_limit }
    requires small { AreWithin movable_balance segments.old.balances }
    ensures stands { OnOk result (ChargesFee slot.now.day slot.now.number (Some fee.now) rates.now segments.old out.old.items segments.new out.new.items) }
    ensures segments { segments.new.segments ≡ segments.old.segments }
    ensures err_entries { OnErr result (out.new.items ≡ out.old.items) }
    ensures capacity { vec_capacity out.old ≤ vec_capacity out.new }
{
    let segment = newest(segments, rates, Category::Purchase, slot.day);
    let note = note_of(slot, EntryKind::Fee);
    segments.debit(segment, fee.cents, &note, out)?;
    Ok(())
}

// The same, where there is a fee.
fn charge_if_any(
    segments: &mut Segments,
    rates: &RateBook,
    slot: &Slot,
    charged: &Option<Fee>,
    out: &mut Vec<Entry>,
) -> Result<(), NoMemory>
    requires rated { AreRated segments.old.segments rates.now }
    requires charged { IsChargeable charged.now }
    requires small { AreWithin movable_balance segments.old.balances }
    ensures stands { OnOk result (ChargesFee slot.now.day slot.now.number charged.now rates.now segments.old out.old.items segments.new out.new.items) }
    ensures segments { segments.new.segments ≡ segments.old.segments }
    ensures err_entries { OnErr result (out.new.items ≡ out.old.items) }
    ensures capacity { vec_capacity out.old ≤ vec_capacity out.new }
{
    match charged {
        Some(fee) => charge_fee(segments, rates, slot, fee, out),
        None => Ok(()),
    }
}

/// The return of a payment, by its number, on the return's effective day: the payment's parts are owed again, each on its
/// segment in order of number (12 CFR 1026.10, .53). Credit's part uses up the credit balance, and what that no longer holds
/// is owed on the newest purchases. After them the returned-payment fee is charged, where there is one (12 CFR
/// 1026.52(b)). Condition: segments and rates of one account, parts that are each of another segment, in order and none of
/// Held, together at most 10^15 cents, a fee of 0 to 10^15 cents, and balances of at most 10^15 cents in size. After want of
/// memory balances are of no use, and the entries begin with those that there were.
pub fn returned(
    alloc: Global,
    segments: &mut Segments,
    rates: &RateBook,
    slot: &Slot,
    payment: u32,
    charged: &Option<Fee>,
    out: &mut Vec<Entry>,
) -> Result<(), NoMemory>
    requires rated { AreRated segments.old.segments rates.now }
    requires parts { AreReturnable (length segments.old.balances) (parts_of payment out.old.items) }
    requires charged { IsChargeable charged.now }
    requires small { AreWithin balance_limit segments.old.balances }
    ensures stands { OnOk result ((day : ℕ) → EntersWhere (IsReturnOf payment charged.now rates.now) (post.Return day payment) slot.now rates.now segments.old out.old.items segments.new out.new.items) }
    ensures segments { segments.new.segments ≡ segments.old.segments }
    ensures err { OnErr result (take (length out.old.items) out.new.items ≡ out.old.items) }
    ensures capacity { vec_capacity out.old ≤ vec_capacity out.new }
{
    put_parts_back(alloc, segments, rates, slot, payment, out)?;
    charge_if_any(segments, rates, slot, charged, out)
}
