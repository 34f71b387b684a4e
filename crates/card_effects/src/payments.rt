// What payments and merchants' credits repay.
ghost use Rattle.std.specs.Prelude.{◌≡◌, ◌++◌, [], Option, IfOk, OnOk, OnErr, length, min, pos, ◌≤ℤ◌, vec_capacity, ◌≤◌};
ghost use Rattle.card_model.specs.Limits.{balance_limit};
ghost use Rattle.card_segments.specs.Holdings.{holdings};
ghost use Rattle.card_segments.specs.Parts.{AreParts};
ghost use Rattle.card_effects.specs.Entering.{EntersCredit, EntersPayment, Leaves, MayMove};
ghost use Rattle.card_effects.specs.Places.{numbers_of};
ghost use Rattle.card_effects.specs.Ranks.{ranks_on};
ghost use Rattle.card_events.specs.declared.anchor.Channel.{Channel};
ghost use Rattle.card_events.specs.History.{CorrectedPost};
ghost use Rattle.card_model.specs.Allocation.{allocated, placed};
ghost use Rattle.card_model.specs.Books.{Account, Book};
ghost use Rattle.card_model.specs.Cycles.{IssuedRow, Seen, last_cycle};
ghost use Rattle.card_model.specs.Effects.{effect, parts_entries, second_closing};
ghost use Rattle.card_model.specs.Entries.{at_least_zero};
ghost use Rattle.card_model.specs.Payments.{minimum_left};
ghost use Rattle.card_model.specs.declared.entry.EntryKind.TheVariants as kind;
ghost use Rattle.card_segments.specs.Balances.{AreWithin};

use crate::debits::note_of;
use crate::place::numbers_of;
use crate::ranks::ranks;
use card_events::{Cents, Day, NoMemory, Place, Slot};
use card_rates::{IndexTable, RateBook};
use card_segments::{Entry, EntryKind, Parts, Segments, allocate, place_credit, sole_parts, take};
use std::alloc::Global;

// The parts of a payment. Nothing is ranked where one segment at most has a balance.
fn payment_parts(
    alloc: Global,
    segments: &Segments,
    rates: &RateBook,
    index: &IndexTable,
    slot: &Slot,
    minimum_part: Cents,
    following_closing: Day,
) -> Result<Parts, NoMemory>
    requires asked { MayMove segments.now rates.now slot.now.cents }
    requires minimum { pos 0 ≤ℤ minimum_part }
    requires within { minimum_part ≤ℤ slot.now.cents }
    ensures parts { IfOk result (λ parts. parts ≡ allocated (at_least_zero minimum_part) (at_least_zero slot.now.cents) (holdings [] segments.now.balances (ranks_on index.now rates.now following_closing slot.now.day))) }
    ensures whole { IfOk result (λ parts. AreParts segments.now.balances (at_least_zero slot.now.cents) parts) }
    ensures all { length (ranks_on index.now rates.now following_closing slot.now.day) ≡ length segments.now.balances }
{
    // what it says is needed as a fact: a balance for each segment
    let _count = segments.len();
    match sole_parts(alloc, segments, slot.cents)? {
        Some(parts) => Ok(parts),
        None => {
            let ranks = ranks(alloc, segments, rates, index, following_closing, slot.day)?;
            let parts = allocate(alloc, segments, &ranks, minimum_part, slot.cents)?;
            Ok(parts)
        }
    }
}

// The parts of a merchant's credit. Nothing is ranked where one segment at most has a balance.
fn credit_parts(
    alloc: Global,
    segments: &Segments,
    rates: &RateBook,
    index: &IndexTable,
    slot: &Slot,
    place: &Place,
    following_closing: Day,
) -> Result<Parts, NoMemory>
    requires asked { MayMove segments.now rates.now slot.now.cents }
    ensures parts { IfOk result (λ parts. parts ≡ placed (at_least_zero slot.now.cents) (holdings (numbers_of place.now rates.now.segments) segments.now.balances (ranks_on index.now rates.now following_closing slot.now.day))) }
    ensures whole { IfOk result (λ parts. AreParts segments.now.balances (at_least_zero slot.now.cents) parts) }
    ensures all { length (ranks_on index.now rates.now following_closing slot.now.day) ≡ length segments.now.balances }
{
    // what it says is needed as a fact: a balance for each segment
    let _count = segments.len();
    match sole_parts(alloc, segments, slot.cents)? {
        Some(parts) => Ok(parts),
        None => {
            let ranks = ranks(alloc, segments, rates, index, following_closing, slot.day)?;
            let first = numbers_of(alloc, segments, place)?;
            let parts = place_credit(alloc, segments, &ranks, &first, slot.cents)?;
            Ok(parts)
        }
    }
}

/// A payment of so many cents on its effective day (12 CFR 1026.10, .53), and its parts, by the rates of the day under this index.
/// The minimum part is what is left of the minimum payment, or the whole where that is less. The following closing is the one after
/// that of the day's cycle; where no segment of the rates is a deferred plan, any day will do. Condition: segments and rates of one
/// account, 0 <= minimum part <= cents <= 10^15, and balances of at most 10^15 cents in size. If memory runs out, balances and
/// entries are as they were.
pub fn payment(
    alloc: Global,
    segments: &mut Segments,
    rates: &RateBook,
    index: &IndexTable,
    slot: &Slot,
    minimum_part: Cents,
    following_closing: Day,
    out: &mut Vec<Entry>,
) -> Result<Parts, NoMemory>
    requires asked { MayMove segments.old rates.now slot.now.cents }
    requires minimum { pos 0 ≤ℤ minimum_part }
    requires within { minimum_part ≤ℤ slot.now.cents }
    ensures stands { OnOk result (EntersPayment index.now following_closing minimum_part slot.now rates.now segments.old out.old.items segments.new out.new.items) }
    ensures entries { IfOk result (λ parts. out.new.items ≡ out.old.items ++ parts_entries (record { day = slot.now.day; kind = kind.Payment; post = slot.now.number }) parts) }
    ensures whole { IfOk result (λ parts. AreParts segments.old.balances (at_least_zero slot.now.cents) parts) }
    ensures left { Leaves result segments.old segments.new out.old.items out.new.items }
    ensures capacity { vec_capacity out.old ≤ vec_capacity out.new }
{
    let parts = payment_parts(
        alloc,
        segments,
        rates,
        index,
        slot,
        minimum_part,
        following_closing,
    )?;
    let note = note_of(slot, EntryKind::Payment);
    take(segments, &parts, &note, out)?;
    Ok(parts)
}

/// A merchant's credit of so many cents on its effective day, and its parts: first to the segments of its place, the oldest
/// first, and then as the excess of a payment (12 CFR 1026.53), by the rates of the day under this index. The following closing is
/// the one after that of the day's cycle; where no segment of the rates is a deferred plan, any day will do. Condition: segments and
/// rates of one account, 0 to 10^15 cents, and balances of at most 10^15 cents in size. If memory runs out, balances and entries
/// are as they were.
pub fn credit(
    alloc: Global,
    segments: &mut Segments,
    rates: &RateBook,
    index: &IndexTable,
    slot: &Slot,
    place: &Place,
    following_closing: Day,
    out: &mut Vec<Entry>,
) -> Result<Parts, NoMemory>
    requires asked { MayMove segments.old rates.now slot.now.cents }
    ensures stands { OnOk result (EntersCredit index.now following_closing place.now slot.now rates.now segments.old out.old.items segments.new out.new.items) }
    ensures entries { IfOk result (λ parts. out.new.items ≡ out.old.items ++ parts_entries (record { day = slot.now.day; kind = kind.Credit; post = slot.now.number }) parts) }
    ensures whole { IfOk result (λ parts. AreParts segments.old.balances (at_least_zero slot.now.cents) parts) }
    ensures left { Leaves result segments.old segments.new out.old.items out.new.items }
    ensures capacity { vec_capacity out.old ≤ vec_capacity out.new }
{
    let parts = credit_parts(
        alloc,
        segments,
        rates,
        index,
        slot,
        place,
        following_closing,
    )?;
    let note = note_of(slot, EntryKind::Credit);
    take(segments, &parts, &note, out)?;
    Ok(parts)
}
