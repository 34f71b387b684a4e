// What is debited to a segment.
ghost use Rattle.std.specs.Prelude.{◌≡◌, ℕ, Option, Some, OnOk, OnErr, pos, ◌≤ℤ◌, vec_capacity, ◌≤◌};
ghost use Rattle.card_model.specs.Limits.{balance_limit};
ghost use Rattle.card_effects.specs.Entering.{ChargesFee, Enters, Leaves, MayMove};
ghost use Rattle.card_events.specs.History.{CorrectedPost};
ghost use Rattle.card_events.specs.declared.post.Post.TheVariants as post;
ghost use Rattle.card_model.specs.Books.{Account, Book};
ghost use Rattle.card_model.specs.Cycles.{IssuedRow, Seen};
ghost use Rattle.card_model.specs.Effects.{effect};
ghost use Rattle.card_model.specs.Fees.{with_fee};
ghost use Rattle.card_segments.specs.Balances.{AreWithin};

use crate::place::{newest, segment_at};
use card_events::{Category, Day, NoMemory, Place, Slot};
use card_model::Fee;
use card_rates::RateBook;
use card_segments::{Entry, EntryKind, Note, Segments};

// The note of a post's entries.
pub(crate) fn note_of(slot: &Slot, kind: EntryKind) -> Note
    ensures { result ≡ record { day = slot.now.day; kind = kind; post = slot.now.number } }
{
    Note {
        day: slot.day,
        kind,
        post: slot.number,
    }
}

/// A charge of so many cents on its effective day: it uses up the credit balance first (12 CFR 1026.11(a)), and the rest is
/// owed on the newest vintage of its category that has begun, or on its plan. Condition: segments and rates of one account,
/// 0 to 10^15 cents, and balances of at most 10^15 cents in size. If memory runs out, balances and entries are as they
/// were.
pub fn charge(
    segments: &mut Segments,
    rates: &RateBook,
    slot: &Slot,
    place: &Place,
    out: &mut Vec<Entry>,
) -> Result<(), NoMemory>
    requires asked { MayMove segments.old rates.now slot.now.cents }
    ensures stands { OnOk result ((day cents : ℕ) → Enters (post.Charge day place.now cents) slot.now rates.now segments.old out.old.items segments.new out.new.items) }
    ensures left { Leaves result segments.old segments.new out.old.items out.new.items }
    ensures capacity { vec_capacity out.old ≤ vec_capacity out.new }
{
    let segment = segment_at(segments, rates, place, slot.day);
    let note = note_of(slot, EntryKind::Charge);
    segments.debit(segment, slot.cents, &note, out)?;
    Ok(())
}

/// A refund of so many cents of a credit balance (12 CFR 1026.11(a)); what the balance no longer holds is owed on the newest
/// purchases. Condition: segments and rates of one account, 0 to 10^15 cents, and balances of at most 10^15 cents in size.
/// If memory runs out, balances and entries are as they were.
pub fn refund(
    segments: &mut Segments,
    rates: &RateBook,
    slot: &Slot,
    out: &mut Vec<Entry>,
) -> Result<(), NoMemory>
    requires asked { MayMove segments.old rates.now slot.now.cents }
    ensures stands { OnOk result ((cents : ℕ) → Enters (post.Refund cents) slot.now rates.now segments.old out.old.items segments.new out.new.items) }
    ensures left { Leaves result segments.old segments.new out.old.items out.new.items }
    ensures capacity { vec_capacity out.old ≤ vec_capacity out.new }
{
    let segment = newest(segments, rates, Category::Purchase, slot.day);
    let note = note_of(slot, EntryKind::Refund);
    segments.debit(segment, slot.cents, &note, out)?;
    Ok(())
}

/// A penalty fee that is charged on a day (12 CFR 1026.52(b)): it is debited to the newest purchases. The number is that of
/// the post which returned a payment, and 0 for a late fee. Condition: segments and rates of one account, a fee of 0 to
/// 10^15 cents, and balances of at most 10^15 cents in size. If memory runs out, balances and entries are as they were.
pub fn fee(
    segments: &mut Segments,
    rates: &RateBook,
    day: Day,
    number: u32,
    fee: &Fee,
    out: &mut Vec<Entry>,
) -> Result<(), NoMemory>
    requires asked { MayMove segments.old rates.now fee.now.cents }
    ensures stands { OnOk result (ChargesFee day number (Some fee.now) rates.now segments.old out.old.items segments.new out.new.items) }
    ensures left { Leaves result segments.old segments.new out.old.items out.new.items }
    ensures capacity { vec_capacity out.old ≤ vec_capacity out.new }
{
    let segment = newest(segments, rates, Category::Purchase, day);
    let note = Note {
        day,
        kind: EntryKind::Fee,
        post: number,
    };
    segments.debit(segment, fee.cents, &note, out)?;
    Ok(())
}
