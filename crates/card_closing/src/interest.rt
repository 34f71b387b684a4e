// The interest of all segments, and the accruals whose period ends.
ghost use Rattle.std.specs.Prelude.{◌≡◌, ◌+◌, ◌<◌, nat_lt, length, List, OnOk, slice_index_or, option_copied, vec_capacity, ◌≤◌};
ghost use Rattle.card_model.specs.Entries.{owing};
ghost use Rattle.card_model.specs.declared.entry.Entry.{Entry};
ghost use Rattle.card_model.specs.declared.segment.Segment.{Segment};
ghost use Rattle.card_closing.specs.Interest.{accruals_of_all, charge_where_owed, cycle_charge, ends_in, interest_of_all, note_on};
ghost use Rattle.card_closing.specs.Turns.{AreInStep, BeginsWith, StayInStep, turn_of};

use crate::fees::at_least_zero;
use crate::turn::charge;
use crate::{Accrual, Amounts, Closing, Cycle, CycleRows, GraceCase, case_of, is_deferred};
use card_events::{Day, NoMemory, interest};
use card_segments::{Entry, EntryKind, Note, Segment, Segments};

// Whether it is a deferred balance whose period ends on a day.
fn ends_on(segment: &Segment, day: Day) -> bool
    ensures { result ≡ ends_in day segment.now }
{
    match segment.ends {
        Some(end) => is_deferred(segment, day) && end <= day,
        None => false,
    }
}

// The interest of a segment in the cycle.
#[tactic(auto, unfolding(crate::specs::Interest::cycle_charge))]
fn interest_of(rows: &CycleRows, purchase: &GraceCase, day: Day, segment: &Segment) -> u64
    ensures { result ≡ cycle_charge purchase.now day segment.now rows.now }
{
    interest(rows.interest_sum(case_of(purchase, segment, day))) as u64
}

// The note of a day's interest.
fn note_on(day: Day) -> Note
    ensures { result ≡ note_on day }
{
    Note {
        day,
        kind: EntryKind::Interest,
        post: 0,
    }
}

// Charges each segment the interest of its rows.
pub fn charge_interest(
    segments: &mut Segments,
    done: &mut Amounts,
    closing: &Closing,
    issued: Option<&Cycle>,
    rows: &[CycleRows],
    out: &mut Vec<Entry>,
) -> Result<(), NoMemory>
    requires rows { length rows.now + 2 ≡ length segments.old.balances }
    requires step { AreInStep segments.old out.old.items }
    ensures turn { OnOk result (turn_of done.new out.new.items ≡ interest_of_all (option_copied issued.entry) closing.now segments.old.segments rows.now (turn_of done.old out.old.items)) }
    ensures kept { OnOk result (StayInStep segments.old segments.new out.new.items) }
    ensures begins { BeginsWith out.old.items out.new.items }
    ensures capacity { vec_capacity out.old ≤ vec_capacity out.new }
{
    // The rows stay while entries are posted: what one segment is charged changes no other's sum.
    let note = note_on(closing.closing);
    for id in 2..segments.len() {
        let rows = &rows[id as usize - 2];
        let asked = interest_of(rows, &closing.purchase, closing.closing, segments.get(id));
        charge(segments, done, issued, &note, id, asked, out)?;
    }
    Ok(())
}

// Whether something is owed on a segment.
fn is_owed(segments: &Segments, id: u8) -> bool
    requires known { id < length segments.now.balances }
    ensures { (entries : List Entry) → AreInStep segments.now entries → result ≡ nat_lt 0 (owing id entries) }
{
    0 < at_least_zero(segments.balance(id))
}

// What a segment is asked of its accrual, where its period ends on the day: nothing where nothing is owed on it.
#[tactic(auto, unfolding(crate::specs::Interest::accrual_charge))]
fn accrued_where_owed(segments: &Segments, accrual: &Accrual, day: Day, id: u8) -> u64
    requires known { id < length segments.now.balances }
    ensures { (entries : List Entry) → AreInStep segments.now entries → (d : Segment) → result ≡ charge_where_owed day id (slice_index_or segments.now.segments id d) accrual.now entries }
{
    let _count = segments.len();
    if ends_on(segments.get(id), day) && is_owed(segments, id) {
        interest(accrual.sum()) as u64
    } else {
        0
    }
}

// Charges each deferred balance whose period ends what it accrued, where something is owed on it.
pub fn charge_accruals(
    segments: &mut Segments,
    done: &mut Amounts,
    closing: &Closing,
    issued: Option<&Cycle>,
    accruals: &[Accrual],
    out: &mut Vec<Entry>,
) -> Result<(), NoMemory>
    requires accruals { length accruals.now + 2 ≡ length segments.old.balances }
    requires step { AreInStep segments.old out.old.items }
    ensures turn { OnOk result (turn_of done.new out.new.items ≡ accruals_of_all (option_copied issued.entry) closing.now segments.old.segments accruals.now (turn_of done.old out.old.items)) }
    ensures kept { OnOk result (StayInStep segments.old segments.new out.new.items) }
    ensures begins { BeginsWith out.old.items out.new.items }
    ensures capacity { vec_capacity out.old ≤ vec_capacity out.new }
{
    let note = note_on(closing.closing);
    for id in 2..segments.len() {
        let asked = accrued_where_owed(segments, &accruals[id as usize - 2], closing.closing, id);
        charge(segments, done, issued, &note, id, asked, out)?;
    }
    Ok(())
}
