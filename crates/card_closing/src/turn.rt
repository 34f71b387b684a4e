// What a closing charges to one segment.
ghost use Rattle.std.specs.Prelude.{◌≡◌, ◌+◌, ◌-◌, ◌<◌, ◌≤◌, length, OnOk, pos, List, slice_index_or, option_copied, vec_capacity};
ghost use Rattle.card_model.specs.Closing.{within_limit};
ghost use Rattle.card_model.specs.Entries.{at_least_zero};
ghost use Rattle.card_model.specs.declared.entry.Entry.{Entry};
ghost use Rattle.card_closing.specs.Turns.{AreInStep, BeginsWith, StayInStep, charge_for, charged, debited, interest_limit, left_by, turn_of, with_amount};

use crate::fees::at_least_zero;
use crate::{Amounts, Cycle};
use card_events::{Cents, NoMemory};
use card_segments::{Entry, Note, Segments};

// Of an amount, what keeps a balance within 10^13 cents.
fn within_limit(balance: Cents, cents: u64) -> u64
    ensures value { result ≡ within_limit (at_least_zero balance) cents }
    ensures high { result ≤ interest_limit - at_least_zero balance }
{
    let room = 10_000_000_000_000u64.saturating_sub(at_least_zero(balance));
    room.min(cents)
}

// Of an amount, what the issued statement leaves.
#[tactic(auto, unfolding(crate::specs::Turns::left_by))]
fn capped(issued: Option<&Cycle>, done: &Amounts, segment: u8, cents: u64) -> u64
    ensures value { result ≡ left_by (option_copied issued.entry) done.now segment cents }
    ensures high { result ≤ cents }
{
    match issued {
        Some(cycle) => {
            let left = cycle.interest.at(segment).saturating_sub(done.at(segment));
            left.min(cents as u128) as u64
        }
        None => cents,
    }
}

// Adds an amount, where it isn't 0.
pub fn add(done: &mut Amounts, segment: u8, cents: u64) -> Result<(), NoMemory>
    ensures { OnOk result (done.new ≡ with_amount segment cents done.old) }
{
    if cents != 0 {
        done.push(segment, cents)?;
    }
    Ok(())
}

// What is charged to a segment of what is asked of it.
#[tactic(auto, unfolding(crate::specs::Turns::charge_for))]
fn charge_of(issued: Option<&Cycle>, done: &Amounts, segments: &Segments, id: u8, asked: u64) -> u64
    requires known { id < length segments.now.balances }
    ensures value { (entries : List Entry) → AreInStep segments.now entries → result ≡ charge_for (option_copied issued.entry) (turn_of done.now entries) id asked }
    ensures high { result ≤ interest_limit - at_least_zero (slice_index_or segments.now.balances id (pos 0)) }
{
    let kept = within_limit(segments.balance(id), asked);
    capped(issued, done, id, kept)
}

// Debits a segment of which at most 10^13 cents are owed then.
pub fn debit(
    segments: &mut Segments,
    note: &Note,
    id: u8,
    cents: u64,
    out: &mut Vec<Entry>,
) -> Result<(), NoMemory>
    requires segment { 2 ≤ id }
    requires known { id < length segments.old.balances }
    requires step { AreInStep segments.old out.old.items }
    requires high { cents ≤ interest_limit - at_least_zero (slice_index_or segments.old.balances id (pos 0)) }
    ensures entries { OnOk result (out.new.items ≡ debited note.now id cents out.old.items) }
    ensures kept { OnOk result (StayInStep segments.old segments.new out.new.items) }
    ensures begins { BeginsWith out.old.items out.new.items }
    ensures capacity { vec_capacity out.old ≤ vec_capacity out.new }
{
    segments.debit(id, cents as i64, note, out)?;
    Ok(())
}

// Charges a segment what is asked of it, within the limit and what the issued statement leaves.
pub fn charge(
    segments: &mut Segments,
    done: &mut Amounts,
    issued: Option<&Cycle>,
    note: &Note,
    id: u8,
    asked: u64,
    out: &mut Vec<Entry>,
) -> Result<(), NoMemory>
    requires segment { 2 ≤ id }
    requires known { id < length segments.old.balances }
    requires step { AreInStep segments.old out.old.items }
    ensures turn { OnOk result (turn_of done.new out.new.items ≡ charged (option_copied issued.entry) note.now id asked (turn_of done.old out.old.items)) }
    ensures kept { OnOk result (StayInStep segments.old segments.new out.new.items) }
    ensures begins { BeginsWith out.old.items out.new.items }
    ensures capacity { vec_capacity out.old ≤ vec_capacity out.new }
{
    if asked == 0 {
        return Ok(());
    }
    let cents = charge_of(issued, done, segments, id, asked);
    debit(segments, note, id, cents, out)?;
    add(done, id, cents)?;
    Ok(())
}
