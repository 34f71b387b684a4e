ghost use Rattle.std.specs.Prelude.{◌≡◌, ℕ, ◌+◌, ◌<◌, ◌≤◌, ◌++◌, length, OnOk, OnErr, pos, ◌≤ℤ◌, slice_index_or, vec_len, vec_capacity};
ghost use Rattle.card_model.specs.Limits.{balance_limit};
ghost use Rattle.card_model.specs.Effects.{parts_entries};
ghost use Rattle.card_model.specs.Entries.{credit_in, debit, lowers};
ghost use Rattle.card_segments.specs.Balances.{AreWithin, after_entries, movable_balance};
ghost use Rattle.card_segments.specs.Parts.{AreCovered, AreOnSegments, back_entries, parts_sum, segment_back};

use crate::{Entry, Note, Parts, Segments};
use card_events::{Cents, NoMemory};

// Takes one part off its segment. There is room for its entry.
fn take_part(s: &mut Segments, segment: u8, cents: u64, note: &Note, out: &mut Vec<Entry>)
    requires room { vec_len out.old + 1 ≤ vec_capacity out.old }
    requires known { segment < length s.old.balances }
    requires covered { 1 ≤ segment → pos cents ≤ℤ slice_index_or s.old.balances segment (pos 0) }
    requires limit { cents ≤ balance_limit }
    requires small { AreWithin movable_balance s.old.balances }
    ensures ok { s.new ≡ after_entries (lowers note.now segment cents) s.old }
    ensures entries { out.new.items ≡ out.old.items ++ lowers note.now segment cents }
    ensures len { vec_len out.new ≤ vec_len out.old + 1 }
    ensures capacity { vec_capacity out.old ≤ vec_capacity out.new }
{
    match s.credit(segment, cents as Cents, note, out) {
        Ok(()) => {}
        Err(NoMemory) => unreachable!(),
    }
}

// Debits one part to a segment. There is room for its entries.
fn return_part(s: &mut Segments, segment: u8, cents: u64, note: &Note, out: &mut Vec<Entry>)
    requires room { vec_len out.old + 2 ≤ vec_capacity out.old }
    requires segment { 2 ≤ segment }
    requires known { segment < length s.old.balances }
    requires limit { cents ≤ balance_limit }
    requires small { AreWithin movable_balance s.old.balances }
    ensures ok { s.new ≡ after_entries (debit note.now segment cents (credit_in s.old.balances)) s.old }
    ensures entries { out.new.items ≡ out.old.items ++ debit note.now segment cents (credit_in s.old.balances) }
    ensures len { vec_len out.new ≤ vec_len out.old + 2 }
    ensures capacity { vec_capacity out.old ≤ vec_capacity out.new }
{
    match s.debit(segment, cents as Cents, note, out) {
        Ok(()) => {}
        Err(NoMemory) => unreachable!(),
    }
}

// The segment that a part is put back on.
fn segment_back(newest: u8, segment: u8) -> u8
    ensures { result ≡ segment_back newest segment }
{
    if segment == 0 { newest } else { segment }
}

/// Takes each part off its segment. Condition: no part is of Held; each part of a segment other than Credit is at most its
/// balance; together they are at most 10^15 cents; and balances are at most 9 * 10^15 cents in size. If memory runs out,
/// balances and entries are as they were.
pub fn take(
    s: &mut Segments,
    parts: &Parts,
    note: &Note,
    out: &mut Vec<Entry>,
) -> Result<(), NoMemory>
    requires on_segments { AreOnSegments (length s.old.balances) parts.now }
    requires covered { AreCovered s.old.balances parts.now }
    requires limit { parts_sum parts.now ≤ balance_limit }
    requires small { AreWithin 9_000_000_000_000_000 s.old.balances }
    ensures ok { OnOk result (s.new ≡ after_entries (parts_entries note.now parts.now) s.old) }
    ensures entries { OnOk result (out.new.items ≡ out.old.items ++ parts_entries note.now parts.now) }
    ensures err { OnErr result (s.new ≡ s.old) }
    ensures err_entries { OnErr result (out.new.items ≡ out.old.items) }
    ensures len { length s.new.balances ≡ length s.old.balances }
    ensures capacity { vec_capacity out.old ≤ vec_capacity out.new }
{
    let items = parts.items();
    // Room for all first, so that nothing fails between two parts.
    out.reserve(items.len())?;
    for i in 0..items.len() {
        let (segment, cents) = items[i];
        take_part(s, segment, cents, note, out);
    }
    Ok(())
}

/// Puts the parts of a returned payment back by debits, in order of segment number. Credit's part comes first: it uses up
/// the credit balance, and what that no longer holds is owed on the newest Purchase vintage. Condition: no part is of
/// Held; newest is no Credit and not Held; the parts are together at most 10^15 cents; and balances are at most 9 * 10^15
/// cents in size. If memory runs out, balances and entries are as they were.
pub fn put_back(
    s: &mut Segments,
    parts: &Parts,
    newest: u8,
    note: &Note,
    out: &mut Vec<Entry>,
) -> Result<(), NoMemory>
    requires on_segments { AreOnSegments (length s.old.balances) parts.now }
    requires newest { 2 ≤ newest }
    requires newest_known { newest < length s.old.balances }
    requires limit { parts_sum parts.now ≤ balance_limit }
    requires small { AreWithin 9_000_000_000_000_000 s.old.balances }
    ensures ok { OnOk result (s.new ≡ after_entries (back_entries note.now newest parts.now s.old.balances) s.old) }
    ensures entries { OnOk result (out.new.items ≡ out.old.items ++ back_entries note.now newest parts.now s.old.balances) }
    ensures err { OnErr result (s.new ≡ s.old) }
    ensures err_entries { OnErr result (out.new.items ≡ out.old.items) }
    ensures len { length s.new.balances ≡ length s.old.balances }
    ensures capacity { vec_capacity out.old ≤ vec_capacity out.new }
{
    let items = parts.items();
    // Room for all first, so that nothing fails between two parts.
    out.reserve(2 * items.len())?;
    for i in 0..items.len() {
        let (segment, cents) = items[i];
        return_part(s, segment_back(newest, segment), cents, note, out);
    }
    Ok(())
}
