// Balances before entries.
ghost use Rattle.std.specs.Prelude.{◌≡◌, ◌≤◌, ◌<◌, ◌++◌, [], ◌∷◌, drop, length, pos, ◌+ℤ◌, neg_ℤ, slice_index_or, IfOk, ℕ};
ghost use Rattle.card_model.specs.Entries.{balance};
ghost use Rattle.card_segments.specs.Balances.{AreWithin, IsWithin, largest_balance};
ghost use Rattle.card_segments.specs.Unposted.{MayGoBack, balance_before};

use crate::Entry;
use card_events::{Cents, NoMemory};
use std::alloc::Global;

// What an entry moves on a segment.
fn moved_on(entry: &Entry, id: u8) -> Cents
    ensures { result ≡ balance id (entry.now ∷ []) }
{
    if entry.segment == id { entry.cents } else { 0 }
}

// The balance of a segment before entries. The sum on the way is wider than a balance, since entries may move more than is
// left of them.
fn one_before(after: Cents, id: u8, entries: &[Entry]) -> Cents
    requires after { IsWithin largest_balance after }
    requires before { IsWithin largest_balance (after +ℤ neg_ℤ (balance id entries.now)) }
    ensures { result ≡ after +ℤ neg_ℤ (balance id entries.now) }
{
    let mut sum = i128::from(after);
    for entry in entries {
        sum -= i128::from(moved_on(entry, id));
    }
    sum as Cents
}

// The balances of all segments before entries, in memory of their own.
pub fn balances_before(
    alloc: Global,
    balances: &[Cents],
    entries: &[Entry],
) -> Result<Vec<Cents>, NoMemory>
    requires small { AreWithin largest_balance balances.now }
    requires few { length balances.now ≤ 64 }
    requires back { MayGoBack entries.now balances.now }
    ensures count { IfOk result (λ list. length list.items ≡ length balances.now) }
    ensures each { IfOk result (λ list. (s : ℕ) → s < length balances.now → slice_index_or list.items s (pos 0) ≡ balance_before s entries.now balances.now) }
{
    let mut list = Vec::from_slice(alloc, balances)?;
    for i in 0..balances.len() {
        list[i] = one_before(balances[i], i as u8, entries);
    }
    Ok(list)
}

// Writes balances over the first ones.
pub fn write_first(balances: &mut [Cents], first: &[Cents])
    requires { length first.now ≤ length balances.old }
    ensures { balances.new ≡ first.now ++ drop (length first.now) balances.old }
{
    balances[..first.len()].copy_from_slice(first);
}
