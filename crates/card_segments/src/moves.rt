// How balances and entries move together. Room for the entries is made by the caller.
ghost use Rattle.std.specs.Prelude.{◌≡◌, ℕ, ◌+◌, ◌-◌, ◌<◌, ◌≤◌, ◌++◌, length, min, pos, ◌≤ℤ◌, slice_index_or, vec_len, vec_capacity};
ghost use Rattle.card_model.specs.Limits.{balance_limit};
ghost use Rattle.card_model.specs.Entries.{at_least_zero, credit_in, debit, entry_of, holds, lowers, negated, posted, releases};
ghost use Rattle.card_segments.specs.Balances.{AreWithin, IsWithin, MayMoveWithin, largest_balance, movable_balance, total};

use crate::{Entry, Note};
use card_events::Cents;

// Adds an entry, where the amount isn't 0: the balance moves, and the entry is recorded.
fn post(balances: &mut Vec<Cents>, out: &mut Vec<Entry>, note: &Note, id: u8, cents: Cents)
    requires room { vec_len out.old < vec_capacity out.old }
    requires known { id < length balances.old.items }
    requires small { IsWithin largest_balance (slice_index_or balances.old.items id (pos 0)) }
    requires amount { IsWithin balance_limit cents }
    ensures balances { balances.new.items ≡ posted (entry_of note.now id cents) balances.old.items }
    ensures entries { out.new.items ≡ out.old.items ++ entry_of note.now id cents }
    ensures len { vec_len out.new ≤ vec_len out.old + 1 }
    ensures capacity { vec_capacity out.old ≤ vec_capacity out.new }
{
    if cents != 0 {
        let before = balances[id as usize];
        balances[id as usize] = before + cents;
        let entry = Entry {
            day: note.day,
            segment: id,
            kind: note.kind,
            post: note.post,
            cents,
        };
        out.push_reserved(entry);
    }
}

// What Credit holds.
fn credit_of(balances: &[Cents]) -> Cents
    requires some { 0 < length balances.now }
    requires small { IsWithin largest_balance (slice_index_or balances.now 0 (pos 0)) }
    ensures { result ≡ pos (credit_in balances.now) }
{
    let credit = balances[0];
    if credit < 0 { -credit } else { 0 }
}

// The lesser of two amounts.
fn lesser(a: Cents, b: Cents) -> Cents
    requires a { pos 0 ≤ℤ a }
    requires b { pos 0 ≤ℤ b }
    ensures { result ≡ pos (min (at_least_zero a) (at_least_zero b)) }
{
    if a < b { a } else { b }
}

// The part of an amount that exceeds another.
fn beyond(a: Cents, b: Cents) -> Cents
    requires a { pos 0 ≤ℤ a }
    requires b { pos 0 ≤ℤ b }
    ensures { result ≡ pos (at_least_zero a - at_least_zero b) }
{
    if b < a { a - b } else { 0 }
}

// An amount below 0.
fn minus(cents: Cents) -> Cents
    requires { pos 0 ≤ℤ cents }
    ensures { result ≡ negated (at_least_zero cents) }
{
    -cents
}

// Raises Credit towards 0 by what it can, and the segment by the rest.
#[tactic(auto, using(card_model::proofs::Posted::posted_append), unfolding(card_model::specs::Entries::debit))]
pub fn raise(balances: &mut Vec<Cents>, out: &mut Vec<Entry>, note: &Note, id: u8, cents: Cents)
    requires room { vec_len out.old + 2 ≤ vec_capacity out.old }
    requires segment { 2 ≤ id }
    requires known { id < length balances.old.items }
    requires asked { MayMoveWithin largest_balance cents balances.old.items }
    ensures balances { balances.new.items ≡ posted (debit note.now id (at_least_zero cents) (credit_in balances.old.items)) balances.old.items }
    ensures entries { out.new.items ≡ out.old.items ++ debit note.now id (at_least_zero cents) (credit_in balances.old.items) }
    ensures len { vec_len out.new ≤ vec_len out.old + 2 }
    ensures capacity { vec_capacity out.old ≤ vec_capacity out.new }
{
    let credit = credit_of(balances);
    post(balances, out, note, 0, lesser(cents, credit));
    post(balances, out, note, id, beyond(cents, credit));
}

// Lowers the segment.
pub fn lower(balances: &mut Vec<Cents>, out: &mut Vec<Entry>, note: &Note, id: u8, cents: Cents)
    requires room { vec_len out.old < vec_capacity out.old }
    requires known { id < length balances.old.items }
    requires asked { MayMoveWithin largest_balance cents balances.old.items }
    ensures balances { balances.new.items ≡ posted (lowers note.now id (at_least_zero cents)) balances.old.items }
    ensures entries { out.new.items ≡ out.old.items ++ lowers note.now id (at_least_zero cents) }
    ensures len { vec_len out.new ≤ vec_len out.old + 1 }
    ensures capacity { vec_capacity out.old ≤ vec_capacity out.new }
{
    post(balances, out, note, id, minus(cents));
}

// Lowers the segment, and raises Held by as much.
#[tactic(auto, using(card_model::proofs::Posted::posted_append))]
pub fn hold(balances: &mut Vec<Cents>, out: &mut Vec<Entry>, note: &Note, id: u8, cents: Cents)
    requires room { vec_len out.old + 2 ≤ vec_capacity out.old }
    requires segment { 2 ≤ id }
    requires known { id < length balances.old.items }
    requires asked { MayMoveWithin largest_balance cents balances.old.items }
    ensures balances { balances.new.items ≡ posted (holds note.now id (at_least_zero cents)) balances.old.items }
    ensures entries { out.new.items ≡ out.old.items ++ holds note.now id (at_least_zero cents) }
    ensures len { vec_len out.new ≤ vec_len out.old + 2 }
    ensures capacity { vec_capacity out.old ≤ vec_capacity out.new }
{
    lower(balances, out, note, id, cents);
    post(balances, out, note, 1, cents);
}

// Lowers Held, and debits the segment with as much.
#[tactic(auto, using(card_model::proofs::Posted::posted_append))]
pub fn release(balances: &mut Vec<Cents>, out: &mut Vec<Entry>, note: &Note, id: u8, cents: Cents)
    requires room { vec_len out.old + 3 ≤ vec_capacity out.old }
    requires segment { 2 ≤ id }
    requires known { id < length balances.old.items }
    requires asked { MayMoveWithin movable_balance cents balances.old.items }
    ensures balances { balances.new.items ≡ posted (releases note.now id (at_least_zero cents) (credit_in balances.old.items)) balances.old.items }
    ensures entries { out.new.items ≡ out.old.items ++ releases note.now id (at_least_zero cents) (credit_in balances.old.items) }
    ensures len { vec_len out.new ≤ vec_len out.old + 3 }
    ensures capacity { vec_capacity out.old ≤ vec_capacity out.new }
{
    lower(balances, out, note, 1, cents);
    raise(balances, out, note, id, cents);
}

// The sum of the balances.
pub fn sum(balances: &[Cents]) -> Cents
    requires few { length balances.now ≤ 64 }
    requires small { AreWithin largest_balance balances.now }
    ensures { result ≡ total balances.now }
{
    let mut sum = 0;
    for balance in balances {
        sum += *balance;
    }
    sum
}
