// The transactions that the entries of a cycle make up.
ghost use Rattle.std.specs.Prelude.{◌≡◌, ◌≤◌, ◌+◌, ◌^◌, [], false, take, IfOk, OnOk, nat_abs};
ghost use Rattle.std.specs.List.{All, filter};
ghost use Rattle.card_model.specs.Entries as entries;
ghost use Rattle.card_statement.specs.Gathering.{later_of, place_of, raised_by, sizes, with_entry, with_if};
ghost use Rattle.card_model.specs.Sheets as spec;

use crate::Move;
use card_events::{Day, NoMemory};
use card_model::{Entry, EntryKind};
use std::alloc::Global;

// Whether an entry is of a transaction: interest has a line of its own, and a hold moves nothing that is owed.
fn moves_owed(entry: &Entry) -> bool
    ensures { result ≡ spec.moves_owed entry.now }
{
    match entry.kind {
        EntryKind::Interest => false,
        EntryKind::Hold => false,
        _ => true,
    }
}

// Whether two entries stand for the same reason.
fn is_kind(a: EntryKind, b: EntryKind) -> bool
    ensures { result ≡ entries.is_kind a b }
{
    match (a, b) {
        (EntryKind::Charge, EntryKind::Charge) => true,
        (EntryKind::Credit, EntryKind::Credit) => true,
        (EntryKind::Payment, EntryKind::Payment) => true,
        (EntryKind::Return, EntryKind::Return) => true,
        (EntryKind::Refund, EntryKind::Refund) => true,
        (EntryKind::Fee, EntryKind::Fee) => true,
        (EntryKind::Interest, EntryKind::Interest) => true,
        (EntryKind::Hold, EntryKind::Hold) => true,
        _ => false,
    }
}

// Whether an entry is of a transaction that stands.
fn is_of_move(entry: &Entry, line: &Move) -> bool
    ensures { result ≡ spec.is_of_move entry.now line.now }
{
    line.day == entry.day && is_kind(line.kind, entry.kind) && line.post == entry.post
}

// The transaction that an entry begins.
fn begun(entry: &Entry) -> Move
    ensures { result ≡ spec.begun_move entry.now [] }
{
    Move {
        day: entry.day,
        kind: entry.kind,
        post: entry.post,
        cents: entry.cents,
    }
}

// Adds the cents of an entry to its transaction.
fn raise(line: &mut Move, entry: &Entry)
    requires small { nat_abs line.old.cents + nat_abs entry.now.cents ≤ 10 ^ 17 }
    ensures { line.new ≡ raised_by entry.now line.old }
{
    line.cents += entry.cents;
}

// Adds an entry to its transaction, or begins that: no transaction before this place is the entry's.
fn add(moves: &mut Vec<Move>, from: usize, entry: &Entry) -> Result<(), NoMemory>
    requires small { All (λ m. nat_abs m.cents + nat_abs entry.now.cents ≤ 10 ^ 17) moves.old.items }
    requires others { All (λ m. spec.is_of_move entry.now m ≡ false) (take from moves.old.items) }
    ensures { OnOk result (moves.new.items ≡ with_entry entry.now moves.old.items) }
{
    for i in from..moves.len() {
        if is_of_move(entry, &moves[i]) {
            raise(&mut moves[i], entry);
            return Ok(());
        }
    }
    moves.push(begun(entry))?;
    Ok(())
}

// Adds an entry, where it is of a transaction.
fn add_if(moves: &mut Vec<Move>, from: usize, entry: &Entry) -> Result<(), NoMemory>
    requires small { All (λ m. nat_abs m.cents + nat_abs entry.now.cents ≤ 10 ^ 17) moves.old.items }
    requires others { All (λ m. spec.is_of_move entry.now m ≡ false) (take from moves.old.items) }
    ensures { OnOk result (moves.new.items ≡ with_if entry.now moves.old.items) }
{
    if moves_owed(entry) {
        add(moves, from, entry)?;
    }
    Ok(())
}

// Where the transactions of a day may begin among so many, where the latest one so far is this day and its own begin at a
// place: there on that day, behind all on a later day, and anywhere on an earlier one.
fn beginning(latest: Day, from: usize, count: usize, day: Day) -> usize
    ensures { result ≡ place_of latest from count day }
{
    if day > latest {
        count
    } else if day < latest {
        0
    } else {
        from
    }
}

// The later of two days.
fn later(latest: Day, day: Day) -> Day
    ensures { result ≡ later_of latest day }
{
    if day > latest { day } else { latest }
}

// All transactions of entries, those that came to nothing too. Where entries stand in the order of their days, each is looked
// for among the transactions of its own day alone.
fn gather(alloc: Global, entries: &[Entry]) -> Result<Vec<Move>, NoMemory>
    requires small { sizes entries.now ≤ 10 ^ 17 }
    ensures { IfOk result (λ moves. moves.items ≡ spec.gathered (filter spec.moves_owed entries.now)) }
{
    let mut moves = Vec::new(alloc);
    let mut latest = Day::first();
    let mut from = 0;
    for i in 0..entries.len() {
        let entry = &entries[i];
        from = beginning(latest, from, moves.len(), entry.day);
        latest = later(latest, entry.day);
        add_if(&mut moves, from, entry)?;
    }
    Ok(moves)
}

// Whether a transaction came to something.
fn has_cents(line: &Move) -> bool
    ensures { result ≡ spec.has_cents line.now }
{
    line.cents != 0
}

// Those of them that came to something.
fn keep_moved(moves: &mut Vec<Move>)
    ensures { moves.new.items ≡ filter spec.has_cents moves.old.items }
{
    moves.retain(|line| has_cents(line));
}

/// The transactions that the entries of a cycle make up, each where its first entry stands (12 CFR 1026.7(b)(2), (b)(3),
/// (b)(6)): one post, or one fee, with the cents of its entries of one kind. Interest and holds are none, nor is what adds up to
/// 0. The entries move at most 10^17 cents in all.
#[tactic(auto, unfolding(card_model::specs::Sheets::moves_of))]
pub fn moves_of(alloc: Global, entries: &[Entry]) -> Result<Vec<Move>, NoMemory>
    requires small { sizes entries.now ≤ 10 ^ 17 }
    ensures { IfOk result (λ moves. moves.items ≡ spec.moves_of entries.now) }
{
    let mut moves = gather(alloc, entries)?;
    keep_moved(&mut moves);
    Ok(moves)
}
