// The lists of a sheet in words.
ghost use Rattle.std.specs.Prelude.{◌≡◌, ◌<◌, ◌≤◌, ◌++◌, length, IfOk, OnOk, flat_map, slice_index_or};
ghost use Rattle.std.specs.List.{All};
ghost use Rattle.card_events.specs.Range.{first_calendar_day, last_calendar_day};
ghost use Rattle.card_statement.specs.Packing.{IsAmount, IsDeferred, IsMove, IsRate};
ghost use Rattle.card_statement.specs.Packing as spec;

use card_closing::Amounts;
use card_events::{Day, NoMemory};
use card_model::{DeferredLine, EntryKind, Move, RateLine, Sort};
use std::alloc::Global;

// One more than the greatest number in a word.
const WORD: u128 = 18_446_744_073_709_551_616;

fn kind_code(kind: EntryKind) -> u64
    ensures value { result ≡ spec.kind_code kind }
    ensures few { result ≤ 7 }
{
    match kind {
        EntryKind::Charge => 0,
        EntryKind::Credit => 1,
        EntryKind::Payment => 2,
        EntryKind::Return => 3,
        EntryKind::Refund => 4,
        EntryKind::Fee => 5,
        EntryKind::Interest => 6,
        EntryKind::Hold => 7,
    }
}

fn sort_code(sort: Sort) -> u64
    ensures value { result ≡ spec.sort_code sort }
    ensures few { result ≤ 7 }
{
    match sort {
        Sort::Credit => 0,
        Sort::Held => 1,
        Sort::Purchase => 2,
        Sort::Cash => 3,
        Sort::Transfer => 4,
        Sort::Promo => 5,
        Sort::Deferred => 6,
    }
}

// The number of a day.
fn day_code(day: Day) -> u64
    ensures value { result ≡ day }
    ensures low { first_calendar_day ≤ day }
    ensures high { day ≤ last_calendar_day }
{
    day.number() as u64
}

// Adds a wide number.
#[tactic(auto, unfolding(crate::specs::Packing::wide_words))]
fn put_wide(words: &mut Vec<u64>, sum: u128) -> Result<(), NoMemory>
    ensures { OnOk result (words.new.items ≡ words.old.items ++ spec.wide_words sum) }
{
    words.extend_from_slice(&[(sum % WORD) as u64, (sum / WORD) as u64])?;
    Ok(())
}

// Adds the line of a transaction.
#[tactic(auto, unfolding(crate::specs::Packing::move_words))]
fn put_move(words: &mut Vec<u64>, line: &Move) -> Result<(), NoMemory>
    ensures written { OnOk result (words.new.items ≡ words.old.items ++ spec.move_words line.now) }
    ensures held { OnOk result (IsMove line.now) }
{
    let named = (line.post as u64 * 65_536 + day_code(line.day)) * 8 + kind_code(line.kind);
    words.extend_from_slice(&[named, line.cents.cast_unsigned()])?;
    Ok(())
}

// Adds the line of a rate.
#[tactic(auto, unfolding(crate::specs::Packing::rate_words))]
fn put_rate(words: &mut Vec<u64>, line: &RateLine) -> Result<(), NoMemory>
    ensures written { OnOk result (words.new.items ≡ words.old.items ++ spec.rate_words line.now) }
    ensures held { OnOk result (IsRate line.now) }
{
    let named = (line.rate.get() as u64 * 8 + sort_code(line.sort)) * 256 + line.segment as u64;
    words.push(named)?;
    put_wide(words, line.average)?;
    put_wide(words, line.interest)
}

// Adds the line of a plan with deferred interest.
#[tactic(auto, unfolding(crate::specs::Packing::deferred_words))]
fn put_deferred(words: &mut Vec<u64>, line: &DeferredLine) -> Result<(), NoMemory>
    ensures written { OnOk result (words.new.items ≡ words.old.items ++ spec.deferred_words line.now) }
    ensures held { OnOk result (IsDeferred line.now) }
{
    let named = day_code(line.ends) * 256 + line.segment as u64;
    words.extend_from_slice(&[
        named,
        line.balance.cast_unsigned(),
        line.accrued.cast_unsigned(),
    ])?;
    Ok(())
}

// Adds what is owed on a segment, the one at a place of all.
#[tactic(auto, unfolding(crate::specs::Packing::amount_words))]
fn put_amount(words: &mut Vec<u64>, amounts: &Amounts, place: usize) -> Result<(), NoMemory>
    requires there { place < length amounts.now }
    ensures written { OnOk result (words.new.items ≡ words.old.items ++ spec.amount_words (slice_index_or amounts.now place (0, 0))) }
    ensures held { OnOk result (IsAmount (slice_index_or amounts.now place (0, 0))) }
{
    let (segment, cents) = amounts.get(place);
    words.extend_from_slice(&[segment as u64, cents])?;
    Ok(())
}

// Adds the lines of transactions.
fn put_moves(words: &mut Vec<u64>, lines: &[Move]) -> Result<(), NoMemory>
    ensures written { OnOk result (words.new.items ≡ words.old.items ++ flat_map spec.move_words lines.now) }
    ensures held { OnOk result (All IsMove lines.now) }
{
    for line in lines {
        put_move(words, line)?;
    }
    Ok(())
}

// Adds the lines of rates.
fn put_rates(words: &mut Vec<u64>, lines: &[RateLine]) -> Result<(), NoMemory>
    ensures written { OnOk result (words.new.items ≡ words.old.items ++ flat_map spec.rate_words lines.now) }
    ensures held { OnOk result (All IsRate lines.now) }
{
    for line in lines {
        put_rate(words, line)?;
    }
    Ok(())
}

// Adds the lines of plans with deferred interest.
fn put_deferreds(words: &mut Vec<u64>, lines: &[DeferredLine]) -> Result<(), NoMemory>
    ensures written { OnOk result (words.new.items ≡ words.old.items ++ flat_map spec.deferred_words lines.now) }
    ensures held { OnOk result (All IsDeferred lines.now) }
{
    for line in lines {
        put_deferred(words, line)?;
    }
    Ok(())
}

// Adds what is owed on each segment.
fn put_amounts(words: &mut Vec<u64>, amounts: &Amounts) -> Result<(), NoMemory>
    ensures written { OnOk result (words.new.items ≡ words.old.items ++ flat_map spec.amount_words amounts.now) }
    ensures held { OnOk result (All IsAmount amounts.now) }
{
    for place in 0..amounts.len() {
        put_amount(words, amounts, place)?;
    }
    Ok(())
}

// The words of lists.
#[tactic(auto, using(crate::proofs::PackingSteps::pieces), unfolding(crate::specs::Packing::lists_words))]
fn words_of(
    alloc: Global,
    moves: &[Move],
    rates: &[RateLine],
    deferred: &[DeferredLine],
    closing: &Amounts,
) -> Result<Vec<u64>, NoMemory>
    ensures written { IfOk result (λ words. words.items ≡ spec.lists_words moves.now rates.now deferred.now closing.now) }
    ensures moves { IfOk result (λ words. All IsMove moves.now) }
    ensures rates { IfOk result (λ words. All IsRate rates.now) }
    ensures deferred { IfOk result (λ words. All IsDeferred deferred.now) }
    ensures closing { IfOk result (λ words. All IsAmount closing.now) }
{
    let counts = [
        moves.len() as u64,
        rates.len() as u64,
        deferred.len() as u64,
        closing.len() as u64,
    ];
    let mut words = Vec::with_capacity(
        alloc,
        room(moves.len(), rates.len(), deferred.len(), closing.len()),
    )?;
    words.extend_from_slice(&counts)?;
    put_moves(&mut words, moves)?;
    put_rates(&mut words, rates)?;
    put_deferreds(&mut words, deferred)?;
    put_amounts(&mut words, closing)?;
    Ok(words)
}

// How many words lists with so many lines have, or the most that a number can be.
fn room(moves: usize, rates: usize, deferred: usize, closing: usize) -> usize {
    let pairs = moves.saturating_add(closing).saturating_mul(2);
    let rates = rates.saturating_mul(5);
    let deferred = deferred.saturating_mul(3);
    pairs
        .saturating_add(rates)
        .saturating_add(deferred)
        .saturating_add(4)
}

/// Lists in words, of which they are read again.
pub fn pack_lists(
    alloc: Global,
    moves: &[Move],
    rates: &[RateLine],
    deferred: &[DeferredLine],
    closing: &Amounts,
) -> Result<Vec<u64>, NoMemory>
    ensures moves { IfOk result (λ words. spec.moves_in words.items ≡ moves.now) }
    ensures rates { IfOk result (λ words. spec.rates_in words.items ≡ rates.now) }
    ensures deferred { IfOk result (λ words. spec.deferreds_in words.items ≡ deferred.now) }
    ensures closing { IfOk result (λ words. spec.closing_in words.items ≡ closing.now) }
{
    let words = words_of(alloc, moves, rates, deferred, closing)?;
    Ok(words)
}
