// The lists of a sheet, read from words.
ghost use Rattle.std.specs.Prelude.{◌≡◌, ◌≤◌, ◌+◌, ◌*◌, ◌^◌, drop, IfOk};
ghost use Rattle.card_statement.specs.Packing as spec;

use card_closing::Amounts;
use card_events::{Bp, Day, NoMemory};
use card_model::{DeferredLine, EntryKind, Move, RateLine, Sort};
use std::alloc::Global;

fn kind_of(code: u64) -> EntryKind
    ensures { result ≡ spec.kind_of code }
{
    match code {
        0 => EntryKind::Charge,
        1 => EntryKind::Credit,
        2 => EntryKind::Payment,
        3 => EntryKind::Return,
        4 => EntryKind::Refund,
        5 => EntryKind::Fee,
        6 => EntryKind::Interest,
        _ => EntryKind::Hold,
    }
}

fn sort_of(code: u64) -> Sort
    ensures { result ≡ spec.sort_of code }
{
    match code {
        0 => Sort::Credit,
        1 => Sort::Held,
        2 => Sort::Purchase,
        3 => Sort::Cash,
        4 => Sort::Transfer,
        5 => Sort::Promo,
        _ => Sort::Deferred,
    }
}

// The day nearest to a number.
fn day_of(number: u64) -> Day
    ensures { result ≡ spec.day_of number }
{
    let first = Day::first().number() as u64;
    let last = Day::last().number() as u64;
    Day::from_number(number.min(last).max(first) as i32).unwrap()
}

// The rate nearest to a number.
fn rate_of(number: u64) -> Bp
    ensures { result ≡ spec.rate_of number }
{
    Bp::new(number.min(9_999)).unwrap()
}

// The word at a place, 0 behind the last one.
fn word(words: &[u64], place: usize) -> u64
    ensures { result ≡ spec.word words.now place }
{
    match words.get(place) {
        Some(word) => *word,
        None => 0,
    }
}

// The wide number of two words, the lower one first.
fn wide(low: u64, high: u64) -> u128
    ensures { result ≡ high * 2 ^ 64 + low }
{
    high as u128 * 18_446_744_073_709_551_616 + low as u128
}

// The words behind so many.
fn behind(words: &[u64], count: usize) -> &[u64]
    ensures { result.now ≡ drop count words.now }
{
    if count < words.len() {
        &words[count..]
    } else {
        &words[words.len()..]
    }
}

#[tactic(auto, unfolding(crate::specs::Packing::move_in))]
fn move_in(words: &[u64]) -> Move
    ensures { result ≡ spec.move_in words.now }
{
    let named = word(words, 0);
    Move {
        day: day_of(named / 8 % 65_536),
        kind: kind_of(named % 8),
        post: (named / 8 / 65_536 % 4_294_967_296) as u32,
        cents: word(words, 1).cast_signed(),
    }
}

#[tactic(auto, unfolding(crate::specs::Packing::rate_in))]
fn rate_in(words: &[u64]) -> RateLine
    ensures { result ≡ spec.rate_in words.now }
{
    let named = word(words, 0);
    RateLine {
        segment: (named % 256) as u8,
        sort: sort_of(named / 256 % 8),
        rate: rate_of(named / 256 / 8),
        average: wide(word(words, 1), word(words, 2)),
        interest: wide(word(words, 3), word(words, 4)),
    }
}

#[tactic(auto, unfolding(crate::specs::Packing::deferred_in))]
fn deferred_in(words: &[u64]) -> DeferredLine
    ensures { result ≡ spec.deferred_in words.now }
{
    let named = word(words, 0);
    DeferredLine {
        segment: (named % 256) as u8,
        balance: word(words, 1).cast_signed(),
        accrued: word(words, 2).cast_signed(),
        ends: day_of(named / 256),
    }
}

#[tactic(auto, unfolding(crate::specs::Packing::amount_in))]
fn amount_in(words: &[u64]) -> (u8, u64)
    ensures { result ≡ spec.amount_in words.now }
{
    ((word(words, 0) % 256) as u8, word(words, 1))
}

// So many lines of transactions.
fn take_moves(alloc: Global, count: usize, rest: &mut &[u64]) -> Result<Vec<Move>, NoMemory>
    ensures lines { IfOk result (λ lines. lines.items ≡ spec.lines_in spec.move_in 2 count rest.old.now) }
    ensures left { IfOk result (λ lines. rest.new.now ≡ spec.behind 2 count rest.old.now) }
{
    let mut lines = Vec::with_capacity(alloc, count)?;
    for _ in 0..count {
        lines.push(move_in(*rest))?;
        *rest = behind(*rest, 2);
    }
    Ok(lines)
}

// So many lines of rates.
fn take_rates(alloc: Global, count: usize, rest: &mut &[u64]) -> Result<Vec<RateLine>, NoMemory>
    ensures lines { IfOk result (λ lines. lines.items ≡ spec.lines_in spec.rate_in 5 count rest.old.now) }
    ensures left { IfOk result (λ lines. rest.new.now ≡ spec.behind 5 count rest.old.now) }
{
    let mut lines = Vec::with_capacity(alloc, count)?;
    for _ in 0..count {
        lines.push(rate_in(*rest))?;
        *rest = behind(*rest, 5);
    }
    Ok(lines)
}

// So many lines of plans with deferred interest.
fn take_deferreds(
    alloc: Global,
    count: usize,
    rest: &mut &[u64],
) -> Result<Vec<DeferredLine>, NoMemory>
    ensures lines { IfOk result (λ lines. lines.items ≡ spec.lines_in spec.deferred_in 3 count rest.old.now) }
    ensures left { IfOk result (λ lines. rest.new.now ≡ spec.behind 3 count rest.old.now) }
{
    let mut lines = Vec::with_capacity(alloc, count)?;
    for _ in 0..count {
        lines.push(deferred_in(*rest))?;
        *rest = behind(*rest, 3);
    }
    Ok(lines)
}

// What is owed on so many segments.
fn take_amounts(alloc: Global, count: usize, rest: &mut &[u64]) -> Result<Amounts, NoMemory>
    ensures { IfOk result (λ amounts. amounts ≡ spec.lines_in spec.amount_in 2 count rest.old.now) }
{
    let mut amounts = Amounts::none(alloc);
    for _ in 0..count {
        let (segment, cents) = amount_in(*rest);
        amounts.push(segment, cents)?;
        *rest = behind(*rest, 2);
    }
    Ok(amounts)
}

/// The lists that words make up.
#[derive(Drop)]
pub struct Lists {
    pub moves: Vec<Move>,
    pub rates: Vec<RateLine>,
    pub deferred: Vec<DeferredLine>,
    pub closing: Amounts,
}

/// The lists that words make up.
#[tactic(auto, unfolding(crate::specs::Packing::moves_in, crate::specs::Packing::rates_in, crate::specs::Packing::deferreds_in, crate::specs::Packing::closing_in))]
pub fn unpack_lists(alloc: Global, words: &[u64]) -> Result<Lists, NoMemory>
    ensures moves { IfOk result (λ lists. lists.moves.items ≡ spec.moves_in words.now) }
    ensures rates { IfOk result (λ lists. lists.rates.items ≡ spec.rates_in words.now) }
    ensures deferred { IfOk result (λ lists. lists.deferred.items ≡ spec.deferreds_in words.now) }
    ensures closing { IfOk result (λ lists. lists.closing ≡ spec.closing_in words.now) }
{
    let mut left = behind(words, 4);
    let rest = &mut left;
    let moves = take_moves(alloc, word(words, 0) as usize, rest)?;
    let rates = take_rates(alloc, word(words, 1) as usize, rest)?;
    let deferred = take_deferreds(alloc, word(words, 2) as usize, rest)?;
    let closing = take_amounts(alloc, word(words, 3) as usize, rest)?;
    Ok(Lists {
        moves,
        rates,
        deferred,
        closing,
    })
}
