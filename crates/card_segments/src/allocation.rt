ghost use Rattle.std.specs.Prelude.{◌≡◌, ℕ, ◌+◌, ◌<◌, ◌≤◌, ◌^◌, ◌++◌, [], ◌∷◌, length, take, OnOk, IfOk, IfSome, is_some, pos, ◌≤ℤ◌, slice_index_or};
ghost use Rattle.card_model.specs.Limits.{balance_limit};
ghost use Rattle.std.specs.List.{All, filter, filter_map, list_any};
ghost use Rattle.card_model.specs.Allocation.{Ascends, allocated, part_of, parts, placed};
ghost use Rattle.card_model.specs.Entries.{at_least_zero};
ghost use Rattle.card_segments.specs.Holdings.{counts, holding, holdings};
ghost use Rattle.card_segments.specs.Parts.{AreParts, part};
ghost use Rattle.card_segments.specs.Sole.{AreOfSole, holders, is_above_zero, sole};

use crate::pay::pay_by;
use crate::rule::Rule;
use crate::{Parts, Rank, Segments};
use card_events::{Cents, NoMemory};
use card_model::Holding;
use smallvec::SmallVec;
use std::alloc::Global;

// Cents where they are at least 0, else 0.
fn at_least_zero(cents: Cents) -> u64
    ensures { result ≡ at_least_zero cents }
{
    if cents < 0 { 0 } else { cents as u64 }
}

// The segment with a number, before it is paid.
fn holding(s: &Segments, ranks: &[Rank], place: &[u8], id: u8) -> Holding
    requires segment { id < length s.now.balances }
    requires rank { id < length ranks.now }
    ensures value { (d : Rank) → result ≡ holding place.now id (slice_index_or s.now.balances id (pos 0)) (slice_index_or ranks.now id d) }
    ensures room { result.paid + result.balance < 2 ^ 64 }
{
    let rank = &ranks[id as usize];
    Holding {
        id,
        balance: at_least_zero(s.balance(id)),
        rate: rank.rate,
        last_two: rank.last_two,
        of_place: place.contains(&id),
        paid: 0,
    }
}

// Whether a cent can be paid on the segment with a number.
fn has_balance(s: &Segments, id: u8) -> bool
    requires { id < length s.now.balances }
    ensures { result ≡ is_above_zero (slice_index_or s.now.balances id (pos 0)) }
{
    at_least_zero(s.balance(id)) > 0
}

// All segments with a balance but Credit and Held.
fn holdings(
    alloc: Global,
    s: &Segments,
    ranks: &[Rank],
    place: &[u8],
) -> Result<Vec<Holding>, NoMemory>
    requires { length ranks.now ≡ length s.now.balances }
    ensures items { IfOk result (λ v. v.items ≡ filter counts (holdings place.now s.now.balances ranks.now)) }
    ensures some { 1 ≤ length s.now.balances }
    ensures room { IfOk result (λ v. All (λ h. h.paid + h.balance < 2 ^ 64) v.items) }
{
    let mut list = Vec::new(alloc);
    for id in 2..s.len() {
        if has_balance(s, id) {
            list.push(holding(s, ranks, place, id))?;
        }
    }
    Ok(list)
}

// Adds a part, where it isn't of 0 cents.
fn add_part(list: &mut SmallVec<(u8, u64), 4>, id: u8, cents: u64) -> Result<(), NoMemory>
    ensures { OnOk result (list.new.items ≡ list.old.items ++ part id cents) }
{
    if cents > 0 {
        list.push((id, cents))?;
    }
    Ok(())
}

// The parts that were paid, with what goes to Credit.
fn parts_of(
    alloc: Global,
    holdings: &[Holding],
    credit: u64,
) -> Result<SmallVec<(u8, u64), 4>, NoMemory>
    ensures { IfOk result (λ v. v.items ≡ parts (record { left = holdings.now; credit = credit })) }
{
    let mut list = SmallVec::new(alloc);
    add_part(&mut list, 0, credit)?;
    for holding in holdings {
        add_part(&mut list, holding.id, holding.paid)?;
    }
    Ok(list)
}

// The only segment with a balance, apart from Credit and Held; Credit where there is none.
fn sole_holder(s: &Segments) -> Option<u8>
    ensures holder { result ≡ sole (holders s.now.balances) }
    ensures known { IfSome result (λ id. id < length s.now.balances) }
{
    let mut found: u8 = 0;
    for id in 2..s.len() {
        if has_balance(s, id) {
            if found != 0 {
                return None;
            }
            found = id;
        }
    }
    Some(found)
}

// A part of a segment, with what goes to Credit.
fn two_parts(
    alloc: Global,
    id: u8,
    paid: u64,
    credit: u64,
) -> Result<SmallVec<(u8, u64), 4>, NoMemory>
    ensures { IfOk result (λ v. v.items ≡ part 0 credit ++ part id paid) }
{
    let mut list = SmallVec::new(alloc);
    add_part(&mut list, 0, credit)?;
    add_part(&mut list, id, paid)?;
    Ok(list)
}

/// The parts of a payment or a merchant's credit of some cents where one segment at most has a balance, apart from Credit and
/// Held: it is paid up to its balance, and the rest goes to Credit, however segments rank (12 CFR 1026.53). None where more of
/// them have one: then the parts are those of `allocate` or `place_credit`.
pub fn sole_parts(alloc: Global, s: &Segments, amount: Cents) -> Result<Option<Parts>, NoMemory>
    ensures parts { IfOk result (λ found. IfSome found (AreOfSole s.now.balances (at_least_zero amount))) }
    ensures found { IfOk result (λ found. is_some found ≡ is_some (sole (holders s.now.balances))) }
{
    let Some(id) = sole_holder(s) else {
        return Ok(None);
    };
    let amount = at_least_zero(amount);
    let paid = at_least_zero(s.balance(id)).min(amount);
    Ok(Some(Parts::of(two_parts(alloc, id, paid, amount - paid)?)))
}

/// The parts of a payment of some cents. The minimum part goes cent by cent to the balance with the least rate. The excess
/// goes to a Deferred in the last two cycles of its period, the soonest end first (12 CFR 1026.53(b)(1)(i)), and then to
/// the balance with the greatest rate (12 CFR 1026.53(a)). Among equals the segment with the least number comes first; Held
/// is never paid, and without a balance a cent goes to Credit. Condition: a rank for each segment, and
/// 0 <= minimum part <= amount <= 10^15 cents.
pub fn allocate(
    alloc: Global,
    s: &Segments,
    ranks: &[Rank],
    minimum_part: Cents,
    amount: Cents,
) -> Result<Parts, NoMemory>
    requires ranks { length ranks.now ≡ length s.now.balances }
    requires minimum { pos 0 ≤ℤ minimum_part }
    requires within { minimum_part ≤ℤ amount }
    requires limit { amount ≤ℤ pos balance_limit }
    ensures parts { IfOk result (λ parts. parts ≡ allocated (at_least_zero minimum_part) (at_least_zero amount) (holdings [] s.now.balances ranks.now)) }
    ensures whole { IfOk result (λ parts. AreParts s.now.balances (at_least_zero amount) parts) }
{
    let mut list = holdings(alloc, s, ranks, &[])?;
    let minimum = at_least_zero(minimum_part);
    let excess = at_least_zero(amount) - minimum;
    let first = pay_by(&mut list, Rule::Minimum, minimum, 0);
    let credit = pay_by(&mut list, Rule::Excess, excess, first);
    Ok(Parts::of(parts_of(alloc, &list, credit)?))
}

/// The parts of a merchant's credit of some cents: first to the segments of its place, the least number first, and then as
/// the excess of a payment. Condition: a rank for each segment, and 0 <= amount <= 10^15 cents.
pub fn place_credit(
    alloc: Global,
    s: &Segments,
    ranks: &[Rank],
    first: &[u8],
    amount: Cents,
) -> Result<Parts, NoMemory>
    requires ranks { length ranks.now ≡ length s.now.balances }
    requires amount { pos 0 ≤ℤ amount }
    requires limit { amount ≤ℤ pos balance_limit }
    ensures parts { IfOk result (λ parts. parts ≡ placed (at_least_zero amount) (holdings first.now s.now.balances ranks.now)) }
    ensures whole { IfOk result (λ parts. AreParts s.now.balances (at_least_zero amount) parts) }
{
    let mut list = holdings(alloc, s, ranks, first)?;
    let credit = pay_by(&mut list, Rule::Place, at_least_zero(amount), 0);
    Ok(Parts::of(parts_of(alloc, &list, credit)?))
}
