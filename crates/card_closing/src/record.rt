// The record of a closed cycle.
ghost use Rattle.std.specs.Prelude.{◌≡◌, ◌+◌, ◌-◌, ◌<◌, ◌≤◌, ◌&&◌, true, length, min, IfOk, pos, ◌≤ℤ◌, ◌-ℤ◌, slice_index_or, unsigned_abs, option_copied};
ghost use Rattle.card_model.specs.Limits.{balance_limit};
ghost use Rattle.card_model.specs.Closing.{ends_after, minimum_of};
ghost use Rattle.card_model.specs.Segments.{is_sort};
ghost use Rattle.card_model.specs.declared.segment.Sort.TheVariants as sort;
ghost use Rattle.card_model.specs.Cycles.{amount_at, amounts_sum};
ghost use Rattle.card_model.specs.Entries.{at_least_zero};
ghost use Rattle.card_model.specs.Fees.{fees_sum};
ghost use Rattle.card_model.specs.declared.segment.Segment.{Segment};
ghost use Rattle.card_segments.specs.Balances.{AreWithin, IsWithin, total};
ghost use Rattle.card_fees.specs.Limits.{statement_limit};
ghost use Rattle.card_closing.specs.Record.{AreSmall, HasTermsInRange, averages_of, balance_later, by_number, cycle_average, deferred_after, grace_by, largest_cents, minimum_by, net_of};

use crate::fees::at_least_zero;
use crate::turn::add;
use crate::{Amounts, Closing, Cycle, CycleRows, Fees, case_of};
use card_events::{Cents, Day, NoMemory};
use card_fees::minimum;
use card_segments::{Segment, Segments, Sort};
use std::alloc::Global;

// The amount of a segment, where no amount is above 10^16 cents.
fn cents_of(done: &Amounts, segment: u8) -> u64
    requires { AreSmall done.now }
    ensures { result ≡ amount_at segment done.now }
{
    done.at(segment) as u64
}

// The amounts that were charged, by segment.
fn charged_amounts(alloc: Global, segments: &Segments, done: &Amounts) -> Result<Amounts, NoMemory>
    requires { AreSmall done.now }
    ensures { IfOk result (λ v. v ≡ by_number (λ s. amount_at s done.now) (length segments.now.balances - 2)) }
{
    let mut amounts = Amounts::none(alloc);
    for id in 2..segments.len() {
        add(&mut amounts, id, cents_of(done, id))?;
    }
    Ok(amounts)
}

// Whether amounts are those of segments below one, in order of number, and none is 0.
fn are_by_number(done: &Amounts, end: u8) -> bool
    requires { 2 ≤ end }
    ensures { result ≡ true → by_number (λ s. amount_at s done.now) (end - 2) ≡ done.now }
{
    let mut next: u32 = 2;
    for place in 0..done.len() {
        let (segment, cents) = done.get(place);
        if (segment as u32) < next || end <= segment || cents == 0 {
            return false;
        }
        next = segment as u32 + 1;
    }
    true
}

// The same, which are these themselves where each segment was charged once.
pub fn charged(alloc: Global, segments: &Segments, done: Amounts) -> Result<Amounts, NoMemory>
    requires { AreSmall done }
    ensures { IfOk result (λ v. v ≡ by_number (λ s. amount_at s done) (length segments.now.balances - 2)) }
{
    if are_by_number(&done, segments.len()) {
        return Ok(done);
    }
    charged_amounts(alloc, segments, &done)
}

// The average of a segment's rows.
#[tactic(auto, unfolding(crate::specs::Record::cycle_average))]
fn average_of(rows: &CycleRows, closing: &Closing, segment: &Segment) -> u64
    ensures { result ≡ cycle_average closing.now.purchase closing.now.closing segment.now rows.now }
{
    rows.average(case_of(&closing.purchase, segment, closing.closing)) as u64
}

// The average daily balances, by segment.
pub fn averages(
    alloc: Global,
    segments: &Segments,
    closing: &Closing,
    rows: &[CycleRows],
) -> Result<Amounts, NoMemory>
    requires { length rows.now + 2 ≡ length segments.now.balances }
    ensures { IfOk result (λ v. v ≡ averages_of closing.now segments.now rows.now) }
{
    let mut amounts = Amounts::none(alloc);
    for id in 2..segments.len() {
        let average = average_of(&rows[id as usize - 2], closing, segments.get(id));
        add(&mut amounts, id, average)?;
    }
    Ok(amounts)
}

// Whether it is a deferred balance whose period ends after a day.
fn ends_later(segment: &Segment, day: Day) -> bool
    ensures { result ≡ (is_sort sort.Deferred segment.now.sort && ends_after day segment.now.ends) }
{
    let Sort::Deferred = segment.sort else {
        return false;
    };
    match segment.ends {
        Some(end) => day < end,
        None => false,
    }
}

// Its balance, where it is such a one.
#[tactic(auto, unfolding(crate::specs::Record::balance_later))]
fn balance_later(segments: &Segments, id: u8, day: Day) -> u64
    requires known { id < length segments.now.balances }
    requires small { AreWithin balance_limit segments.now.balances }
    ensures value { (d : Segment) → result ≡ balance_later day (slice_index_or segments.now.segments id d) (slice_index_or segments.now.balances id (pos 0)) }
    ensures bound { result ≤ balance_limit }
{
    // what the length says is needed as a fact: a balance for each segment, five of them at least, and at most 64
    let _count = segments.len();
    if ends_later(segments.get(id), day) {
        at_least_zero(segments.balance(id))
    } else {
        0
    }
}

// Those of all segments together.
fn deferred_after(segments: &Segments, day: Day) -> u64
    requires small { AreWithin balance_limit segments.now.balances }
    ensures value { result ≡ deferred_after day segments.now }
    ensures bound { result ≤ 62_000_000_000_000_000 }
{
    let mut sum = 0;
    for id in 2..segments.len() {
        sum += balance_later(segments, id, day);
    }
    sum
}

// What is held.
pub fn held(segments: &Segments) -> Cents
    ensures value { result ≡ slice_index_or segments.now.balances 1 (pos 0) }
    ensures low { pos 0 ≤ℤ result }
{
    let _count = segments.len();
    segments.balance(1)
}

// What is owed.
pub fn owed(segments: &Segments) -> Cents
    requires small { AreWithin balance_limit segments.now.balances }
    ensures value { result ≡ total segments.now.balances }
    ensures size { IsWithin statement_limit result }
{
    let _count = segments.len();
    segments.owed()
}

// What is owed, less what is held.
fn net(segments: &Segments) -> Cents
    requires small { AreWithin balance_limit segments.now.balances }
    ensures value { result ≡ net_of segments.now }
    ensures size { IsWithin statement_limit result }
{
    let _count = segments.len();
    segments.owed() - held(segments)
}

// The minimum payment by the account's terms.
fn minimum_by_terms(closing: &Closing, done: &Amounts, fees: &Fees, segments: &Segments) -> u64
    requires small { AreWithin balance_limit segments.now.balances }
    requires terms { HasTermsInRange closing.now }
    ensures value { result ≡ minimum_of (net_of segments.now) (unsigned_abs closing.now.floor) closing.now.pct (amounts_sum done.now + fees_sum fees.now) closing.now.past_due }
    ensures bound { result ≤ largest_cents }
{
    let charges = done.sum().saturating_add(fees.sum());
    minimum(
        net(segments),
        closing.floor as u64,
        closing.pct,
        charges,
        closing.past_due,
    )
}

// What a balance has beyond an amount.
fn beyond(balance: Cents, cents: u64) -> u64
    ensures value { result ≡ at_least_zero (balance -ℤ pos cents) }
    ensures bound { result ≤ largest_cents }
{
    if balance < 0 {
        return 0;
    }
    (balance as u64).saturating_sub(cents)
}

// The grace amount, whatever was issued.
fn grace_by_balances(closing: &Closing, segments: &Segments) -> u64
    requires small { AreWithin balance_limit segments.now.balances }
    ensures value { result ≡ at_least_zero (net_of segments.now -ℤ pos (deferred_after closing.now.next_closing segments.now)) }
    ensures bound { result ≤ largest_cents }
{
    beyond(
        net(segments),
        deferred_after(segments, closing.next_closing),
    )
}

// An amount that a statement says.
fn cents(amount: u64) -> Cents
    requires { amount ≤ largest_cents }
    ensures { result ≡ pos amount }
{
    amount as i64
}

// The lesser of an amount and of one that was issued.
fn lesser(amount: u64, issued: Cents) -> Cents
    requires { amount ≤ largest_cents }
    ensures { result ≡ pos (min amount (at_least_zero issued)) }
{
    cents(amount.min(at_least_zero(issued)))
}

// The minimum payment, at most that of the issued statement.
#[tactic(auto, unfolding(crate::specs::Record::minimum_by))]
pub fn minimum_of(
    closing: &Closing,
    issued: Option<&Cycle>,
    done: &Amounts,
    fees: &Fees,
    segments: &Segments,
) -> Cents
    requires small { AreWithin balance_limit segments.now.balances }
    requires terms { HasTermsInRange closing.now }
    ensures { result ≡ pos (minimum_by closing.now (option_copied issued.entry) done.now fees.now segments.now) }
{
    let asked = minimum_by_terms(closing, done, fees, segments);
    match issued {
        Some(cycle) => lesser(asked, cycle.minimum),
        None => cents(asked),
    }
}

// The grace amount, at most that of the issued statement.
#[tactic(auto, unfolding(crate::specs::Record::grace_by))]
pub fn grace_of(closing: &Closing, issued: Option<&Cycle>, segments: &Segments) -> Cents
    requires small { AreWithin balance_limit segments.now.balances }
    ensures { result ≡ pos (grace_by closing.now (option_copied issued.entry) segments.now) }
{
    let asked = grace_by_balances(closing, segments);
    match issued {
        Some(cycle) => lesser(asked, cycle.grace_amount),
        None => cents(asked),
    }
}
