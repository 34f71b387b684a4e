// What is asked of a book.
ghost use Rattle.std.specs.Prelude.{◌≡◌, ◌≤◌, IfOk, length, nat_le, neg_ℤ, option_copied, pos, slice_index_or};
ghost use Rattle.std.specs.List.{filter};
ghost use Rattle.card_model.specs.Limits.{balance_limit};
ghost use Rattle.card_model.specs.Payments.{sixty_days_late};
ghost use Rattle.card_model.specs.Entries.{at_least_zero};
ghost use Rattle.card_model.specs.Folds.{cycle_at};
ghost use Rattle.card_segments.specs.Balances.{AreWithin};
ghost use Rattle.card_model.specs.Refusals.{book_today, seen_today};

use crate::Book;
use crate::statement::cycle_in;
use card_closing::Accrual;
use card_daily::{Cycle, Entry, Fee, Present, Track, is_sixty_days_late};
use card_events::{Cents, Day, NoMemory};
use card_rates::RateBook;
use card_segments::{Segment, Segments};
use std::alloc::Global;
use std::marker::Model;

/// The book of an account at the end of a day, with its entries, its closed cycles and its segments, and since when there is
/// a credit balance: a Book and what is recorded up to that day, all borrowed.
#[derive(Drop)]
pub struct Folded<'a> {
    book: &'a Book,
    entries: &'a [Entry],
    cycles: &'a [Cycle],
    fees: &'a [Fee],
}

impl<'a> Model for Folded<'a> {
    ghost use Rattle.card_book.specs.Stands.{FoldedBook, told};
    ghost use Rattle.card_model.specs.Limits.{balance_limit};
    ghost use Rattle.card_model.specs.Entries.{AreBalances};
    ghost use Rattle.card_segments.specs.Balances.{AreWithin};

    ghost Value = { FoldedBook };

    ghost view = { λ f. told f.book.now f.entries.now f.cycles.now f.fees.now };

    ghost invariant = { λ f. AreBalances f.entries.now f.book.now.state.segments.balances × AreWithin balance_limit f.book.now.state.segments.balances };
}

// What a credit balance holds.
fn credit_of(segments: &Segments) -> Cents
    requires small { AreWithin balance_limit segments.now.balances }
    ensures { result ≡ pos (at_least_zero (neg_ℤ (slice_index_or segments.now.balances 0 (pos 0)))) }
{
    let _five = segments.len();
    -segments.balance(0)
}

// What is held.
fn held_in(segments: &Segments) -> Cents
    ensures { result ≡ pos (at_least_zero (slice_index_or segments.now.balances 1 (pos 0))) }
{
    let _five = segments.len();
    segments.balance(1)
}

// All segments, in memory of their own.
fn copy_segments(segments: &Segments, alloc: Global) -> Result<Vec<Segment>, NoMemory>
    ensures { IfOk result (λ copy. copy.items ≡ segments.now.segments) }
{
    let mut copy = Vec::new(alloc);
    for id in 0..segments.len() {
        copy.extend_from_slice(&[*segments.get(id)])?;
    }
    Ok(copy)
}

/// How many penalty fees were charged up to a cycle.
pub fn fees_up_to(fees: &[Fee], cycle: u32) -> usize
    ensures { result ≡ length (filter (λ f. nat_le f.cycle cycle) fees.now) }
{
    let mut count = 0;
    for fee in fees {
        if fee.cycle <= cycle {
            count += 1;
        }
    }
    count
}

fn cycle_of(cycles: &[Cycle], number: u32) -> Option<&Cycle>
    ensures { option_copied result ≡ cycle_at number cycles.now }
{
    if number == 0 {
        None
    } else {
        cycles.get(number as usize - 1)
    }
}

impl<'a> Folded<'a> {
    ghost use Rattle.std.specs.Prelude.{◌≡◌, ◌<◌, ◌≤◌, ℕ, IfOk, length, pos, option_copied, slice_index_or, Some};
    ghost use Rattle.std.specs.List.{All};
    ghost use Rattle.card_model.specs.Cycles.{Cycle};
    ghost use Rattle.card_model.specs.Entries.{AreBalances, balance, credit_balance, owed, owing};
    ghost use Rattle.card_model.specs.Limits.{balance_limit};
    ghost use Rattle.card_segments.specs.Balances.{AreWithin};
    ghost use Rattle.card_model.specs.Folds.{cycle_at};
    ghost use Rattle.card_book.specs.Rewound.{AreFolded, AreFoldedBack, StandsBehind};
    ghost use Rattle.card_book.specs.Stands.{IsFoldedTo, StandsFor, told};
    ghost use Rattle.card_daily.specs.Given.{Given};

    // By its parts: the balances are the sums of the entries, and within their bounds.
    pub(crate) fn new(
        book: &'a Book,
        entries: &'a [Entry],
        cycles: &'a [Cycle],
        fees: &'a [Fee],
    ) -> Folded<'a>
        requires sums { AreBalances entries.now book.now.state.segments.balances }
        requires small { AreWithin balance_limit book.now.state.segments.balances }
        ensures { result ≡ told book.now entries.now cycles.now fees.now }
    {
        Folded {
            book,
            entries,
            cycles,
            fees,
        }
    }

    /// What a Book and its track show of an account: at the end of the last day folded, the whole book of each account for which
    /// they stand.
    pub fn of(book: &'a Book, track: &'a Track) -> Folded<'a>
        requires { AreFolded book.now track.now }
        ensures { (g : Given) (day : ℕ) → StandsFor g book.now track.now → book.now.day ≡ Some day → IsFoldedTo g day result }
    {
        Folded::new(book, &track.entries, &track.cycles, &track.fees)
    }

    /// What a Book shows that was taken back to the closing of a closed cycle, with the front of the track up to that closing: the
    /// whole book of that day.
    pub fn at_closing(book: &'a Book, track: &'a Track, number: u32) -> Folded<'a>
        requires first { 1 ≤ number }
        requires closed { number ≤ length track.now.cycles.items }
        requires back { AreFoldedBack number book.now track.now }
        ensures { (g : Given) (c : Cycle) → StandsBehind g number c book.now track.now → IsFoldedTo g c.closing result }
    {
        let count = cycle_in(track, number).entries;
        let fees = fees_up_to(&track.fees, number);
        Folded::new(
            book,
            &track.entries[..count],
            &track.cycles[..number as usize],
            &track.fees[..fees],
        )
    }

    /// What is owed in all, in cents; below 0 where a credit balance is left.
    pub fn owed(&self) -> Cents
        ensures { result ≡ owed self.now.book.entries }
    {
        self.book.segments().owed()
    }

    /// The credit balance, in cents, at least 0 (12 CFR 1026.11(a)).
    pub fn credit(&self) -> Cents
        ensures { result ≡ pos (credit_balance self.now.book.entries) }
    {
        credit_of(self.book.segments())
    }

    /// What is held in dispute, in cents, at least 0 (12 CFR 1026.13).
    pub fn held(&self) -> Cents
        ensures { result ≡ pos (owing 1 self.now.book.entries) }
    {
        held_in(self.book.segments())
    }

    /// The first day of the present run of days that end with a credit balance (12 CFR 1026.11(a)(3)), None where there is no
    /// credit balance.
    pub fn credit_since(&self) -> Option<Day>
        ensures { result ≡ self.now.since }
    {
        self.book.credit_since()
    }

    /// Whether the account is sixty days late at the end of today (12 CFR 1026.55(b)(4)): some due date lies more than 60 days
    /// back, and the payments since its closing are below its minimum payment. This is the book of today. It doesn't allocate.
    #[tactic(auto, unfolding(card_model::specs::Refusals::book_today))]
    pub fn late_today(&self, now: &Present) -> bool
        requires book { self.now.book ≡ book_today now.now }
        ensures { result ≡ sixty_days_late (seen_today now.now) (book_today now.now).cycles }
    {
        let _anchor = now.anchor();
        is_sixty_days_late(now.inputs(), now.today(), self.cycles)
    }

    /// The account's segments by number, in memory of their own. Each entry is on one of them.
    pub fn segments(&self, alloc: Global) -> Result<Vec<Segment>, NoMemory>
        ensures segments { IfOk result (λ s. s.items ≡ self.now.segments) }
        ensures entries { All (λ e. e.segment < length self.now.segments) self.now.book.entries }
    {
        let segments = self.book.segments();
        let _count = segments.len();
        copy_segments(segments, alloc)
    }

    /// All entries, in their order.
    pub fn entries(&self) -> &'a [Entry]
        ensures { result.now ≡ self.now.book.entries }
    {
        self.entries
    }

    // The closed cycles, in order.
    pub(crate) fn cycles(&self) -> &'a [Cycle]
        ensures { result.now ≡ self.now.book.cycles }
    {
        self.cycles
    }

    // The segments with their balances, which the entries left.
    pub(crate) fn balances(&self) -> &Segments
        ensures kept { result.now.balances ≡ self.now.balances }
        ensures sums { (s : ℕ) → slice_index_or result.now.balances s (pos 0) ≡ balance s self.now.book.entries }
    {
        self.book.segments()
    }

    // Their rates.
    pub(crate) fn rates(&self) -> &RateBook
        ensures { result.now ≡ self.now.rates }
    {
        self.book.rates()
    }

    // What those but Credit and Held have accrued.
    pub(crate) fn accruals(&self) -> &[Accrual]
        ensures { result.now ≡ self.now.accruals }
    {
        self.book.accruals()
    }

    /// The closed cycle with a number, from 1; None where it isn't closed.
    pub fn cycle(&self, number: u32) -> Option<&'a Cycle>
        ensures { option_copied result ≡ cycle_at number self.now.book.cycles }
    {
        cycle_of(self.cycles, number)
    }
}
