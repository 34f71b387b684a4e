ghost use Rattle.std.specs.Prelude.{◌≡◌, ◌+◌, ◌<◌, ◌≤◌, ◌^◌, pos, replicate, length, IfOk};
ghost use Rattle.card_events.specs.Range.{first_calendar_day, last_calendar_day};
ghost use Rattle.card_trial.specs.Sums.{all_kinds, kind_number, place, cell_count, whole};

use crate::side::{Side, amount_of, day_of};
use card_events::{Day, NoMemory};
use card_model::{Entry, EntryKind};
use std::alloc::Global;
use std::marker::Model;

// 2011-01-01, the first day that an entry may have.
const FIRST_DAY: usize = 14_975;

const DAYS: usize = 33_602;

const CELLS: usize = 268_816;

/// All kinds, in their order.
pub fn kinds() -> &'static [EntryKind]
    ensures value { result.now ≡ all_kinds }
    ensures count { length result.now ≡ 8 }
{
    &[
        EntryKind::Charge,
        EntryKind::Credit,
        EntryKind::Payment,
        EntryKind::Return,
        EntryKind::Refund,
        EntryKind::Fee,
        EntryKind::Interest,
        EntryKind::Hold,
    ]
}

fn kind_number(kind: EntryKind) -> usize
    ensures value { result ≡ kind_number kind }
    ensures bound { result < 8 }
{
    match kind {
        EntryKind::Charge => 0,
        EntryKind::Credit => 1,
        EntryKind::Payment => 2,
        EntryKind::Return => 3,
        EntryKind::Refund => 4,
        EntryKind::Fee => 5,
        EntryKind::Interest => 6,
        EntryKind::Hold => 7,
    }
}

// Where the sum of a day and a kind stands: the days of one kind stand side by side.
fn place(day: Day, kind: EntryKind) -> usize
    ensures value { result ≡ place day kind }
    ensures bound { result < cell_count }
    ensures first { first_calendar_day ≤ day }
    ensures last { day ≤ last_calendar_day }
{
    kind_number(kind) * DAYS + (day.number() as usize - FIRST_DAY)
}

// So many sums, each 0.
fn zeros(alloc: Global, count: usize) -> Result<Vec<u128>, NoMemory>
    ensures { IfOk result (λ v. v.items ≡ replicate count 0) }
{
    Ok(vec![in alloc; 0; count]?)
}

/// A sum below 2^127 as a signed number.
pub fn signed(sum: u128) -> i128
    requires { sum < 2 ^ 127 }
    ensures { result ≡ pos sum }
{
    sum as i128
}

// The sum of some cells.
fn sum_of(cells: &[u128]) -> u128
    requires { whole cells.now < 2 ^ 127 }
    ensures value { result ≡ whole cells.now }
    ensures bound { result < 2 ^ 127 }
{
    let mut sum = 0;
    for cell in cells {
        sum += *cell;
    }
    sum
}

/// Sums by day and kind.
#[derive(Drop)]
pub struct Sums {
    cells: Vec<u128>,
}

impl Model for Sums {
    ghost use Rattle.std.specs.Prelude.{◌≡◌, ◌<◌, ◌^◌, ℕ, List, length};
    ghost use Rattle.card_trial.specs.Sums.{cell_count, whole};

    ghost Value = { List ℕ };

    ghost view = { λ s. s.cells.items };

    ghost invariant = { λ s. (length s.cells.items ≡ cell_count) × (whole s.cells.items < 2 ^ 127) };
}

impl Sums {
    ghost use Rattle.std.specs.Prelude.{◌≡◌, ◌+◌, ◌*◌, ◌<◌, ◌≤◌, ◌^◌, ℕ, List, pos, length, IfOk, if◌then◌else◌};
    ghost use Rattle.card_events.specs.Range.{first_calendar_day, last_calendar_day};
    ghost use Rattle.card_model.specs.declared.entry.Entry.{Entry};
    ghost use Rattle.card_model.specs.declared.entry.EntryKind.{EntryKind};
    ghost use Rattle.std.specs.List.{All};
    ghost use Rattle.card_trial.specs.Sums.{AreSums, all_between, amount_of, cell, is_at, of_all_kinds, size, sum_on, whole};

    /// All of them 0.
    pub fn new(alloc: Global) -> Result<Sums, NoMemory>
        ensures cells { IfOk result (λ s. (x : ℕ) (k : EntryKind) → cell x k s ≡ 0) }
        ensures sum { IfOk result (λ s. whole s ≡ 0) }
    {
        Ok(Sums {
            cells: zeros(alloc, CELLS)?,
        })
    }

    /// All of them 0 again.
    pub fn clear(&mut self)
        ensures cells { (x : ℕ) (k : EntryKind) → cell x k self.new ≡ 0 }
        ensures sum { whole self.new ≡ 0 }
    {
        self.cells.fill(0);
    }

    // More at a day and a kind.
    fn add(&mut self, day: Day, kind: EntryKind, amount: u64)
        requires room { whole self.old + amount < 2 ^ 127 }
        ensures cells { (x : ℕ) (k : EntryKind) → first_calendar_day ≤ x → x ≤ last_calendar_day → cell x k self.new ≡ cell x k self.old + (if is_at day kind x k then amount else 0) }
        ensures sum { whole self.new ≡ whole self.old + amount }
    {
        self.cells[place(day, kind)] += amount as u128;
    }

    // Less at a day and a kind, where there is as much.
    fn take(&mut self, day: Day, kind: EntryKind, amount: u64)
        requires enough { amount ≤ cell day kind self.old }
        ensures cells { (x : ℕ) (k : EntryKind) → first_calendar_day ≤ x → x ≤ last_calendar_day → cell x k self.new + (if is_at day kind x k then amount else 0) ≡ cell x k self.old }
        ensures sum { whole self.new + amount ≡ whole self.old }
    {
        self.cells[place(day, kind)] -= amount as u128;
    }

    /// The entries of a side are entered. All sums, and 2^63 for each entry, are less than 2^127.
    pub fn put_in(&mut self, side: Side, entries: &[Entry])
        requires room { whole self.old + length entries.now * 2 ^ 63 < 2 ^ 127 }
        ensures cells { (x : ℕ) (k : EntryKind) → first_calendar_day ≤ x → x ≤ last_calendar_day → cell x k self.new ≡ cell x k self.old + sum_on side x k entries.now }
        ensures sum { whole self.new ≡ whole self.old + size side entries.now }
        ensures small { All (λ e. amount_of side e ≤ 2 ^ 63) entries.now }
    {
        for i in 0..entries.len() {
            let entry = &entries[i];
            self.add(entry.day, entry.kind, amount_of(side, entry));
        }
    }

    /// The entries of a side, which are among the sums, are taken out.
    pub fn take_out(&mut self, side: Side, entries: &[Entry])
        requires enough { (x : ℕ) (k : EntryKind) → first_calendar_day ≤ x → x ≤ last_calendar_day → sum_on side x k entries.now ≤ cell x k self.old }
        ensures cells { (x : ℕ) (k : EntryKind) → first_calendar_day ≤ x → x ≤ last_calendar_day → cell x k self.new + sum_on side x k entries.now ≡ cell x k self.old }
        ensures sum { whole self.new + size side entries.now ≡ whole self.old }
    {
        for i in 0..entries.len() {
            let entry = &entries[i];
            self.take(day_of(entry), entry.kind, amount_of(side, entry));
        }
    }

    // The sum of a kind from one day to another, 0 where this one is before that.
    fn range(&self, from: Day, to: Day, kind: EntryKind) -> u128
        ensures value { (side : Side) (lists : List (List Entry)) → AreSums side lists self.now → result ≡ all_between side from to kind lists }
        ensures most { result ≤ whole self.now }
        ensures bound { result < 2 ^ 127 }
    {
        if to < from {
            return 0;
        }
        let low = place(from, kind);
        let high = place(to, kind) + 1;
        sum_of(&self.cells[low..high])
    }

    /// The sum of a kind from one day to another. For any lists of entries whose sums these are, it is theirs.
    pub fn between(&self, from: Day, to: Day, kind: EntryKind) -> i128
        ensures { (side : Side) (lists : List (List Entry)) → AreSums side lists self.now → result ≡ pos (all_between side from to kind lists) }
    {
        signed(self.range(from, to, kind))
    }

    /// The sum of all kinds from one day to another. All sums are at most 2^120.
    pub fn of_all_kinds(&self, from: Day, to: Day) -> u128
        requires { whole self.now ≤ 2 ^ 120 }
        ensures value { (side : Side) (lists : List (List Entry)) → AreSums side lists self.now → result ≡ of_all_kinds side from to lists }
        ensures bound { result ≤ 2 ^ 123 }
    {
        let kinds = kinds();
        let mut sum = 0;
        for i in 0..kinds.len() {
            sum += self.range(from, to, kinds[i]);
        }
        sum
    }
}
