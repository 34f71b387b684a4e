use card_events::{Bp, Day, NoMemory};
use std::alloc::Global;
use std::marker::Model;

// the index from a day on
#[derive(Clone, Copy)]
struct Row {
    day: Day,
    rate: Bp,
}

/// The index by the day from which it is in force, in basis points, in the order of these days, each once (12 CFR
/// 1026.55(b)(2)). Clauses see it as the list of its rows.
#[derive(Drop)]
pub struct IndexTable {
    rows: Vec<Row>,
}

impl Model for IndexTable {
    ghost use Rattle.std.specs.Prelude.{List};
    ghost use Rattle.card_events.specs.SharedRows.{AreByDay, IndexRow};
    ghost use Rattle.card_shared.specs.IndexTable.{index_rows};

    ghost Value = { List IndexRow };

    ghost view = { λ t. index_rows t.rows.items };

    ghost invariant = { λ t. AreByDay 0 (index_rows t.rows.items) };
}

ghost use Rattle.std.specs.Prelude.{◌≡◌, nat_le, nat_lt, option_map, slice_get};
ghost use Rattle.card_events.specs.SharedRows.{AreByDay};
ghost use Rattle.card_shared.specs.IndexTable.{index_rows, is_day, leading};

// how many rows are of days before this one
fn before(rows: &[Row], day: Day) -> usize
    requires { AreByDay 0 (index_rows rows.now) }
    ensures { result ≡ leading (λ r. nat_lt r.day day) (index_rows rows.now) }
{
    rows.partition_point(|row| row.day < day)
}

// how many rows are of days up to this one
fn up_to(rows: &[Row], day: Day) -> usize
    requires { AreByDay 0 (index_rows rows.now) }
    ensures { result ≡ leading (λ r. nat_le r.day day) (index_rows rows.now) }
{
    rows.partition_point(|row| row.day <= day)
}

// the day of the row at a place, if there is one
fn day_at(rows: &[Row], at: usize) -> Option<Day>
    ensures { result ≡ option_map (λ r. r.day) (slice_get rows.now at) }
{
    match rows.get(at) {
        Some(row) => Some(row.day),
        None => None,
    }
}

// whether there is a row at a place, of this day
fn is_at(rows: &[Row], at: usize, day: Day) -> bool
    ensures { result ≡ is_day day (slice_get rows.now at) }
{
    match rows.get(at) {
        Some(row) => row.day == day,
        None => false,
    }
}

impl IndexTable {
    ghost use Rattle.std.specs.Prelude.{◌≡◌, [], IfOk, OnOk, OnErr, nat_le, option_map};
    ghost use Rattle.std.specs.List.{find};
    ghost use Rattle.card_events.specs.SharedRows.{AreByDay, with_index};
    ghost use Rattle.card_model.specs.Rates.{index_on};

    /// A table without a row. It doesn't allocate.
    #[tactic(auto, unfolding(card_events::specs::SharedRows::AreByDay))]
    pub fn new(alloc: Global) -> IndexTable
        ensures { result ≡ [] }
    {
        IndexTable {
            rows: Vec::new(alloc),
        }
    }

    /// One more row. One for a day that is there takes its place. If memory runs out, the table is as it was.
    pub fn add(&mut self, day: Day, rate: Bp) -> Result<(), NoMemory>
        ensures ok { OnOk result (self.new ≡ with_index (record { day = day; rate = rate }) self.old) }
        ensures err { OnErr result (self.new ≡ self.old) }
    {
        let row = Row { day, rate };
        let at = before(&self.rows, day);
        if is_at(&self.rows, at, day) {
            self.rows[at] = row;
            return Ok(());
        }
        self.rows.insert(at, row)?;
        Ok(())
    }

    /// The index of a day: that of the row with the greatest day up to it. None comes exactly where no row's day is at or
    /// before it. It doesn't allocate.
    pub fn on(&self, day: Day) -> Option<Bp>
        ensures { result ≡ index_on self.now day }
    {
        let count = up_to(&self.rows, day);
        if count == 0 {
            return None;
        }
        Some(self.rows[count - 1].rate)
    }

    /// The first day from this one on that has a row. It doesn't allocate.
    pub fn from(&self, day: Day) -> Option<Day>
        ensures found { result ≡ option_map (λ r. r.day) (find (λ r. nat_le day r.day) self.now) }
        ensures by_day { AreByDay 0 self.now }
    {
        let at = before(&self.rows, day);
        day_at(&self.rows, at)
    }

    /// The same table in memory of its own.
    pub fn copy(&self, alloc: Global) -> Result<IndexTable, NoMemory>
        ensures { IfOk result (λ table. table ≡ self.now) }
    {
        Ok(IndexTable {
            rows: Vec::from_slice(alloc, &self.rows)?,
        })
    }
}
