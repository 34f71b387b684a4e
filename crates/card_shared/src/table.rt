use card_events::{Cents, Day, NoMemory};
use std::alloc::Global;
use std::marker::Model;

// the penalty fees from a day on, in cents
#[derive(Clone, Copy)]
struct Row {
    day: Day,
    first: u32,
    repeat: u32,
}

/// The amounts of penalty fees, in cents, by the day from which they are in force, in the order in which they were
/// added (12 CFR 1026.52(b)(1)(ii)). Clauses see it as the list of its rows.
#[derive(Drop)]
pub struct FeeTable {
    rows: Vec<Row>,
}

impl Model for FeeTable {
    ghost use Rattle.std.specs.Prelude.{List};
    ghost use Rattle.card_events.specs.SharedRows.{FeeRow};
    ghost use Rattle.card_shared.specs.Rows.{fee_rows};

    ghost Value = { List FeeRow };

    ghost view = { λ t. fee_rows t.rows.items };
}

ghost use Rattle.std.specs.Prelude.{◌≡◌, Some, option_map};
ghost use Rattle.card_shared.specs.Rows.{fee_row, fee_rows, later_of, latest};
ghost use Rattle.card_model.specs.Fees.{row_on};

// the row with the later day, and of two for one day the second
fn later_of(found: Option<Row>, row: Row) -> Row
    ensures { result ≡ later_of found row }
{
    match found {
        Some(other) if other.day > row.day => other,
        _ => row,
    }
}

// the row found so far, or the next one where it is in force on the day and isn't earlier
fn latest(found: Option<Row>, row: &Row, day: Day) -> Option<Row>
    ensures { result ≡ latest day found row.now }
{
    if row.day > day {
        found
    } else {
        Some(later_of(found, *row))
    }
}

// the row that is in force on a day
fn in_force(rows: &[Row], day: Day) -> Option<Row>
    ensures { option_map fee_row result ≡ row_on (fee_rows rows.now) day }
{
    let mut found = None;
    for row in rows {
        found = latest(found, row, day);
    }
    found
}

impl FeeTable {
    ghost use Rattle.std.specs.Prelude.{◌≡◌, ◌++◌, [], ◌∷◌, IfOk, OnOk, OnErr, pos, ◌≤ℤ◌, option_map, unsigned_abs};
    ghost use Rattle.card_shared.specs.Table.{amounts_of};
    ghost use Rattle.card_model.specs.Fees.{row_on};

    /// A table without a row.
    pub fn new(alloc: Global) -> FeeTable
        ensures { result ≡ [] }
    {
        FeeTable {
            rows: Vec::new(alloc),
        }
    }

    /// One more row: the first and the repeat amount from a day on, each 0 to 100,000 cents. If memory runs out, the
    /// table is as it was.
    pub fn add(&mut self, day: Day, first: Cents, repeat: Cents) -> Result<(), NoMemory>
        requires first_low { pos 0 ≤ℤ first }
        requires first_high { first ≤ℤ pos 100_000 }
        requires repeat_low { pos 0 ≤ℤ repeat }
        requires repeat_high { repeat ≤ℤ pos 100_000 }
        ensures ok { OnOk result (self.new ≡ self.old ++ record { day = day; first = unsigned_abs first; repeat = unsigned_abs repeat } ∷ []) }
        ensures err { OnErr result (self.new ≡ self.old) }
    {
        self.rows.push(Row {
            day,
            first: first as u32,
            repeat: repeat as u32,
        })?;
        Ok(())
    }

    /// The first and the repeat amount on a day, in cents: those of the row with the latest day up to this one, and of
    /// two rows for one day those of the one added later. None comes exactly where no row's day is at or before it.
    pub fn on(&self, day: Day) -> Option<(Cents, Cents)>
        ensures { result ≡ option_map amounts_of (row_on self.now day) }
    {
        match in_force(&self.rows, day) {
            Some(row) => Some((row.first as i64, row.repeat as i64)),
            None => None,
        }
    }

    /// The same table in memory of its own.
    pub fn copy(&self, alloc: Global) -> Result<FeeTable, NoMemory>
        ensures { IfOk result (λ table. table ≡ self.now) }
    {
        Ok(FeeTable {
            rows: Vec::from_slice(alloc, &self.rows)?,
        })
    }
}
