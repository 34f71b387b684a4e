ghost use Rattle.std.specs.Prelude.{◌≡◌, ◌++◌, IfOk, OnOk, OnErr, length, take};

use card_events::NoMemory;
use std::alloc::Global;
use std::marker::Model;

/// The bytes of a kept row.
#[derive(Drop)]
pub struct Body {
    bytes: Vec<u8>,
}

impl Model for Body {
    ghost use Rattle.std.specs.Prelude.{List, ℕ};

    ghost Value = { List ℕ };

    ghost view = { λ b. b.bytes.items };
}

impl Body {
    ghost use Rattle.std.specs.Prelude.{◌≡◌, IfOk};

    /// A body of these bytes.
    pub fn of(bytes: Vec<u8>) -> Body
        ensures { result ≡ bytes.items }
    {
        Body { bytes }
    }

    /// Its bytes.
    pub fn bytes(&self) -> &[u8]
        ensures { result.now ≡ self.now }
    {
        &self.bytes
    }

    /// The same body.
    pub fn copy(&self, alloc: Global) -> Result<Body, NoMemory>
        ensures { IfOk result (λ body. body ≡ self.now) }
    {
        let bytes = Vec::from_slice(alloc, &self.bytes)?;
        Ok(Body { bytes })
    }
}

/// A kept row: its number, counted from 1, and its bytes.
#[derive(Drop)]
pub struct Row {
    pub seq: u64,
    pub body: Body,
}

impl Row {
    ghost use Rattle.std.specs.Prelude.{◌≡◌, IfOk};

    /// The same row.
    pub fn copy(&self, alloc: Global) -> Result<Row, NoMemory>
        ensures { IfOk result (λ row. row ≡ self.now) }
    {
        let body = self.body.copy(alloc)?;
        Ok(Row {
            seq: self.seq,
            body,
        })
    }
}

/// The same rows.
pub fn copies(alloc: Global, rows: &[Row]) -> Result<Vec<Row>, NoMemory>
    ensures { IfOk result (λ all. all.items ≡ rows.now) }
{
    let mut all = Vec::with_capacity(alloc, rows.len())?;
    push_copies(alloc, &mut all, rows)?;
    Ok(all)
}

// Adds the same rows at the end. Where memory is wanted, some of them stand there.
fn push_copies(alloc: Global, all: &mut Vec<Row>, more: &[Row]) -> Result<(), NoMemory>
    ensures ok { OnOk result (all.new.items ≡ all.old.items ++ more.now) }
    ensures err { OnErr result (take (length all.old.items) all.new.items ≡ all.old.items) }
{
    for row in more {
        all.push(row.copy(alloc)?)?;
    }
    Ok(())
}

/// Adds the same rows at the end: all of them, or none where memory is wanted.
pub fn add_copies(alloc: Global, all: &mut Vec<Row>, more: &[Row]) -> Result<(), NoMemory>
    ensures ok { OnOk result (all.new.items ≡ all.old.items ++ more.now) }
    ensures err { OnErr result (all.new.items ≡ all.old.items) }
{
    let count = all.len();
    let pushed = push_copies(alloc, all, more);
    if pushed.is_err() {
        all.truncate(count);
    }
    pushed
}
