ghost use Rattle.std.specs.Prelude.{◌≡◌, ◌-◌, ◌≤◌, length, take, drop};

use crate::row::{Body, Row};
use card_events::NoMemory;
use std::alloc::Global;
use std::marker::Model;

// The number of a row, and where its bytes end.
#[derive(Clone, Copy)]
struct Cut {
    seq: u64,
    end: usize,
}

/// Rows whose bytes lie one behind the other in one list, so that a row takes 16 bytes beside its own. Clauses see the rows.
#[derive(Drop)]
pub struct Rows {
    bytes: Vec<u8>,
    cuts: Vec<Cut>,
}

impl Model for Rows {
    ghost use Rattle.std.specs.Prelude.{List};
    ghost use Rattle.card_ports.specs.declared.row.Row.{Row};
    ghost use Rattle.card_ports.specs.Flat.{ArePacked, unpacked};

    ghost Value = { List Row };

    ghost view = { λ r. unpacked 0 r.cuts.items r.bytes.items };

    ghost invariant = { λ r. ArePacked r.cuts.items r.bytes.items };
}

// The bytes from one place up to another.
fn part(bytes: &[u8], from: usize, end: usize) -> &[u8]
    requires order { from ≤ end }
    requires within { end ≤ length bytes.now }
    ensures { result.now ≡ take (end - from) (drop from bytes.now) }
{
    &bytes[from..end]
}

impl Rows {
    ghost use Rattle.std.specs.Prelude.{◌≡◌, ◌+◌, ◌<◌, ◌≤◌, ◌++◌, [], ◌∷◌, length, take, IfOk, OnOk, OnErr};
    ghost use Rattle.card_ports.specs.Flat.{bytes_of, row_at};

    /// No row.
    #[tactic(auto, using(crate::proofs::FlatLemmas::packed_none, crate::proofs::FlatLemmas::packed_no_rows))]
    pub fn new(alloc: Global) -> Rows
        ensures { result ≡ [] }
    {
        Rows {
            bytes: Vec::new(alloc),
            cuts: Vec::new(alloc),
        }
    }

    /// How many rows there are.
    pub fn len(&self) -> usize
        ensures { result ≡ length self.now }
    {
        self.cuts.len()
    }

    /// The number of the row at a place, counted from 0.
    pub fn seq(&self, at: usize) -> u64
        requires { at < length self.now }
        ensures { result ≡ (row_at self.now at).seq }
    {
        self.cuts[at].seq
    }

    // Where the bytes of the rows in front of a place end.
    fn end_before(&self, at: usize) -> usize
        requires { at ≤ length self.now }
        ensures { result ≡ length (bytes_of (take at self.now)) }
    {
        if at == 0 { 0 } else { self.cuts[at - 1].end }
    }

    // Where the bytes of the row at a place end.
    fn end_of(&self, at: usize) -> usize
        requires { at < length self.now }
        ensures { result ≡ length (bytes_of (take (at + 1) self.now)) }
    {
        self.cuts[at].end
    }

    /// The bytes of the row at a place, counted from 0.
    pub fn body(&self, at: usize) -> &[u8]
        requires { at < length self.now }
        ensures { result.now ≡ (row_at self.now at).body }
    {
        let from = self.end_before(at);
        let end = self.end_of(at);
        part(&self.bytes, from, end)
    }

    /// Adds a row at the end. Where memory runs out, the rows are as they were.
    pub fn push(&mut self, seq: u64, body: &[u8]) -> Result<(), NoMemory>
        ensures ok { OnOk result (self.new ≡ self.old ++ record { seq = seq; body = body.now } ∷ []) }
        ensures err { OnErr result (self.new ≡ self.old) }
    {
        self.cuts.reserve(1)?;
        self.bytes.extend_from_slice(body)?;
        self.cuts.push_reserved(Cut {
            seq,
            end: self.bytes.len(),
        });
        Ok(())
    }

    /// The same rows in memory of their own.
    pub fn copy(&self, alloc: Global) -> Result<Rows, NoMemory>
        ensures { IfOk result (λ rows. rows ≡ self.now) }
    {
        Ok(Rows {
            bytes: Vec::from_slice(alloc, &self.bytes)?,
            cuts: Vec::from_slice(alloc, &self.cuts)?,
        })
    }

    /// These rows, packed.
    pub fn pack(alloc: Global, rows: &[Row]) -> Result<Rows, NoMemory>
        ensures { IfOk result (λ packed. packed ≡ rows.now) }
    {
        let mut packed = Rows::new(alloc);
        for row in rows {
            packed.push(row.seq, row.body.bytes())?;
        }
        Ok(packed)
    }

    /// The rows, each with a list of its own. After `pack` they are those that were packed.
    pub fn unpack(&self, alloc: Global) -> Result<Vec<Row>, NoMemory>
        ensures { IfOk result (λ all. all.items ≡ self.now) }
    {
        let mut all = Vec::with_capacity(alloc, self.len())?;
        for at in 0..self.len() {
            all.push(self.row(alloc, at)?)?;
        }
        Ok(all)
    }

    // The row at a place, in memory of its own.
    fn row(&self, alloc: Global, at: usize) -> Result<Row, NoMemory>
        requires { at < length self.now }
        ensures { IfOk result (λ row. row ≡ row_at self.now at) }
    {
        let bytes = Vec::from_slice(alloc, self.body(at))?;
        Ok(Row {
            seq: self.seq(at),
            body: Body::of(bytes),
        })
    }
}
