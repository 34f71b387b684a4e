ghost use Rattle.std.specs.Prelude.{◌≡◌, ℕ, ◌+◌, ◌<◌, ◌≤◌, ◌++◌, [], ◌∷◌, drop, length, replicate, IsOk, IfOk, OnOk, OnErr, pos, ◌≤ℤ◌, slice_index_or, vec_len, vec_capacity};
ghost use Rattle.card_model.specs.Entries.{at_least_zero, credit_in, debit, holds, lowers, releases};
ghost use Rattle.card_model.specs.Segments.{unbilled};
ghost use Rattle.card_model.specs.declared.segment.Segment.{Segment};
ghost use Rattle.card_segments.specs.Balances.{HaveSigns, MayMoveWithin, after_entries, movable_balance, opening_segments, opening_vintage, total};
ghost use Rattle.card_segments.specs.Unposted.{AreBefore, MayGoBack};

use crate::before::{balances_before, write_first};
use crate::moves::{hold, lower, raise, release, sum};
use crate::{Entry, Note, Segment, Sort};
use card_events::{Cents, Day, NoMemory};
use std::alloc::Global;
use std::marker::Model;

/// The segments of an account, at most 64, and the balance of each in cents. Segment 0 is Credit, whose balance is never
/// above 0 (12 CFR 1026.11(a)), and segment 1 is Held, what is in dispute (12 CFR 1026.13). No segment but Credit is ever
/// below 0. A plus is owed. Entries are added to a list of the caller's.
#[derive(Drop)]
pub struct Segments {
    segments: Vec<Segment>,
    balances: Vec<Cents>,
}

impl Model for Segments {
    ghost use Rattle.card_segments.specs.Balances.{AreKept, Balances};

    ghost Value = { Balances };

    ghost view = { λ s. record { segments = s.segments.items; balances = s.balances.items } };

    ghost invariant = { λ s. AreKept s.segments.items s.balances.items };
}

fn unbilled(sort: Sort, opened: Day) -> Segment
    ensures { result ≡ unbilled sort opened }
{
    Segment {
        sort,
        post: 0,
        begins: opened,
        ends: None,
    }
}

fn opening_vintage(sort: Sort, opened: Day) -> Segment
    ensures { result ≡ opening_vintage sort opened }
{
    Segment {
        sort,
        post: 1,
        begins: opened,
        ends: None,
    }
}

impl Segments {
    /// The five segments of an account that opens: Credit, Held, and the vintages of purchases, cash advances and balance
    /// transfers. Nothing is owed on them.
    pub fn start(alloc: Global, opened: Day) -> Result<Segments, NoMemory>
        ensures segments { IfOk result (λ s. s.segments ≡ opening_segments opened) }
        ensures balances { IfOk result (λ s. s.balances ≡ replicate 5 (pos 0)) }
    {
        let opening = [
            unbilled(Sort::Credit, opened),
            unbilled(Sort::Held, opened),
            opening_vintage(Sort::Purchase, opened),
            opening_vintage(Sort::Cash, opened),
            opening_vintage(Sort::Transfer, opened),
        ];
        Ok(Segments {
            segments: Vec::from_slice(alloc, &opening)?,
            balances: vec![in alloc; 0; 5]?,
        })
    }

    /// One more segment, with nothing owed on it, and its number. At most 63 may be there. If memory runs out, the
    /// segments are as they were.
    pub fn add(&mut self, segment: Segment) -> Result<u8, NoMemory>
        requires few { length self.old.segments < 64 }
        ensures number { IfOk result (λ n. n ≡ length self.old.segments) }
        ensures segments { OnOk result (self.new.segments ≡ self.old.segments ++ segment ∷ []) }
        ensures balances { OnOk result (self.new.balances ≡ self.old.balances ++ pos 0 ∷ []) }
        ensures err { OnErr result (self.new ≡ self.old) }
    {
        let number = self.len();
        self.balances.reserve(1)?;
        self.segments.extend_from_slice(&[segment])?;
        self.balances.push_reserved(0);
        Ok(number)
    }

    /// How many there are. They are numbered from 0 on.
    pub fn len(&self) -> u8
        ensures segments { result ≡ length self.now.segments }
        ensures balances { result ≡ length self.now.balances }
        ensures five { 5 ≤ result }
        ensures few { result ≤ 64 }
    {
        self.balances.len() as u8
    }

    /// The segment with this number.
    pub fn get(&self, id: u8) -> &Segment
        requires known { id < length self.now.segments }
        ensures { (d : Segment) → result.now ≡ slice_index_or self.now.segments id d }
    {
        &self.segments[id as usize]
    }

    /// The balance of the segment with this number.
    pub fn balance(&self, id: u8) -> Cents
        requires known { id < length self.now.balances }
        ensures value { result ≡ slice_index_or self.now.balances id (pos 0) }
        ensures signs { HaveSigns self.now.balances }
    {
        self.balances[id as usize]
    }

    /// What is owed: the sum of all balances.
    pub fn owed(&self) -> Cents
        ensures { result ≡ total self.now.balances }
    {
        sum(&self.balances)
    }

    /// Owes more on a segment. Credit is raised towards 0 first, and the segment by the rest. Condition: a segment other
    /// than Credit and Held, 0 to 10^15 cents, and balances of at most 10^16 cents in size. If memory runs out, balances
    /// and entries are as they were; where the list has room for two more entries it can't fail.
    pub fn debit(
        &mut self,
        id: u8,
        cents: Cents,
        note: &Note,
        out: &mut Vec<Entry>,
    ) -> Result<(), NoMemory>
        requires segment { 2 ≤ id }
        requires known { id < length self.old.balances }
        requires asked { MayMoveWithin movable_balance cents self.old.balances }
        ensures ok { OnOk result (self.new ≡ after_entries (debit note.now id (at_least_zero cents) (credit_in self.old.balances)) self.old) }
        ensures entries { OnOk result (out.new.items ≡ out.old.items ++ debit note.now id (at_least_zero cents) (credit_in self.old.balances)) }
        ensures err { OnErr result (self.new ≡ self.old) }
        ensures err_entries { OnErr result (out.new.items ≡ out.old.items) }
        ensures roomy { vec_len out.old + 2 ≤ vec_capacity out.old → IsOk result }
        ensures len { vec_len out.new ≤ vec_len out.old + 2 }
        ensures capacity { vec_capacity out.old ≤ vec_capacity out.new }
    {
        out.reserve(2)?;
        raise(&mut self.balances, out, note, id, cents);
        Ok(())
    }

    /// Owes less on a segment, or, on Credit, holds more of the consumer's. Condition: Credit, or a segment with a balance
    /// of at least so many cents; 0 to 10^15 cents; and balances of at most 10^16 cents in size. If memory runs out,
    /// balances and entries are as they were; where the list has room for one more entry it can't fail.
    pub fn credit(
        &mut self,
        id: u8,
        cents: Cents,
        note: &Note,
        out: &mut Vec<Entry>,
    ) -> Result<(), NoMemory>
        requires known { id < length self.old.balances }
        requires enough { 1 ≤ id → cents ≤ℤ slice_index_or self.old.balances id (pos 0) }
        requires asked { MayMoveWithin movable_balance cents self.old.balances }
        ensures ok { OnOk result (self.new ≡ after_entries (lowers note.now id (at_least_zero cents)) self.old) }
        ensures entries { OnOk result (out.new.items ≡ out.old.items ++ lowers note.now id (at_least_zero cents)) }
        ensures err { OnErr result (self.new ≡ self.old) }
        ensures err_entries { OnErr result (out.new.items ≡ out.old.items) }
        ensures roomy { vec_len out.old + 1 ≤ vec_capacity out.old → IsOk result }
        ensures len { vec_len out.new ≤ vec_len out.old + 1 }
        ensures capacity { vec_capacity out.old ≤ vec_capacity out.new }
    {
        out.reserve(1)?;
        lower(&mut self.balances, out, note, id, cents);
        Ok(())
    }

    /// Moves cents of a segment to Held (12 CFR 1026.13(d)). The segment's entry stands first. Condition: a segment other
    /// than Credit and Held with a balance of at least so many cents; 0 to 10^15 cents; and balances of at most 10^16 cents
    /// in size. If memory runs out, balances and entries are as they were; where the list has room for two more entries it can't fail.
    pub fn hold(
        &mut self,
        id: u8,
        cents: Cents,
        note: &Note,
        out: &mut Vec<Entry>,
    ) -> Result<(), NoMemory>
        requires segment { 2 ≤ id }
        requires known { id < length self.old.balances }
        requires enough { cents ≤ℤ slice_index_or self.old.balances id (pos 0) }
        requires asked { MayMoveWithin movable_balance cents self.old.balances }
        ensures ok { OnOk result (self.new ≡ after_entries (holds note.now id (at_least_zero cents)) self.old) }
        ensures entries { OnOk result (out.new.items ≡ out.old.items ++ holds note.now id (at_least_zero cents)) }
        ensures err { OnErr result (self.new ≡ self.old) }
        ensures err_entries { OnErr result (out.new.items ≡ out.old.items) }
        ensures roomy { vec_len out.old + 2 ≤ vec_capacity out.old → IsOk result }
        ensures len { vec_len out.new ≤ vec_len out.old + 2 }
        ensures capacity { vec_capacity out.old ≤ vec_capacity out.new }
    {
        out.reserve(2)?;
        hold(&mut self.balances, out, note, id, cents);
        Ok(())
    }

    /// Moves cents out of Held, and debits a segment with them. Condition: a segment other than Credit and Held; Held with
    /// at least so many cents; 0 to 10^15 cents; and balances of at most 10^16 cents in size. If memory runs out, balances
    /// and entries are as they were; where the list has room for three more entries it can't fail.
    pub fn release(
        &mut self,
        id: u8,
        cents: Cents,
        note: &Note,
        out: &mut Vec<Entry>,
    ) -> Result<(), NoMemory>
        requires segment { 2 ≤ id }
        requires known { id < length self.old.balances }
        requires enough { cents ≤ℤ slice_index_or self.old.balances 1 (pos 0) }
        requires asked { MayMoveWithin movable_balance cents self.old.balances }
        ensures ok { OnOk result (self.new ≡ after_entries (releases note.now id (at_least_zero cents) (credit_in self.old.balances)) self.old) }
        ensures entries { OnOk result (out.new.items ≡ out.old.items ++ releases note.now id (at_least_zero cents) (credit_in self.old.balances)) }
        ensures err { OnErr result (self.new ≡ self.old) }
        ensures err_entries { OnErr result (out.new.items ≡ out.old.items) }
        ensures roomy { vec_len out.old + 3 ≤ vec_capacity out.old → IsOk result }
        ensures len { vec_len out.new ≤ vec_len out.old + 3 }
        ensures capacity { vec_capacity out.old ≤ vec_capacity out.new }
    {
        out.reserve(3)?;
        release(&mut self.balances, out, note, id, cents);
        Ok(())
    }

    /// The same segments and balances in memory of their own.
    pub fn copy(&self, alloc: Global) -> Result<Segments, NoMemory>
        ensures { IfOk result (λ s. s ≡ self.now) }
    {
        Ok(Segments {
            segments: Vec::from_slice(alloc, &self.segments)?,
            balances: Vec::from_slice(alloc, &self.balances)?,
        })
    }

    /// The same segments with the balances before entries, in memory of their own. Condition: before them each balance was at
    /// most 1.1 * 10^16 cents in size, Credit not above 0 and no other segment below.
    pub fn less(&self, alloc: Global, entries: &[Entry]) -> Result<Segments, NoMemory>
        requires { MayGoBack entries.now self.now.balances }
        ensures { IfOk result (λ s. AreBefore entries.now self.now s) }
    {
        Ok(Segments {
            segments: Vec::from_slice(alloc, &self.segments)?,
            balances: balances_before(alloc, &self.balances, entries)?,
        })
    }

    /// Takes the balances of fewer segments, or as many, for those of its first ones. The rest stay as they are.
    pub fn take_balances(&mut self, first: &Segments)
        requires fewer { length first.now.balances ≤ length self.old.balances }
        ensures segments { self.new.segments ≡ self.old.segments }
        ensures balances { self.new.balances ≡ first.now.balances ++ drop (length first.now.balances) self.old.balances }
    {
        write_first(&mut self.balances, &first.balances);
    }
}
