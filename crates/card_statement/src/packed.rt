use crate::Sheet;
use crate::packing::pack_lists;
use crate::unpacking::unpack_lists;
use card_events::{Bp, Cents, NoMemory};
use std::alloc::Global;
use std::marker::Model;

/// A sheet in little memory, as it is kept of an issued statement: its lists stand in one list of words. Clauses see it as the
/// sheet itself.
#[derive(Drop)]
pub struct PackedSheet {
    due_payment: bool,
    previous: Cents,
    corrections: Cents,
    fees_year: u128,
    interest_year: u128,
    late_up_to: Cents,
    penalty: Bp,
    floor: Cents,
    pct: u16,
    words: Vec<u64>,
}

impl Model for PackedSheet {
    ghost use Rattle.std.specs.Prelude.{pos};
    ghost use Rattle.card_model.specs.Cycles.{Sheet};
    ghost use Rattle.card_statement.specs.Packing.{closing_in, deferreds_in, moves_in, rates_in};
    ghost use Rattle.card_statement.specs.Repayable.{IsRepayable};

    ghost Value = { Sheet };

    ghost view = { λ p. record { due_payment = p.due_payment; previous = p.previous; corrections = p.corrections; moves = moves_in p.words.items; fees_year = pos p.fees_year; interest_year = pos p.interest_year; rates = rates_in p.words.items; deferred = deferreds_in p.words.items; late_up_to = p.late_up_to; penalty = p.penalty; closing = closing_in p.words.items; floor = p.floor; pct = p.pct } };

    ghost invariant = { λ p. IsRepayable (closing_in p.words.items) p.floor p.pct };
}

impl PackedSheet {
    ghost use Rattle.std.specs.Prelude.{◌≡◌, IfOk};

    /// The same sheet, packed.
    pub fn pack(alloc: Global, sheet: &Sheet) -> Result<PackedSheet, NoMemory>
        ensures { IfOk result (λ p. p ≡ sheet.now) }
    {
        let words = pack_lists(
            alloc,
            &sheet.moves,
            &sheet.rates,
            &sheet.deferred,
            &sheet.closing,
        )?;
        Ok(PackedSheet {
            due_payment: sheet.due_payment,
            previous: sheet.previous,
            corrections: sheet.corrections,
            fees_year: sheet.fees_year,
            interest_year: sheet.interest_year,
            late_up_to: sheet.late_up_to,
            penalty: sheet.penalty,
            floor: sheet.floor,
            pct: sheet.pct,
            words,
        })
    }

    /// The same sheet, in memory of its own.
    pub fn unpack(&self, alloc: Global) -> Result<Sheet, NoMemory>
        ensures { IfOk result (λ s. s ≡ self.now) }
    {
        let lists = unpack_lists(alloc, &self.words)?;
        Ok(Sheet {
            due_payment: self.due_payment,
            previous: self.previous,
            corrections: self.corrections,
            moves: lists.moves,
            fees_year: self.fees_year,
            interest_year: self.interest_year,
            rates: lists.rates,
            deferred: lists.deferred,
            late_up_to: self.late_up_to,
            penalty: self.penalty,
            closing: lists.closing,
            floor: self.floor,
            pct: self.pct,
        })
    }
}
