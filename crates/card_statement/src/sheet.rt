use crate::{DeferredLine, Move, RateLine};
use card_closing::Amounts;
use card_events::{Bp, Cents, NoMemory};
use std::alloc::Global;
use std::marker::Model;

/// What a statement shows in addition to its cycle (12 CFR 1026.7(b)), in cents except for the rates. `previous` is the new balance of
/// the statement before, and `corrections` what changed in it since. `fees_year` and `interest_year` are the sums of the
/// calendar year to date (12 CFR 1026.7(b)(6)(iii), (ii)). `due_payment` is whether it was issued at least 21 days before its due
/// date (12 CFR 1026.5(b)(2)(ii)); `late_up_to` is the greatest late fee, and `penalty` the rate after late payments (12 CFR
/// 1026.7(b)(11)(i)(B)). `closing` has what is owed at the closing on each segment but Credit and Held; `floor` and `pct`
/// are those of the minimum payment; these three aren't printed, and stay within what can be repaid (12 CFR 1026.7(b)(12)):
/// at most 62 amounts of together at most 62 * 10^15 cents, a floor of 0 to 1,000,000 cents, a part of at most 10,000 basis points.
#[derive(Drop)]
pub struct Sheet {
    pub due_payment: bool,
    pub previous: Cents,
    pub corrections: Cents,
    pub moves: Vec<Move>,
    pub fees_year: u128,
    pub interest_year: u128,
    pub rates: Vec<RateLine>,
    pub deferred: Vec<DeferredLine>,
    pub late_up_to: Cents,
    pub penalty: Bp,
    pub closing: Amounts,
    pub floor: Cents,
    pub pct: u16,
}

impl Model for Sheet {
    ghost use Rattle.std.specs.Prelude.{pos};
    ghost use Rattle.card_model.specs.Cycles.{Sheet};
    ghost use Rattle.card_statement.specs.Repayable.{IsRepayable};

    ghost Value = { Sheet };

    ghost view = { λ s. record { due_payment = s.due_payment; previous = s.previous; corrections = s.corrections; moves = s.moves.items; fees_year = pos s.fees_year; interest_year = pos s.interest_year; rates = s.rates.items; deferred = s.deferred.items; late_up_to = s.late_up_to; penalty = s.penalty; closing = s.closing; floor = s.floor; pct = s.pct } };

    ghost invariant = { λ s. IsRepayable s.closing s.floor s.pct };
}

impl Sheet {
    ghost use Rattle.std.specs.Prelude.{◌≡◌, IfOk};

    /// The same sheet in memory of its own.
    pub fn copy(&self, alloc: Global) -> Result<Sheet, NoMemory>
        ensures { IfOk result (λ s. s ≡ self.now) }
    {
        Ok(Sheet {
            due_payment: self.due_payment,
            previous: self.previous,
            corrections: self.corrections,
            moves: Vec::from_slice(alloc, &self.moves)?,
            fees_year: self.fees_year,
            interest_year: self.interest_year,
            rates: Vec::from_slice(alloc, &self.rates)?,
            deferred: Vec::from_slice(alloc, &self.deferred)?,
            late_up_to: self.late_up_to,
            penalty: self.penalty,
            closing: self.closing.copy(alloc)?,
            floor: self.floor,
            pct: self.pct,
        })
    }
}
