use card_closing::{Cycle, Entry, Fee};
use card_events::{Day, NoMemory};
use card_statement::{PackedSheet, Sheet};
use std::alloc::Global;
use std::marker::Model;

/// What is recorded of an account: its entries, its closed cycles and the penalty fees charged so far, each in order. Each list
/// only grows.
#[derive(Drop)]
pub struct Track {
    pub entries: Vec<Entry>,
    pub cycles: Vec<Cycle>,
    pub fees: Vec<Fee>,
}

/// The statement of a closed cycle (12 CFR 1026.5(b)(2), .7(b)): the day on which it is issued, and what it shows beside the
/// cycle.
#[derive(Drop)]
pub struct Statement {
    pub cycle: Cycle,
    pub issue: Day,
    pub sheet: Sheet,
}

/// An issued statement: the number of its cycle, the number of the Bill that issued it, the day of that Bill, and what it said:
/// the cycle as it was then, and the sheet, packed.
#[derive(Drop)]
pub struct Issued {
    pub cycle: u32,
    pub bill: u32,
    pub day: Day,
    pub statement: Cycle,
    pub sheet: PackedSheet,
}

impl Model for Issued {
    ghost use Rattle.card_model.specs.Cycles.{IssuedRow};

    ghost Value = { IssuedRow };

    ghost view = { λ i. record { cycle = i.cycle; bill = i.bill; day = i.day; statement = i.statement; sheet = i.sheet } };
}

impl Statement {
    ghost use Rattle.std.specs.Prelude.{◌≡◌, IfOk};

    /// The same statement in memory of its own.
    pub fn copy(&self, alloc: Global) -> Result<Statement, NoMemory>
        ensures { IfOk result (λ s. s ≡ self.now) }
    {
        Ok(Statement {
            cycle: self.cycle.copy(alloc)?,
            issue: self.issue,
            sheet: self.sheet.copy(alloc)?,
        })
    }
}
