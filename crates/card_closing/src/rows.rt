use crate::runs::{Run, balances_sum, days, half_up, lengthen, rate_sum};
use card_events::{Bp, Cents, Day, NoMemory};
use card_model::GraceCase;
use std::alloc::Global;
use std::marker::Model;

/// What a payment or a credit brought to a segment: its effective day, its cents, and the number of its post.
#[derive(Clone, Copy)]
pub struct Repayment {
    pub day: Day,
    pub cents: u64,
    pub post: u32,
}

/// The rows and repayments of one segment in one cycle. Clauses see the cycle's first day, a row for each day from it
/// on, with its balance in cents and its rate in basis points, and the repayments in the order in which they came.
#[derive(Drop)]
pub struct CycleRows {
    first: Day,
    runs: Vec<Run>,
    repaid: Vec<Repayment>,
}

impl Model for CycleRows {
    ghost use Rattle.card_closing.specs.Rows.{Rows};
    ghost use Rattle.card_closing.specs.Runs.{AreRuns, spread};

    ghost Value = { Rows };

    ghost view = { λ r. record { first = r.first; days = spread r.first r.runs.items; repaid = r.repaid.items } };

    ghost invariant = { λ r. AreRuns r.runs.items };
}

impl CycleRows {
    ghost use Rattle.std.specs.Prelude.{◌≡◌, ◌+◌, ◌*◌, ◌≤◌, ◌^◌, pos, ◌≤ℤ◌, unsigned_abs, length, IfOk, OnOk, OnErr};
    ghost use Rattle.std.specs.List.{sum_by};
    ghost use Rattle.card_model.specs.Limits.{balance_limit};
    ghost use Rattle.card_closing.specs.GraceLaws.{AreDaysFrom};
    ghost use Rattle.card_closing.specs.Rows.{average_of, bearing, interest_on, no_rows, with_days, with_repayment, without_post};

    /// A cycle that begins on a day, without rows. It doesn't allocate.
    pub fn start(alloc: Global, first: Day) -> CycleRows
        ensures { result ≡ no_rows first }
    {
        CycleRows {
            first,
            runs: Vec::new(alloc),
            repaid: Vec::new(alloc),
        }
    }

    /// Begins a cycle on a day, without rows and repayments. It doesn't allocate, and keeps what they had for the next ones: for
    /// speed alone, as no clause says.
    pub fn begin(&mut self, first: Day)
        ensures { self.new ≡ no_rows first }
    {
        self.first = first;
        self.runs.clear();
        self.repaid.clear();
    }

    /// The cycle's first day.
    pub fn first(&self) -> Day
        ensures { result ≡ self.now.first }
    {
        self.first
    }

    /// How many days there are, at most 31.
    pub fn days(&self) -> u32
        ensures value { result ≡ length self.now.days }
        ensures bound { result ≤ 31 }
        ensures own_days { AreDaysFrom self.now.first self.now.days }
    {
        days(&self.runs)
    }

    /// Adds so many days with the same balance in cents, 0 to 10^15, and the same rate. All days together are at most
    /// 31. If memory runs out, the rows are as before.
    pub fn row(&mut self, days: u32, balance: Cents, rate: Bp) -> Result<(), NoMemory>
        requires low { pos 0 ≤ℤ balance }
        requires high { balance ≤ℤ pos balance_limit }
        requires few { length self.old.days + days ≤ 31 }
        ensures ok { OnOk result (self.new ≡ with_days days (unsigned_abs balance) rate self.old) }
        ensures err { OnErr result (self.new ≡ self.old) }
    {
        let run = Run {
            days,
            balance: balance.unsigned_abs(),
            rate,
        };
        if lengthen(&mut self.runs, &run) {
            return Ok(());
        }
        self.runs.push(run)?;
        Ok(())
    }

    /// A payment or a credit, by the number of its post, brought cents on its effective day: 0 to 10^15. After want of
    /// memory the repayments are as before.
    pub fn repaid(&mut self, day: Day, cents: Cents, post: u32) -> Result<(), NoMemory>
        requires low { pos 0 ≤ℤ cents }
        requires high { cents ≤ℤ pos balance_limit }
        ensures ok { OnOk result (self.new ≡ with_repayment (record { day = day; cents = unsigned_abs cents; post = post }) self.old) }
        ensures err { OnErr result (self.new ≡ self.old) }
    {
        self.repaid.push(Repayment {
            day,
            cents: cents.unsigned_abs(),
            post,
        })?;
        Ok(())
    }

    /// Takes out all repayments of a payment that was returned. It doesn't allocate.
    pub fn unpaid(&mut self, post: u32)
        ensures { self.new ≡ without_post post self.old }
    {
        self.repaid.retain(|r| r.post != post);
    }

    /// The same rows and repayments in memory of their own.
    pub fn copy(&self, alloc: Global) -> Result<CycleRows, NoMemory>
        ensures { IfOk result (λ rows. rows ≡ self.now) }
    {
        Ok(CycleRows {
            first: self.first,
            runs: Vec::from_slice(alloc, self.runs.as_slice())?,
            repaid: Vec::from_slice(alloc, self.repaid.as_slice())?,
        })
    }

    /// The sum of the balances that bear interest (12 CFR 1026.54(a)(1)), each times its day's rate in units of 10^-9:
    /// none, all as they stand, or each less what was repaid on later days up to the due date. The days are the cycle's
    /// own. The sum is at most 10^23. The call doesn't allocate.
    pub fn interest_sum(&self, case: GraceCase) -> u128
        ensures value { result ≡ interest_on case self.now }
        ensures own_days { AreDaysFrom self.now.first self.now.days }
        ensures bound { result ≤ 10 ^ 23 }
    {
        let first = self.first.number() as u32;
        rate_sum(&self.runs, first, &case, &self.repaid)
    }

    /// The average in cents of the balances that bear interest, over all days (12 CFR 1026.7(b)(5)), rounded half up;
    /// 0 with no day. It doesn't allocate.
    pub fn average(&self, case: GraceCase) -> Cents
        ensures value { result ≡ pos (average_of case self.now) }
        ensures own_days { AreDaysFrom self.now.first self.now.days }
    {
        half_up(self.balances(&case), self.days()) as Cents
    }

    // the sum of the balances that bear interest
    fn balances(&self, case: &GraceCase) -> u64
        ensures sum { result ≡ sum_by (bearing case.now self.now.repaid) self.now.days }
        ensures bound { result ≤ length self.now.days * balance_limit }
    {
        let first = self.first.number() as u32;
        balances_sum(&self.runs, first, case, &self.repaid)
    }
}
