// What accounts read of the accepted shared requests.

use crate::{FeeTable, IndexTable};
use card_events::{Bp, Calendar, Day, NoMemory, Num};
use std::alloc::Global;
use std::marker::Model;

/// What all accounts share: the holidays that are loaded (12 CFR 1026.10), the amounts of penalty fees (12 CFR
/// 1026.52(b)(1)(ii)), and the index of variable rates (12 CFR 1026.55(b)(2)). Clauses see it as the record of the three lists.
#[derive(Drop)]
pub struct SharedRows {
    calendar: Calendar,
    fees: FeeTable,
    index: IndexTable,
}

impl Model for SharedRows {
    ghost use Rattle.card_events.specs.SharedRows.{SharedRows};

    ghost Value = { SharedRows };

    ghost view = { λ s. record { holidays = s.calendar; fees = s.fees; index = s.index } };
}

impl SharedRows {
    ghost use Rattle.std.specs.Prelude.{◌≡◌, ◌≤◌, ◌++◌, [], ◌∷◌, IfOk};
    ghost use Rattle.card_events.specs.Range.{last_request_day};
    ghost use Rattle.card_events.specs.Business.{with_holiday};
    ghost use Rattle.card_events.specs.Money.{rate_limit};
    ghost use Rattle.card_events.specs.SharedRows.{with_index};

    /// No holiday, no amounts, and no index. It doesn't allocate.
    pub fn new(alloc: Global) -> SharedRows
        ensures { result ≡ record { holidays = []; fees = []; index = [] } }
    {
        SharedRows {
            calendar: Calendar::new(alloc),
            fees: FeeTable::new(alloc),
            index: IndexTable::new(alloc),
        }
    }

    /// The holidays.
    pub fn calendar(&self) -> &Calendar
        ensures { result.now ≡ self.now.holidays }
    {
        &self.calendar
    }

    /// The amounts of penalty fees.
    pub fn fees(&self) -> &FeeTable
        ensures { result.now ≡ self.now.fees }
    {
        &self.fees
    }

    /// The index.
    pub fn index(&self) -> &IndexTable
        ensures { result.now ≡ self.now.index }
    {
        &self.index
    }

    /// The same with one more holiday, which is at most 2099-12-31, in memory of their own.
    pub fn with_holiday(&self, alloc: Global, day: Day) -> Result<SharedRows, NoMemory>
        requires { day ≤ last_request_day }
        ensures { IfOk result (λ more. more ≡ record self.now { holidays = with_holiday day self.now.holidays }) }
    {
        let mut calendar = self.calendar.copy(alloc)?;
        calendar.add(day)?;
        Ok(SharedRows {
            calendar,
            fees: self.fees.copy(alloc)?,
            index: self.index.copy(alloc)?,
        })
    }

    /// The same with one more fee row, in memory of their own: the first and the repeat amount from a day on, each at most
    /// 100,000 cents.
    pub fn with_fees(
        &self,
        alloc: Global,
        day: Day,
        first: Num,
        repeat: Num,
    ) -> Result<SharedRows, NoMemory>
        requires first { first ≤ 100_000 }
        requires repeat { repeat ≤ 100_000 }
        ensures { IfOk result (λ more. more ≡ record self.now { fees = self.now.fees ++ record { day = day; first = first; repeat = repeat } ∷ [] }) }
    {
        let mut fees = self.fees.copy(alloc)?;
        fees.add(day, first.get() as i64, repeat.get() as i64)?;
        Ok(SharedRows {
            calendar: self.calendar.copy(alloc)?,
            fees,
            index: self.index.copy(alloc)?,
        })
    }

    /// The same with one more index row, of at most 9,999 basis points, in memory of their own. One for a day that is there takes
    /// its place.
    pub fn with_index(&self, alloc: Global, day: Day, rate: Num) -> Result<SharedRows, NoMemory>
        requires { rate ≤ rate_limit }
        ensures { IfOk result (λ more. more ≡ record self.now { index = with_index (record { day = day; rate = rate }) self.now.index }) }
    {
        let mut index = self.index.copy(alloc)?;
        index.add(day, Bp::new(rate.get()).unwrap())?;
        Ok(SharedRows {
            calendar: self.calendar.copy(alloc)?,
            fees: self.fees.copy(alloc)?,
            index,
        })
    }
}
