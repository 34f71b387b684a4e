ghost use Rattle.std.specs.Prelude.{◌≡◌, ◌+◌, ◌<◌, ◌≤◌, max, ℕ, List, [], ◌∷◌, true, length, IsOk, IfOk, OnOk, OnErr, MatchResult, slice_index};
ghost use Rattle.card_events.specs.Range.{last_reckoned_day, last_request_day};
ghost use Rattle.std.specs.List.{insert};
ghost use Rattle.card_events.specs.Business.{is_business, is_holiday, is_weekday, with_holiday, next_business};
ghost use Rattle.card_events.specs.Kept.{AreHolidays, IsPlaceOf, IsGapFor};

use crate::{Day, NoMemory};
use std::alloc::Global;
use std::marker::Model;

/// The holidays that are loaded. Clauses see them as the ascending list of their day numbers.
#[derive(Drop)]
pub struct Calendar {
    holidays: Vec<Day>,
}

impl Model for Calendar {
    ghost Value = { List ℕ };

    ghost view = { λ c. c.holidays.items };

    ghost invariant = { λ c. AreHolidays 0 c.holidays.items };
}

impl Calendar {
    /// A calendar without holidays. It doesn't allocate.
    #[tactic(auto, unfolding(crate::specs::Kept::AreHolidays))]
    pub fn new(alloc: Global) -> Calendar
        ensures { result ≡ [] }
    {
        Calendar {
            holidays: Vec::new(alloc),
        }
    }

    /// Loads a holiday, which is at most 2099-12-31. A day that is there already changes nothing and doesn't allocate.
    /// If memory runs out, the calendar is as before.
    pub fn add(&mut self, day: Day) -> Result<(), NoMemory>
        requires { day ≤ last_request_day }
        ensures added { OnOk result (self.new ≡ with_holiday day self.old) }
        ensures known { is_holiday self.old day ≡ true → IsOk result }
        ensures err { OnErr result (self.new ≡ self.old) }
    {
        match self.place(day) {
            Ok(_) => Ok(()),
            Err(index) => {
                self.holidays.insert(index, day)?;
                Ok(())
            }
        }
    }

    /// Whether the day is a business day: a Monday to Friday that isn't a loaded holiday.
    #[tactic(auto, unfolding(crate::specs::Business::is_business))]
    pub fn is_business(&self, day: Day) -> bool
        ensures value { result ≡ is_business self.now day }
        ensures holidays { AreHolidays 0 self.now }
    {
        let holiday = self.is_holiday(day);
        is_weekday(day) && !holiday
    }

    /// The same holidays in memory of their own.
    pub fn copy(&self, alloc: Global) -> Result<Calendar, NoMemory>
        ensures { IfOk result (λ calendar. calendar ≡ self.now) }
    {
        let holidays = Vec::from_slice(alloc, self.holidays.as_slice())?;
        Ok(Calendar { holidays })
    }

    fn is_holiday(&self, day: Day) -> bool
        ensures value { result ≡ is_holiday self.now day }
        ensures holidays { AreHolidays 0 self.now }
    {
        self.place(day).is_ok()
    }

    // where the day stands among the holidays, or where it would
    fn place(&self, day: Day) -> Result<usize, usize>
        ensures place { MatchResult result (IsPlaceOf self.now day) (IsGapFor self.now day) }
        ensures ordered { AreHolidays 0 self.now }
    {
        self.holidays.binary_search(&day)
    }
}

/// The first business day after a day, which is at most 2100-12-31.
pub fn next_business(day: Day, cal: &Calendar) -> Day
    requires { day ≤ last_reckoned_day }
    ensures value { result ≡ next_business cal.now day }
    ensures later { day < result }
    ensures near { result ≤ max (last_request_day + 1) (day + 3) }
{
    let mut next = day.next();
    while !cal.is_business(next) {
        next = next.next();
    }
    next
}

// Monday to Friday: day 0 was a Thursday
fn is_weekday(day: Day) -> bool
    ensures { result ≡ is_weekday day }
{
    (day.number() + 3) % 7 < 5
}
