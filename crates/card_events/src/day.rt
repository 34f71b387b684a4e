ghost use Rattle.std.specs.Prelude.{nat_le, ◌≡◌, ◌↔◌, ◌+◌, ◌/◌, ◌%◌, ◌<◌, ◌≤◌, ℕ, pos, true, IsSome, IfSome, SomeIff, Some, OnSome};
ghost use Rattle.card_events.specs.Range.{IsDayNumber, first_calendar_day, last_calendar_day, last_request_day};
ghost use Rattle.card_events.specs.Later.{clipped_day_at};
ghost use Rattle.card_events.specs.Civil.{IsInCalendar, date_of, is_date, day_at, day_text, month_length};
ghost use Rattle.card_events.specs.Months.{day_in_month, month_number};

use crate::month_table::{length_of, month_at, start_of};
use jiff::civil::Date;
use jiff_core::civil;
use std::fmt;
use std::marker::Model;

// the numbers of 2011-01-01, 2099-12-31 and 2102-12-31
const FIRST_NUMBER: u32 = 14_975;

const LAST_REQUEST_NUMBER: u32 = 47_481;

const LAST_NUMBER: u32 = 48_576;

/// A civil day from 2011-01-01 to 2102-12-31. Clauses see it as its number of days since 1970-01-01.
#[derive(Clone, Copy, Debug, PartialEq, Eq, PartialOrd, Ord)]
pub struct Day {
    number: u32,
}

impl Model for Day {
    ghost use Rattle.std.specs.Prelude.{ℕ, ◌≤◌};
    ghost use Rattle.card_events.specs.Range.{first_calendar_day, last_calendar_day};

    ghost Value = { ℕ };

    ghost view = { λ d. d.number };

    ghost inverse = { λ n. record { number = n } };

    ghost invariant = { λ d. (first_calendar_day ≤ d.number) × (d.number ≤ last_calendar_day) };
}

impl Day {
    /// The day with this year, month and day of the month. None comes exactly where the calendar has no such date, or
    /// where it lies outside 2011-01-01 to 2102-12-31.
    pub fn from_ymd(y: u16, m: u8, d: u8) -> Option<Day>
        ensures { SomeIff result (is_date y m d ≡ true) (day_at y m d) }
    {
        if y < 2011 || y > 2102 || m == 0 || m > 12 || d == 0 {
            return None;
        }
        Day::in_month((y as usize - 2011) * 12 + (m as usize - 1), d)
    }

    // the day of a month, which is counted from January 2011 on as 0; None comes exactly where the month is shorter
    pub(crate) fn in_month(month: usize, d: u8) -> Option<Day>
        requires month { month < 1104 }
        requires day { 1 ≤ d }
        ensures { SomeIff result (d ≤ month_length (2011 + month / 12) (month % 12 + 1)) (day_in_month (24_132 + month) d) }
    {
        if d as u32 > length_of(month) {
            return None;
        }
        Some(Day {
            number: FIRST_NUMBER + start_of(month) + (d as u32 - 1),
        })
    }

    /// The day with this number of days since 1970-01-01. None comes exactly where the number lies outside 14975
    /// (2011-01-01) to 48576 (2102-12-31).
    pub fn from_number(n: i32) -> Option<Day>
        ensures some { IsSome result ↔ IsDayNumber n }
        ensures value { IfSome result (λ d. pos d ≡ n) }
    {
        if n < FIRST_NUMBER as i32 || n > LAST_NUMBER as i32 {
            return None;
        }
        Some(Day { number: n as u32 })
    }

    /// 2011-01-01.
    pub fn first() -> Day
        ensures { result ≡ first_calendar_day }
    {
        Day {
            number: FIRST_NUMBER,
        }
    }

    /// 2102-12-31.
    pub fn last() -> Day
        ensures { result ≡ last_calendar_day }
    {
        Day {
            number: LAST_NUMBER,
        }
    }

    /// Whether it is a day of requests: by 2099-12-31.
    pub fn is_request_day(self) -> bool
        ensures { result ≡ nat_le self last_request_day }
    {
        self.number <= LAST_REQUEST_NUMBER
    }

    /// Days since 1970-01-01.
    pub fn number(self) -> i32
        ensures value { result ≡ pos self }
        ensures first { first_calendar_day ≤ self }
        ensures last { self ≤ last_calendar_day }
    {
        self.number as i32
    }

    /// Its year, month and day of the month.
    pub fn ymd(self) -> (u16, u8, u8)
        ensures year { result.0 ≡ (date_of self).year }
        ensures month { result.1 ≡ (date_of self).month }
        ensures day { result.2 ≡ (date_of self).day }
        ensures in_calendar { IsInCalendar result.0 result.1 result.2 }
        ensures first { first_calendar_day ≤ self }
        ensures last { self ≤ last_calendar_day }
    {
        let (month, d) = self.month_and_day();
        ((2011 + month / 12) as u16, (month % 12 + 1) as u8, d)
    }

    // its month, counted from January 2011 on as 0, and its day of the month
    pub(crate) fn month_and_day(self) -> (usize, u8)
        ensures month { 24_132 + result.0 ≡ month_number (date_of self) }
        ensures day { result.1 ≡ (date_of self).day }
        ensures in_calendar { IsInCalendar (date_of self).year (date_of self).month (date_of self).day }
        ensures first { first_calendar_day ≤ self }
        ensures last { self ≤ last_calendar_day }
    {
        let days = self.number - FIRST_NUMBER;
        let month = month_at(days);
        (month, (days - start_of(month) + 1) as u8)
    }

    // the day with this date, or the last one of its month where that has no such day
    pub(crate) fn clipped(y: u16, m: u8, d: u8) -> Day
        requires year_low { 2011 ≤ y }
        requires year_high { y ≤ 2102 }
        requires month_low { 1 ≤ m }
        requires month_high { m ≤ 12 }
        requires day_low { 1 ≤ d }
        ensures { result ≡ clipped_day_at y m d }
    {
        let date = civil::Date::constrain(y as i16, m, d);
        Day {
            number: date.to_unix_epoch_day() as u32,
        }
    }

    /// The day after.
    pub fn next(self) -> Day
        requires { self < last_calendar_day }
        ensures { result ≡ self + 1 }
    {
        self.plus(1)
    }

    /// So many days later.
    pub fn plus(self, days: u32) -> Day
        requires { self + days ≤ last_calendar_day }
        ensures { result ≡ self + days }
    {
        Day {
            number: self.number + days,
        }
    }

    fn date(self) -> Date
        ensures year { result.year ≡ pos (date_of self).year }
        ensures month { result.month ≡ (date_of self).month }
        ensures day { result.day ≡ (date_of self).day }
        ensures in_calendar { IsInCalendar (date_of self).year (date_of self).month (date_of self).day }
        ensures first { first_calendar_day ≤ self }
        ensures last { self ≤ last_calendar_day }
    {
        match civil::Date::from_unix_epoch_day(self.number as i64) {
            Ok(date) => Date::from_plain(date),
            Err(_) => unreachable!(),
        }
    }
}

impl fmt::Display for Day {
    ghost output = { λ d. Some (day_text d) };

    #[tactic(auto, unfolding(crate::specs::Civil::date_text))]
    fn fmt<W: fmt::Write>(&self, f: &mut fmt::Formatter<W>) -> fmt::Result {
        write!(f, "{}", self.date())
    }
}
