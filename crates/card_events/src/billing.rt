ghost use Rattle.std.specs.Prelude.{◌≡◌, ◌+◌, ◌<◌, ◌≤◌, ◌-◌, SomeIff, Some, OnSome, IfSome};
ghost use Rattle.card_events.specs.Range.{last_calendar_day, last_reckoned_day, first_calendar_day};
ghost use Rattle.card_events.specs.Civil.{date_of};
ghost use Rattle.card_events.specs.Billing.{IsCloseDay, closing, due_day_of_month, due, cycle_of};
ghost use Rattle.card_events.specs.Months.{day_in_month, month_from, due_shift};

use crate::{Anchor, Day};

/// The day on which cycle k closes: the k-th day with the closing day of the month, counted from the opening day. Cycle 1
/// begins on the opening day, and each later cycle on the day after a closing. None comes exactly where k is 0 or the day
/// would lie past 2102-12-31.
pub fn closing(a: Anchor, k: u32) -> Option<Day>
    requires { IsCloseDay a.close_day }
    ensures { SomeIff result ((1 ≤ k) × (closing a k ≤ last_calendar_day)) (closing a k) }
{
    if k == 0 {
        return None;
    }
    let month = month_from(a.close_day, a.opened) + (k as u64 - 1);
    day_in_month(month, a.close_day)
}

/// The day on which the payment of statement k is due: 24 days later in the month of its closing where the closing day is
/// at most 4, else 4 days earlier in the next month (12 CFR 1026.5(b)(2)(ii), .7(b)(11)(i)(A)). None comes exactly where
/// k is 0 or the day would lie past 2102-12-31.
pub fn due(a: Anchor, k: u32) -> Option<Day>
    requires { IsCloseDay a.close_day }
    ensures { SomeIff result ((1 ≤ k) × (due a k ≤ last_calendar_day)) (due a k) }
{
    if k == 0 {
        return None;
    }
    let (later, due_day) = due_place(a.close_day);
    let month = month_from(a.close_day, a.opened) + (k as u64 - 1);
    day_in_month(month + later, due_day)
}

/// The closing of a cycle, from 1 on, that closes by 2102-12-31.
pub fn closing_date(a: &Anchor, k: u32) -> Day
    requires close_day { IsCloseDay a.now.close_day }
    requires cycle { 1 ≤ k }
    requires in_calendar { closing a.now k ≤ last_calendar_day }
    ensures { result ≡ closing a.now k }
{
    closing(*a, k).unwrap()
}

/// The due date of a cycle, from 1 on, that is due by 2102-12-31 (12 CFR 1026.5(b)(2)(ii)).
pub fn due_date(a: &Anchor, k: u32) -> Day
    requires close_day { IsCloseDay a.now.close_day }
    requires cycle { 1 ≤ k }
    requires in_calendar { due a.now k ≤ last_calendar_day }
    ensures { result ≡ due a.now k }
{
    due(*a, k).unwrap()
}

/// The number of the cycle that holds a day, from 1. The day doesn't lie before the opening day, and is at most
/// 2100-12-31.
pub fn cycle_of(a: Anchor, day: Day) -> u32
    requires close_day { IsCloseDay a.close_day }
    requires opened { a.opened ≤ day }
    requires last { day ≤ last_reckoned_day }
    ensures value { result ≡ cycle_of a day }
    ensures from_one { 1 ≤ result }
    ensures after_the_last { closing a (result - 1) < day }
    ensures up_to_its_own { day ≤ closing a result }
{
    (month_from(a.close_day, day) + 1 - month_from(a.close_day, a.opened)) as u32
}

// how many months after the closing its payment is due, and the day of the month
#[tactic(auto, unfolding(crate::specs::Months::due_shift))]
pub(crate) fn due_place(close_day: u8) -> (u64, u8)
    requires { IsCloseDay close_day }
    ensures later { result.0 ≡ due_shift close_day }
    ensures day { result.1 ≡ due_day_of_month close_day }
    ensures every_month { IsCloseDay result.1 }
    ensures small { result.0 ≤ 1 }
{
    if close_day <= 4 {
        (0, close_day + 24)
    } else {
        (1, close_day - 4)
    }
}

// the number of the first month whose day with this number doesn't lie before the given day, twelve months a year
pub(crate) fn month_from(c: u8, day: Day) -> u64
    ensures value { result ≡ month_from c (date_of day) }
    ensures low { 24_132 ≤ result }
    ensures high { result ≤ 25_236 }
    ensures first { first_calendar_day ≤ day }
    ensures last { day ≤ last_calendar_day }
{
    let (month, d) = day.month_and_day();
    let number = 24_132 + month as u64;
    if c < d { number + 1 } else { number }
}

pub(crate) fn day_in_month(month: u64, d: u8) -> Option<Day>
    requires { IsCloseDay d }
    ensures { SomeIff result ((24_132 ≤ month) × (month ≤ 25_235)) (day_in_month month d) }
{
    if month < 24_132 || month > 25_235 {
        return None;
    }
    Day::in_month((month - 24_132) as usize, d)
}
