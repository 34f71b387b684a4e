//! Laws on due dates and credit days. Their functions do nothing; their clauses are what holds.

ghost use Rattle.std.specs.Prelude.{◌≡◌, ◌≢◌, ℕ, ◌+◌, ◌-◌, ◌<◌, ◌≤◌, true};
ghost use Rattle.card_events.specs.Range.{last_calendar_day};
ghost use Rattle.card_events.specs.Civil.{date_of, day_of_month, next_month, year_of_next_month};
ghost use Rattle.card_events.specs.Billing.{IsCloseDay, closing, due_day_of_month, due, is_timely};
ghost use Rattle.card_events.specs.Business.{AgreeUpTo, MayReceiveOn, IsMet, IsGreatestMet, credit_day, cutoff};

use crate::{Anchor, Calendar, Day};

/// Closing k has the closing day of the month, and no day between it and the closing before has. Closing 0 is the day
/// before the opening, so closing k is the k-th such day from the opening day on.
pub fn closings(a: Anchor, k: u32)
    requires close_day { IsCloseDay a.close_day }
    requires cycle { 1 ≤ k }
    requires in_calendar { closing a k ≤ last_calendar_day }
    ensures before_the_first { closing a 0 + 1 ≡ a.opened }
    ensures on_its_day { day_of_month (closing a k) ≡ a.close_day }
    ensures later { closing a (k - 1) < closing a k }
    ensures none_between { (x : ℕ) → closing a (k - 1) < x → x < closing a k → day_of_month x ≢ a.close_day }
{
    let _ = (a.opened.number(), k);
}

/// What the regulation asks of due dates. They fall on the same day of each month (12 CFR 1026.7(b)(11)(i)(A)). A
/// statement that is timely is issued at least 21 days before its due date (12 CFR 1026.5(b)(2)(ii)(A)), and one that is
/// issued within three days of its closing always is. A due date lies 24 to 27 days after its closing, before the next:
/// exactly 24 days after it where the closing day of the month is at most 4, and else exactly 4 days before the next.
pub fn due_dates(a: Anchor, k: u32, issued: Day)
    requires close_day { IsCloseDay a.close_day }
    requires cycle { 1 ≤ k }
    requires in_calendar { due a k ≤ last_calendar_day }
    ensures same_day { day_of_month (due a k) ≡ due_day_of_month a.close_day }
    ensures next_month { (date_of (due a (k + 1))).month ≡ next_month (date_of (due a k)).month }
    ensures its_year { (date_of (due a (k + 1))).year ≡ year_of_next_month (date_of (due a k)).year (date_of (due a k)).month }
    ensures early { a.close_day ≤ 4 → due a k ≡ closing a k + 24 }
    ensures late { 4 < a.close_day → due a k + 4 ≡ closing a (k + 1) }
    ensures at_least { closing a k + 24 ≤ due a k }
    ensures at_most { due a k ≤ closing a k + 27 }
    ensures before_the_next { due a k < closing a (k + 1) }
    ensures timely { is_timely a k issued ≡ true → issued + 21 ≤ due a k }
    ensures prompt { issued ≤ closing a k + 3 → is_timely a k issued ≡ true }
{
    let _ = (a.opened.number(), k, issued);
}

/// Mail that is received in time is credited as of the greatest due date that it still meets: a due date of the account
/// that is no business day, with the receipt on the first business day after it. Where it meets none, it is credited on
/// the day of receipt (12 CFR 1026.10(d)).
pub fn mail(a: Anchor, receipt: Day, minute: u16, cal: &Calendar)
    requires receipt { MayReceiveOn a receipt }
    requires in_time { minute ≤ cutoff }
    ensures met { (k : ℕ) → 1 ≤ k → IsMet cal.now receipt (due a k) → IsGreatestMet a cal.now receipt (credit_day a cal.now receipt minute true) }
    ensures unmet { ((k : ℕ) → 1 ≤ k → ¬ (IsMet cal.now receipt (due a k))) → credit_day a cal.now receipt minute true ≡ receipt }
{
    let _ = (a.opened.number(), minute, cal.is_business(receipt));
}

/// The credit day depends on the holidays up to the day of receipt alone.
pub fn later_holidays(
    a: Anchor,
    receipt: Day,
    minute: u16,
    by_mail: bool,
    these: &Calendar,
    those: &Calendar,
)
    requires { AgreeUpTo receipt these.now those.now }
    ensures { credit_day a these.now receipt minute by_mail ≡ credit_day a those.now receipt minute by_mail }
{
    let _ = (a, minute, by_mail);
    let _ = (these.is_business(receipt), those.is_business(receipt));
}
