ghost use Rattle.std.specs.Prelude.{◌≡◌, ◌+◌, ◌<◌, ◌≤◌, ◌&&◌, ◌==◌, not, IfSome};
ghost use Rattle.card_events.specs.Range.{last_request_day, first_calendar_day};
ghost use Rattle.card_events.specs.Billing.{IsCloseDay};
ghost use Rattle.card_events.specs.Business.{last_minute, MayReceiveOn, is_business, is_mail, next_business, mail_day, credit_day};
ghost use Rattle.card_events.specs.Kept.{AreHolidays};
ghost use Rattle.card_events.specs.Months.{IsLastDue};

use crate::billing::{day_in_month, due_place, month_from};
use crate::calendar::next_business;
use crate::limits::CUTOFF;
use crate::{Anchor, Calendar, Channel, Day};

/// The day as of which a payment is credited (12 CFR 1026.10). One received after 17:00, minute 1,020 of the day, is
/// credited on the next day. One that comes by mail on the first business day after a due date that is no business day
/// is credited as of the greatest such due date. Any other is credited on the day of receipt. The receipt lies from the
/// opening day to 2099-12-31, and the minute is at most 1,439.
#[tactic(auto, unfolding(crate::specs::Business::credit_day))]
pub fn credit_day(a: Anchor, receipt: Day, minute: u16, channel: Channel, cal: &Calendar) -> Day
    requires receipt { MayReceiveOn a receipt }
    requires minute { minute ≤ last_minute }
    ensures value { result ≡ credit_day a cal.now receipt minute (is_mail channel) }
    ensures from_opening { a.opened ≤ result }
    ensures up_to_the_next { result ≤ receipt + 1 }
{
    if minute > CUTOFF {
        return receipt.next();
    }
    match channel {
        Channel::Mail => mail_day(a, receipt, cal),
        Channel::Online => receipt,
    }
}

// the day as of which mail is credited that comes in time on a day
fn mail_day(a: Anchor, receipt: Day, cal: &Calendar) -> Day
    requires receipt { MayReceiveOn a receipt }
    ensures value { result ≡ mail_day a cal.now receipt }
    ensures from_opening { a.opened ≤ result }
    ensures up_to_receipt { result ≤ receipt }
{
    match last_due(a, receipt) {
        Some(due) => {
            if meets(due, receipt, cal) {
                due
            } else {
                receipt
            }
        }
        None => receipt,
    }
}

// whether the receipt is the first business day after a due date that is none
fn meets(due: Day, receipt: Day, cal: &Calendar) -> bool
    requires { due ≤ last_request_day }
    ensures value { result ≡ (is_business cal.now receipt && (not (is_business cal.now due) && next_business cal.now due == receipt)) }
    ensures holidays { AreHolidays 0 cal.now }
{
    cal.is_business(receipt) && !cal.is_business(due) && next_business(due, cal) == receipt
}

// the greatest due date before a day
fn last_due(a: Anchor, day: Day) -> Option<Day>
    requires close_day { IsCloseDay a.close_day }
    requires opened { a.opened ≤ day }
    ensures last { IsLastDue a day result }
    ensures from_opening { IfSome result (λ due. a.opened ≤ due) }
    ensures first { first_calendar_day ≤ day }
{
    let (later, due_day) = due_place(a.close_day);
    let first = month_from(a.close_day, a.opened) + later;
    let next = month_from(due_day, day);
    if next <= first {
        return None;
    }
    day_in_month(next - 1, due_day)
}
