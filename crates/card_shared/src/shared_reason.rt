// Why shared requests aren't accepted: the first reason in order.
ghost use Rattle.std.specs.Prelude.{◌≡◌, ◌≤◌, ◌||◌, None, nat_lt, Bool};
ghost use Rattle.card_events.specs.declared.request.Shared.TheVariants as shared;
ghost use Rattle.card_model.specs.Machine.{shared_reason};

use card_events::{Day, Num, RATE_LIMIT, Refusal};

/// Why a Roll isn't accepted today, where so many accounts exist.
#[tactic(auto, unfolding(card_model::specs::Machine::shared_reason))]
pub fn roll_reason(today: Day, accounts: usize, day: Day) -> Option<Refusal>
    ensures { result ≡ shared_reason today (nat_lt 0 accounts) (shared.Roll day) }
{
    if day <= today {
        Some(Refusal::RollBack(today))
    } else if accounts > 0 && day.number() > today.number() + 366 {
        Some(Refusal::RollTooFar)
    } else {
        None
    }
}

/// Why a Holiday isn't accepted today.
#[tactic(auto, unfolding(card_model::specs::Machine::shared_reason))]
pub fn holiday_reason(today: Day, holiday: Day) -> Option<Refusal>
    ensures { (any : Bool) → result ≡ shared_reason today any (shared.Holiday holiday) }
{
    if holiday <= today {
        Some(Refusal::PastRow(today))
    } else {
        None
    }
}

/// Why a fee row isn't accepted today. Its amounts are at most 100,000 cents, and the first is at most the repeated one.
#[tactic(auto, unfolding(card_model::specs::Machine::shared_reason))]
pub fn fees_reason(today: Day, day: Day, first: Num, repeat: Num) -> Option<Refusal>
    ensures { (any : Bool) → result ≡ shared_reason today any (shared.FeeRow day first repeat) }
{
    if are_no_fees(first, repeat) {
        Some(Refusal::AmountRange)
    } else if day <= today {
        Some(Refusal::PastRow(today))
    } else {
        None
    }
}

/// Why an index row isn't accepted today. Its rate is at most 9,999 basis points (12 CFR 1026.55(b)(2)).
#[tactic(auto, unfolding(card_model::specs::Machine::shared_reason))]
pub fn index_reason(today: Day, day: Day, rate: Num) -> Option<Refusal>
    ensures { (any : Bool) → result ≡ shared_reason today any (shared.Index day rate) }
{
    if rate.get() > RATE_LIMIT as u64 {
        Some(Refusal::AmountRange)
    } else if day <= today {
        Some(Refusal::PastRow(today))
    } else {
        None
    }
}

fn are_no_fees(first: Num, repeat: Num) -> bool
    ensures { result ≡ (nat_lt 100000 first || nat_lt 100000 repeat || nat_lt repeat first) }
{
    first.get() > 100_000 || repeat.get() > 100_000 || repeat.get() < first.get()
}
