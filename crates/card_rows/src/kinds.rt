// The fields of each kind of request, read from a row.
ghost use Rattle.card_rows.specs.Reading.{GivesSome};
ghost use Rattle.card_rows.specs.Reading as spec;

use crate::fields::{
    read_category, read_channel, read_day, read_finding, read_number, read_place, read_plan_kind,
};
use crate::format::Format;
use card_events::{Post, Shared, Terms};

/// The post with this code.
#[tactic(auto, unfolding(crate::specs::Reading::read_post))]
pub fn read_post(format: Format, code: u8, rest: &mut &[u8]) -> Option<Post>
    ensures { GivesSome result rest.new.now (spec.read_post format code rest.old.now) }
{
    match code {
        4 => read_open(format, rest),
        5 => read_charge(format, rest),
        6 => read_credit(format, rest),
        7 => read_payment(format, rest),
        8 => read_return(format, rest),
        9 => read_plan(format, rest),
        10 => read_notice(format, rest),
        11 => read_lower(format, rest),
        12 => read_penalty(rest),
        13 => read_review(format, rest),
        14 => read_dispute(format, rest),
        15 => read_ack(format, rest),
        16 => read_resolve(format, rest),
        17 => read_ask_refund(format, rest),
        18 => read_refund(format, rest),
        19 => read_amend(format, rest),
        20 => read_bill(format, rest),
        22 => read_open_variable(format, rest),
        _ => None,
    }
}

/// The shared request with this code.
#[tactic(auto, unfolding(crate::specs::Reading::read_shared))]
pub fn read_shared(format: Format, code: u8, rest: &mut &[u8]) -> Option<Shared>
    ensures { GivesSome result rest.new.now (spec.read_shared format code rest.old.now) }
{
    match code {
        1 => read_roll(format, rest),
        2 => read_holiday(format, rest),
        3 => read_fee_row(format, rest),
        21 => read_index(format, rest),
        _ => None,
    }
}

#[tactic(auto, unfolding(crate::specs::Reading::read_terms))]
fn read_terms(format: Format, rest: &mut &[u8]) -> Option<Terms>
    ensures { GivesSome result rest.new.now (spec.read_terms format rest.old.now) }
{
    let close = read_number(format, rest)?;
    let purchase = read_number(format, rest)?;
    let cash = read_number(format, rest)?;
    let transfer = read_number(format, rest)?;
    let penalty = read_number(format, rest)?;
    let floor = read_number(format, rest)?;
    let pct = read_number(format, rest)?;
    let terms = Terms {
        close,
        purchase,
        cash,
        transfer,
        penalty,
        floor,
        pct,
    };
    Some(terms)
}

#[tactic(auto, unfolding(crate::specs::Reading::read_open))]
fn read_open(format: Format, rest: &mut &[u8]) -> Option<Post>
    ensures { GivesSome result rest.new.now (spec.read_open format rest.old.now) }
{
    let day = read_day(format, rest)?;
    let terms = read_terms(format, rest)?;
    Some(Post::Open { day, terms })
}

#[tactic(auto, unfolding(crate::specs::Reading::read_open_variable))]
fn read_open_variable(format: Format, rest: &mut &[u8]) -> Option<Post>
    ensures { GivesSome result rest.new.now (spec.read_open_variable format rest.old.now) }
{
    let day = read_day(format, rest)?;
    let terms = read_terms(format, rest)?;
    Some(Post::OpenVariable { day, terms })
}

#[tactic(auto, unfolding(crate::specs::Reading::read_charge))]
fn read_charge(format: Format, rest: &mut &[u8]) -> Option<Post>
    ensures { GivesSome result rest.new.now (spec.read_charge format rest.old.now) }
{
    let day = read_day(format, rest)?;
    let place = read_place(format, rest)?;
    let cents = read_number(format, rest)?;
    Some(Post::Charge { day, place, cents })
}

#[tactic(auto, unfolding(crate::specs::Reading::read_credit))]
fn read_credit(format: Format, rest: &mut &[u8]) -> Option<Post>
    ensures { GivesSome result rest.new.now (spec.read_credit format rest.old.now) }
{
    let day = read_day(format, rest)?;
    let place = read_place(format, rest)?;
    let cents = read_number(format, rest)?;
    Some(Post::Credit { day, place, cents })
}

#[tactic(auto, unfolding(crate::specs::Reading::read_payment))]
fn read_payment(format: Format, rest: &mut &[u8]) -> Option<Post>
    ensures { GivesSome result rest.new.now (spec.read_payment format rest.old.now) }
{
    let day = read_day(format, rest)?;
    let minute = read_number(format, rest)?;
    let channel = read_channel(rest)?;
    let cents = read_number(format, rest)?;
    Some(Post::Payment {
        day,
        minute,
        channel,
        cents,
    })
}

#[tactic(auto, unfolding(crate::specs::Reading::read_return))]
fn read_return(format: Format, rest: &mut &[u8]) -> Option<Post>
    ensures { GivesSome result rest.new.now (spec.read_return format rest.old.now) }
{
    let day = read_day(format, rest)?;
    let target = read_number(format, rest)?;
    Some(Post::Return { day, target })
}

#[tactic(auto, unfolding(crate::specs::Reading::read_plan))]
fn read_plan(format: Format, rest: &mut &[u8]) -> Option<Post>
    ensures { GivesSome result rest.new.now (spec.read_plan format rest.old.now) }
{
    let day = read_day(format, rest)?;
    let kind = read_plan_kind(rest)?;
    let rate = read_number(format, rest)?;
    let end = read_day(format, rest)?;
    let after = read_number(format, rest)?;
    Some(Post::Plan {
        day,
        kind,
        rate,
        end,
        after,
    })
}

#[tactic(auto, unfolding(crate::specs::Reading::read_notice))]
fn read_notice(format: Format, rest: &mut &[u8]) -> Option<Post>
    ensures { GivesSome result rest.new.now (spec.read_notice format rest.old.now) }
{
    let day = read_day(format, rest)?;
    let category = read_category(rest)?;
    let rate = read_number(format, rest)?;
    let effective = read_day(format, rest)?;
    Some(Post::Notice {
        day,
        category,
        rate,
        effective,
    })
}

#[tactic(auto, unfolding(crate::specs::Reading::read_lower))]
fn read_lower(format: Format, rest: &mut &[u8]) -> Option<Post>
    ensures { GivesSome result rest.new.now (spec.read_lower format rest.old.now) }
{
    let day = read_day(format, rest)?;
    let category = read_category(rest)?;
    let rate = read_number(format, rest)?;
    Some(Post::Lower {
        day,
        category,
        rate,
    })
}

#[tactic(auto, unfolding(crate::specs::Reading::read_penalty))]
fn read_penalty(rest: &mut &[u8]) -> Option<Post>
    ensures { GivesSome result rest.new.now (spec.read_penalty rest.old.now) }
{
    Some(Post::Penalty)
}

#[tactic(auto, unfolding(crate::specs::Reading::read_review))]
fn read_review(format: Format, rest: &mut &[u8]) -> Option<Post>
    ensures { GivesSome result rest.new.now (spec.read_review format rest.old.now) }
{
    let day = read_day(format, rest)?;
    let finding = read_finding(rest)?;
    Some(Post::Review { day, finding })
}

#[tactic(auto, unfolding(crate::specs::Reading::read_dispute))]
fn read_dispute(format: Format, rest: &mut &[u8]) -> Option<Post>
    ensures { GivesSome result rest.new.now (spec.read_dispute format rest.old.now) }
{
    let day = read_day(format, rest)?;
    let target = read_number(format, rest)?;
    let cents = read_number(format, rest)?;
    Some(Post::Dispute { day, target, cents })
}

#[tactic(auto, unfolding(crate::specs::Reading::read_ack))]
fn read_ack(format: Format, rest: &mut &[u8]) -> Option<Post>
    ensures { GivesSome result rest.new.now (spec.read_ack format rest.old.now) }
{
    let day = read_day(format, rest)?;
    let target = read_number(format, rest)?;
    Some(Post::Ack { day, target })
}

#[tactic(auto, unfolding(crate::specs::Reading::read_resolve))]
fn read_resolve(format: Format, rest: &mut &[u8]) -> Option<Post>
    ensures { GivesSome result rest.new.now (spec.read_resolve format rest.old.now) }
{
    let day = read_day(format, rest)?;
    let target = read_number(format, rest)?;
    let cents = read_number(format, rest)?;
    Some(Post::Resolve { day, target, cents })
}

#[tactic(auto, unfolding(crate::specs::Reading::read_ask_refund))]
fn read_ask_refund(format: Format, rest: &mut &[u8]) -> Option<Post>
    ensures { GivesSome result rest.new.now (spec.read_ask_refund format rest.old.now) }
{
    let day = read_day(format, rest)?;
    Some(Post::AskRefund { day })
}

#[tactic(auto, unfolding(crate::specs::Reading::read_refund))]
fn read_refund(format: Format, rest: &mut &[u8]) -> Option<Post>
    ensures { GivesSome result rest.new.now (spec.read_refund format rest.old.now) }
{
    let cents = read_number(format, rest)?;
    Some(Post::Refund { cents })
}

#[tactic(auto, unfolding(crate::specs::Reading::read_amend))]
fn read_amend(format: Format, rest: &mut &[u8]) -> Option<Post>
    ensures { GivesSome result rest.new.now (spec.read_amend format rest.old.now) }
{
    let target = read_number(format, rest)?;
    let day = read_day(format, rest)?;
    let cents = read_number(format, rest)?;
    Some(Post::Amend { target, day, cents })
}

#[tactic(auto, unfolding(crate::specs::Reading::read_bill))]
fn read_bill(format: Format, rest: &mut &[u8]) -> Option<Post>
    ensures { GivesSome result rest.new.now (spec.read_bill format rest.old.now) }
{
    let cycle = read_number(format, rest)?;
    Some(Post::Bill { cycle })
}

#[tactic(auto, unfolding(crate::specs::Reading::read_roll))]
fn read_roll(format: Format, rest: &mut &[u8]) -> Option<Shared>
    ensures { GivesSome result rest.new.now (spec.read_roll format rest.old.now) }
{
    let day = read_day(format, rest)?;
    Some(Shared::Roll(day))
}

#[tactic(auto, unfolding(crate::specs::Reading::read_holiday))]
fn read_holiday(format: Format, rest: &mut &[u8]) -> Option<Shared>
    ensures { GivesSome result rest.new.now (spec.read_holiday format rest.old.now) }
{
    let day = read_day(format, rest)?;
    Some(Shared::Holiday(day))
}

#[tactic(auto, unfolding(crate::specs::Reading::read_fee_row))]
fn read_fee_row(format: Format, rest: &mut &[u8]) -> Option<Shared>
    ensures { GivesSome result rest.new.now (spec.read_fee_row format rest.old.now) }
{
    let day = read_day(format, rest)?;
    let first = read_number(format, rest)?;
    let repeat = read_number(format, rest)?;
    Some(Shared::FeeRow { day, first, repeat })
}

#[tactic(auto, unfolding(crate::specs::Reading::read_index))]
fn read_index(format: Format, rest: &mut &[u8]) -> Option<Shared>
    ensures { GivesSome result rest.new.now (spec.read_index format rest.old.now) }
{
    let day = read_day(format, rest)?;
    let rate = read_number(format, rest)?;
    Some(Shared::Index { day, rate })
}
