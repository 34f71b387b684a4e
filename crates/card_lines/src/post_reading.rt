// The fields of each kind of post, behind the account and the key.
ghost use Rattle.card_lines.specs.Fields.{fields_left, Reads, ReadsAll};
ghost use Rattle.card_lines.specs.Posts.{post_of, terms_of, last_terms_of, opening_of, open_of, open_variable_of, charge_of, credit_of, payment_of, return_of, plan_of, notice_of, lower_of, penalty_of, review_of, dispute_of, ack_of, resolve_of, ask_refund_of, refund_of, amend_of, bill_of};

use crate::fields::{
    at_end, category_field, channel_field, day_field, finding_field, number_field, place_field,
    plan_kind_field,
};
use crate::line::BadField;
use crate::word::PostKind;
use card_events::{Day, Num, Post, Terms};

/// The post of this kind that the rest of a line gives.
#[tactic(auto, unfolding(crate::specs::Posts::post_of))]
pub fn read_post(kind: PostKind, text: &[u8]) -> Result<Post, BadField>
    ensures { ReadsAll result (post_of kind (fields_left text.now)) }
{
    match kind {
        PostKind::Open => read_open(text),
        PostKind::OpenVariable => read_open_variable(text),
        PostKind::Charge => read_charge(text),
        PostKind::Credit => read_credit(text),
        PostKind::Payment => read_payment(text),
        PostKind::Return => read_return(text),
        PostKind::Plan => read_plan(text),
        PostKind::Notice => read_notice(text),
        PostKind::Lower => read_lower(text),
        PostKind::Penalty => read_penalty(text),
        PostKind::Review => read_review(text),
        PostKind::Dispute => read_dispute(text),
        PostKind::Ack => read_ack(text),
        PostKind::Resolve => read_resolve(text),
        PostKind::AskRefund => read_ask_refund(text),
        PostKind::Refund => read_refund(text),
        PostKind::Amend => read_amend(text),
        PostKind::Bill => read_bill(text),
    }
}

// The penalty rate, the floor and the percentage.
#[tactic(auto, unfolding(crate::specs::Posts::last_terms_of))]
fn read_last_terms(rest: &mut &[u8]) -> Result<(Num, Num, Num), BadField>
    ensures { Reads result (fields_left rest.new.now) (last_terms_of (fields_left rest.old.now)) }
{
    let mut left = *rest;
    let penalty = number_field(9, &mut left)?;
    let floor = number_field(10, &mut left)?;
    let pct = number_field(11, &mut left)?;
    *rest = left;
    Ok((penalty, floor, pct))
}

#[tactic(auto, unfolding(crate::specs::Posts::terms_of))]
fn read_terms(rest: &mut &[u8]) -> Result<Terms, BadField>
    ensures { Reads result (fields_left rest.new.now) (terms_of (fields_left rest.old.now)) }
{
    let mut left = *rest;
    let close = number_field(5, &mut left)?;
    let purchase = number_field(6, &mut left)?;
    let cash = number_field(7, &mut left)?;
    let transfer = number_field(8, &mut left)?;
    let (penalty, floor, pct) = read_last_terms(&mut left)?;
    let terms = Terms {
        close,
        purchase,
        cash,
        transfer,
        penalty,
        floor,
        pct,
    };
    *rest = left;
    Ok(terms)
}

// The day and the terms of an opening.
#[tactic(auto, unfolding(crate::specs::Posts::opening_of))]
fn read_opening(text: &[u8]) -> Result<(Day, Terms), BadField>
    ensures { ReadsAll result (opening_of (fields_left text.now)) }
{
    let mut rest = text;
    let day = day_field(4, &mut rest)?;
    let terms = read_terms(&mut rest)?;
    at_end(12, rest)?;
    Ok((day, terms))
}

#[tactic(auto, unfolding(crate::specs::Posts::open_of))]
fn read_open(text: &[u8]) -> Result<Post, BadField>
    ensures { ReadsAll result (open_of (fields_left text.now)) }
{
    let (day, terms) = read_opening(text)?;
    Ok(Post::Open { day, terms })
}

#[tactic(auto, unfolding(crate::specs::Posts::open_variable_of))]
fn read_open_variable(text: &[u8]) -> Result<Post, BadField>
    ensures { ReadsAll result (open_variable_of (fields_left text.now)) }
{
    let (day, terms) = read_opening(text)?;
    Ok(Post::OpenVariable { day, terms })
}

#[tactic(auto, unfolding(crate::specs::Posts::charge_of))]
fn read_charge(text: &[u8]) -> Result<Post, BadField>
    ensures { ReadsAll result (charge_of (fields_left text.now)) }
{
    let mut rest = text;
    let day = day_field(4, &mut rest)?;
    let place = place_field(5, &mut rest)?;
    let cents = number_field(6, &mut rest)?;
    at_end(7, rest)?;
    Ok(Post::Charge { day, place, cents })
}

#[tactic(auto, unfolding(crate::specs::Posts::credit_of))]
fn read_credit(text: &[u8]) -> Result<Post, BadField>
    ensures { ReadsAll result (credit_of (fields_left text.now)) }
{
    let mut rest = text;
    let day = day_field(4, &mut rest)?;
    let place = place_field(5, &mut rest)?;
    let cents = number_field(6, &mut rest)?;
    at_end(7, rest)?;
    Ok(Post::Credit { day, place, cents })
}

#[tactic(auto, unfolding(crate::specs::Posts::payment_of))]
fn read_payment(text: &[u8]) -> Result<Post, BadField>
    ensures { ReadsAll result (payment_of (fields_left text.now)) }
{
    let mut rest = text;
    let day = day_field(4, &mut rest)?;
    let minute = number_field(5, &mut rest)?;
    let channel = channel_field(6, &mut rest)?;
    let cents = number_field(7, &mut rest)?;
    let post = Post::Payment {
        day,
        minute,
        channel,
        cents,
    };
    at_end(8, rest)?;
    Ok(post)
}

#[tactic(auto, unfolding(crate::specs::Posts::return_of))]
fn read_return(text: &[u8]) -> Result<Post, BadField>
    ensures { ReadsAll result (return_of (fields_left text.now)) }
{
    let mut rest = text;
    let day = day_field(4, &mut rest)?;
    let target = number_field(5, &mut rest)?;
    at_end(6, rest)?;
    Ok(Post::Return { day, target })
}

#[tactic(auto, unfolding(crate::specs::Posts::plan_of))]
fn read_plan(text: &[u8]) -> Result<Post, BadField>
    ensures { ReadsAll result (plan_of (fields_left text.now)) }
{
    let mut rest = text;
    let day = day_field(4, &mut rest)?;
    let kind = plan_kind_field(5, &mut rest)?;
    let rate = number_field(6, &mut rest)?;
    let end = day_field(7, &mut rest)?;
    let after = number_field(8, &mut rest)?;
    let post = Post::Plan {
        day,
        kind,
        rate,
        end,
        after,
    };
    at_end(9, rest)?;
    Ok(post)
}

#[tactic(auto, unfolding(crate::specs::Posts::notice_of))]
fn read_notice(text: &[u8]) -> Result<Post, BadField>
    ensures { ReadsAll result (notice_of (fields_left text.now)) }
{
    let mut rest = text;
    let day = day_field(4, &mut rest)?;
    let category = category_field(5, &mut rest)?;
    let rate = number_field(6, &mut rest)?;
    let effective = day_field(7, &mut rest)?;
    let post = Post::Notice {
        day,
        category,
        rate,
        effective,
    };
    at_end(8, rest)?;
    Ok(post)
}

#[tactic(auto, unfolding(crate::specs::Posts::lower_of))]
fn read_lower(text: &[u8]) -> Result<Post, BadField>
    ensures { ReadsAll result (lower_of (fields_left text.now)) }
{
    let mut rest = text;
    let day = day_field(4, &mut rest)?;
    let category = category_field(5, &mut rest)?;
    let rate = number_field(6, &mut rest)?;
    at_end(7, rest)?;
    Ok(Post::Lower {
        day,
        category,
        rate,
    })
}

#[tactic(auto, unfolding(crate::specs::Posts::review_of))]
fn read_review(text: &[u8]) -> Result<Post, BadField>
    ensures { ReadsAll result (review_of (fields_left text.now)) }
{
    let mut rest = text;
    let day = day_field(4, &mut rest)?;
    let finding = finding_field(5, &mut rest)?;
    at_end(6, rest)?;
    Ok(Post::Review { day, finding })
}

#[tactic(auto, unfolding(crate::specs::Posts::dispute_of))]
fn read_dispute(text: &[u8]) -> Result<Post, BadField>
    ensures { ReadsAll result (dispute_of (fields_left text.now)) }
{
    let mut rest = text;
    let day = day_field(4, &mut rest)?;
    let target = number_field(5, &mut rest)?;
    let cents = number_field(6, &mut rest)?;
    at_end(7, rest)?;
    Ok(Post::Dispute { day, target, cents })
}

#[tactic(auto, unfolding(crate::specs::Posts::ack_of))]
fn read_ack(text: &[u8]) -> Result<Post, BadField>
    ensures { ReadsAll result (ack_of (fields_left text.now)) }
{
    let mut rest = text;
    let day = day_field(4, &mut rest)?;
    let target = number_field(5, &mut rest)?;
    at_end(6, rest)?;
    Ok(Post::Ack { day, target })
}

#[tactic(auto, unfolding(crate::specs::Posts::resolve_of))]
fn read_resolve(text: &[u8]) -> Result<Post, BadField>
    ensures { ReadsAll result (resolve_of (fields_left text.now)) }
{
    let mut rest = text;
    let day = day_field(4, &mut rest)?;
    let target = number_field(5, &mut rest)?;
    let cents = number_field(6, &mut rest)?;
    at_end(7, rest)?;
    Ok(Post::Resolve { day, target, cents })
}

#[tactic(auto, unfolding(crate::specs::Posts::ask_refund_of))]
fn read_ask_refund(text: &[u8]) -> Result<Post, BadField>
    ensures { ReadsAll result (ask_refund_of (fields_left text.now)) }
{
    let mut rest = text;
    let day = day_field(4, &mut rest)?;
    at_end(5, rest)?;
    Ok(Post::AskRefund { day })
}

#[tactic(auto, unfolding(crate::specs::Posts::refund_of))]
fn read_refund(text: &[u8]) -> Result<Post, BadField>
    ensures { ReadsAll result (refund_of (fields_left text.now)) }
{
    let mut rest = text;
    let cents = number_field(4, &mut rest)?;
    at_end(5, rest)?;
    Ok(Post::Refund { cents })
}

#[tactic(auto, unfolding(crate::specs::Posts::amend_of))]
fn read_amend(text: &[u8]) -> Result<Post, BadField>
    ensures { ReadsAll result (amend_of (fields_left text.now)) }
{
    let mut rest = text;
    let target = number_field(4, &mut rest)?;
    let day = day_field(5, &mut rest)?;
    let cents = number_field(6, &mut rest)?;
    at_end(7, rest)?;
    Ok(Post::Amend { target, day, cents })
}

#[tactic(auto, unfolding(crate::specs::Posts::bill_of))]
fn read_bill(text: &[u8]) -> Result<Post, BadField>
    ensures { ReadsAll result (bill_of (fields_left text.now)) }
{
    let mut rest = text;
    let cycle = number_field(4, &mut rest)?;
    at_end(5, rest)?;
    Ok(Post::Bill { cycle })
}

#[tactic(auto, unfolding(crate::specs::Posts::penalty_of))]
fn read_penalty(text: &[u8]) -> Result<Post, BadField>
    ensures { ReadsAll result (penalty_of (fields_left text.now)) }
{
    at_end(4, text)?;
    Ok(Post::Penalty)
}
