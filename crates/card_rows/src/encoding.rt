// Writing a kept row, in the second format.
ghost use Rattle.std.specs.Prelude.{◌≡◌, ◌++◌, ◌&&◌, true, OnOk};
ghost use Rattle.card_events.specs.Dated.{is_request_day, is_dated, is_dated_post, is_dated_shared};
ghost use Rattle.card_rows.specs.Held.{is_day, is_number, is_place, are_terms, is_post, is_shared, is_request};
ghost use Rattle.card_rows.specs.Spelling.{spelling};
ghost use Rattle.card_rows.specs.Spelling as spec;
ghost use Rattle.card_rows.specs.declared.format.Format.TheVariants.{Second};

use crate::writing::{
    put_category, put_channel, put_day, put_finding, put_name, put_number, put_place,
    put_plan_kind, put_terms,
};
use card_events::{
    Category, Channel, Day, Finding, NoMemory, Num, Place, PlanKind, Post, Request, Shared, Terms,
};

/// Writes the request behind what the row has.
#[tactic(auto, using(crate::proofs::ReadingLemmas::pieces), unfolding(crate::specs::Spelling::spelling, crate::specs::Held::is_request, card_events::specs::Dated::is_dated))]
pub fn put_request(row: &mut Vec<u8>, request: &Request) -> Result<(), NoMemory>
    requires dated { is_dated request.now ≡ true }
    ensures written { OnOk result (row.new.items ≡ row.old.items ++ spelling Second request.now) }
    ensures held { OnOk result (is_request request.now ≡ true) }
{
    row.push(2)?;
    match request {
        Request::Shared(shared) => {
            row.push(shared_code(shared))?;
            put_shared(row, shared)
        }
        Request::Post { account, key, post } => {
            row.push(post_code(post))?;
            put_name(row, account)?;
            put_name(row, key)?;
            put_post(row, post)
        }
    }
}

fn shared_code(shared: &Shared) -> u8
    ensures { result ≡ spec.shared_code shared.now }
{
    match shared {
        Shared::Roll(_) => 1,
        Shared::Holiday(_) => 2,
        Shared::FeeRow { .. } => 3,
        Shared::Index { .. } => 21,
    }
}

#[tactic(auto, using(crate::proofs::ReadingLemmas::pieces), unfolding(crate::specs::Spelling::shared_bytes, crate::specs::Held::is_shared, card_events::specs::Dated::is_dated_shared))]
fn put_shared(row: &mut Vec<u8>, shared: &Shared) -> Result<(), NoMemory>
    requires dated { is_dated_shared shared.now ≡ true }
    ensures written { OnOk result (row.new.items ≡ row.old.items ++ spec.shared_bytes Second shared.now) }
    ensures held { OnOk result (is_shared shared.now ≡ true) }
{
    match shared {
        Shared::Roll(day) | Shared::Holiday(day) => put_day(row, *day),
        Shared::FeeRow { day, first, repeat } => {
            put_day(row, *day)?;
            put_number(row, *first)?;
            put_number(row, *repeat)
        }
        Shared::Index { day, rate } => {
            put_day(row, *day)?;
            put_number(row, *rate)
        }
    }
}

fn post_code(post: &Post) -> u8
    ensures { result ≡ spec.post_code post.now }
{
    match post {
        Post::Open { .. } => 4,
        Post::Charge { .. } => 5,
        Post::Credit { .. } => 6,
        Post::Payment { .. } => 7,
        Post::Return { .. } => 8,
        Post::Plan { .. } => 9,
        Post::Notice { .. } => 10,
        Post::Lower { .. } => 11,
        Post::Penalty => 12,
        Post::Review { .. } => 13,
        Post::Dispute { .. } => 14,
        Post::Ack { .. } => 15,
        Post::Resolve { .. } => 16,
        Post::AskRefund { .. } => 17,
        Post::Refund { .. } => 18,
        Post::Amend { .. } => 19,
        Post::Bill { .. } => 20,
        Post::OpenVariable { .. } => 22,
    }
}

#[tactic(auto, unfolding(crate::specs::Spelling::post_bytes, crate::specs::Held::is_post, card_events::specs::Dated::is_dated_post))]
fn put_post(row: &mut Vec<u8>, post: &Post) -> Result<(), NoMemory>
    requires dated { is_dated_post post.now ≡ true }
    ensures written { OnOk result (row.new.items ≡ row.old.items ++ spec.post_bytes Second post.now) }
    ensures held { OnOk result (is_post post.now ≡ true) }
{
    match post {
        Post::Open { day, terms } | Post::OpenVariable { day, terms } => {
            put_open(row, *day, terms)
        }
        Post::Charge { day, place, cents } | Post::Credit { day, place, cents } => {
            put_placed(row, *day, *place, *cents)
        }
        Post::Payment {
            day,
            minute,
            channel,
            cents,
        } => { put_payment(row, *day, *minute, *channel, *cents) }
        Post::Return { day, target } | Post::Ack { day, target } => {
            put_target(row, *day, *target)
        }
        Post::Plan {
            day,
            kind,
            rate,
            end,
            after,
        } => { put_plan(row, *day, *kind, *rate, *end, *after) }
        Post::Notice {
            day,
            category,
            rate,
            effective,
        } => { put_notice(row, *day, *category, *rate, *effective) }
        Post::Lower {
            day,
            category,
            rate,
        } => put_lower(row, *day, *category, *rate),
        Post::Penalty => Ok(()),
        Post::Review { day, finding } => put_review(row, *day, *finding),
        Post::Dispute { day, target, cents } | Post::Resolve { day, target, cents } => {
            put_claim(row, *day, *target, *cents)
        }
        Post::AskRefund { day } => put_day(row, *day),
        Post::Refund { cents: number } | Post::Bill { cycle: number } => put_number(row, *number),
        Post::Amend { target, day, cents } => put_amendment(row, *target, *day, *cents),
    }
}

// The fields of an opening.
#[tactic(auto, using(crate::proofs::ReadingLemmas::pieces))]
fn put_open(row: &mut Vec<u8>, day: Day, terms: &Terms) -> Result<(), NoMemory>
    requires day { is_request_day day ≡ true }
    ensures written { OnOk result (row.new.items ≡ row.old.items ++ (spec.day_bytes Second day ++ spec.terms_bytes Second terms.now)) }
    ensures held { OnOk result ((is_day day && are_terms terms.now) ≡ true) }
{
    put_day(row, day)?;
    put_terms(row, terms)
}

// The fields of a charge or a credit.
#[tactic(auto, using(crate::proofs::ReadingLemmas::pieces))]
fn put_placed(row: &mut Vec<u8>, day: Day, place: Place, cents: Num) -> Result<(), NoMemory>
    requires day { is_request_day day ≡ true }
    ensures written { OnOk result (row.new.items ≡ row.old.items ++ (spec.day_bytes Second day ++ spec.place_bytes Second place ++ spec.number_bytes Second cents)) }
    ensures held { OnOk result ((is_day day && (is_place place && is_number cents)) ≡ true) }
{
    put_day(row, day)?;
    put_place(row, place)?;
    put_number(row, cents)
}

// The fields of a payment.
#[tactic(auto, using(crate::proofs::ReadingLemmas::pieces))]
fn put_payment(
    row: &mut Vec<u8>,
    day: Day,
    minute: Num,
    channel: Channel,
    cents: Num,
) -> Result<(), NoMemory>
    requires day { is_request_day day ≡ true }
    ensures written { OnOk result (row.new.items ≡ row.old.items ++ (spec.day_bytes Second day ++ spec.number_bytes Second minute ++ spec.channel_bytes channel ++ spec.number_bytes Second cents)) }
    ensures held { OnOk result ((is_day day && (is_number minute && is_number cents)) ≡ true) }
{
    put_day(row, day)?;
    put_number(row, minute)?;
    put_channel(row, channel)?;
    put_number(row, cents)
}

// The fields of a return or an acknowledgement.
#[tactic(auto, using(crate::proofs::ReadingLemmas::pieces))]
fn put_target(row: &mut Vec<u8>, day: Day, target: Num) -> Result<(), NoMemory>
    requires day { is_request_day day ≡ true }
    ensures written { OnOk result (row.new.items ≡ row.old.items ++ (spec.day_bytes Second day ++ spec.number_bytes Second target)) }
    ensures held { OnOk result ((is_day day && is_number target) ≡ true) }
{
    put_day(row, day)?;
    put_number(row, target)
}

// The fields of a plan.
#[tactic(auto, using(crate::proofs::ReadingLemmas::pieces))]
fn put_plan(
    row: &mut Vec<u8>,
    day: Day,
    kind: PlanKind,
    rate: Num,
    end: Day,
    after: Num,
) -> Result<(), NoMemory>
    requires day { is_request_day day ≡ true }
    requires end { is_request_day end ≡ true }
    ensures written { OnOk result (row.new.items ≡ row.old.items ++ (spec.day_bytes Second day ++ spec.plan_kind_bytes kind ++ spec.number_bytes Second rate ++ spec.day_bytes Second end ++ spec.number_bytes Second after)) }
    ensures held { OnOk result ((is_day day && (is_number rate && (is_day end && is_number after))) ≡ true) }
{
    put_day(row, day)?;
    put_plan_kind(row, kind)?;
    put_number(row, rate)?;
    put_day(row, end)?;
    put_number(row, after)
}

// The fields of a notice.
#[tactic(auto, using(crate::proofs::ReadingLemmas::pieces))]
fn put_notice(
    row: &mut Vec<u8>,
    day: Day,
    category: Category,
    rate: Num,
    effective: Day,
) -> Result<(), NoMemory>
    requires day { is_request_day day ≡ true }
    requires effective { is_request_day effective ≡ true }
    ensures written { OnOk result (row.new.items ≡ row.old.items ++ (spec.day_bytes Second day ++ spec.category_bytes category ++ spec.number_bytes Second rate ++ spec.day_bytes Second effective)) }
    ensures held { OnOk result ((is_day day && (is_number rate && is_day effective)) ≡ true) }
{
    put_day(row, day)?;
    put_category(row, category)?;
    put_number(row, rate)?;
    put_day(row, effective)
}

// The fields of a lower rate.
#[tactic(auto, using(crate::proofs::ReadingLemmas::pieces))]
fn put_lower(row: &mut Vec<u8>, day: Day, category: Category, rate: Num) -> Result<(), NoMemory>
    requires day { is_request_day day ≡ true }
    ensures written { OnOk result (row.new.items ≡ row.old.items ++ (spec.day_bytes Second day ++ spec.category_bytes category ++ spec.number_bytes Second rate)) }
    ensures held { OnOk result ((is_day day && is_number rate) ≡ true) }
{
    put_day(row, day)?;
    put_category(row, category)?;
    put_number(row, rate)
}

// The fields of a review.
#[tactic(auto, using(crate::proofs::ReadingLemmas::pieces))]
fn put_review(row: &mut Vec<u8>, day: Day, finding: Finding) -> Result<(), NoMemory>
    requires day { is_request_day day ≡ true }
    ensures written { OnOk result (row.new.items ≡ row.old.items ++ (spec.day_bytes Second day ++ spec.finding_bytes finding)) }
    ensures held { OnOk result (is_day day ≡ true) }
{
    put_day(row, day)?;
    put_finding(row, finding)
}

// The fields of a dispute or its resolution.
#[tactic(auto, using(crate::proofs::ReadingLemmas::pieces))]
fn put_claim(row: &mut Vec<u8>, day: Day, target: Num, cents: Num) -> Result<(), NoMemory>
    requires day { is_request_day day ≡ true }
    ensures written { OnOk result (row.new.items ≡ row.old.items ++ (spec.day_bytes Second day ++ spec.number_bytes Second target ++ spec.number_bytes Second cents)) }
    ensures held { OnOk result ((is_day day && (is_number target && is_number cents)) ≡ true) }
{
    put_day(row, day)?;
    put_number(row, target)?;
    put_number(row, cents)
}

// The fields of an amendment.
#[tactic(auto, using(crate::proofs::ReadingLemmas::pieces))]
fn put_amendment(row: &mut Vec<u8>, target: Num, day: Day, cents: Num) -> Result<(), NoMemory>
    requires day { is_request_day day ≡ true }
    ensures written { OnOk result (row.new.items ≡ row.old.items ++ (spec.number_bytes Second target ++ spec.day_bytes Second day ++ spec.number_bytes Second cents)) }
    ensures held { OnOk result ((is_number target && (is_day day && is_number cents)) ≡ true) }
{
    put_number(row, target)?;
    put_day(row, day)?;
    put_number(row, cents)
}
