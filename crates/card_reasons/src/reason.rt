// Why posts aren't accepted: the first reason in order.
ghost use Rattle.std.specs.Prelude.{◌≡◌, ◌≤◌, true, false, List, nat_lt, ◌||◌};
ghost use Rattle.card_events.specs.Business.{last_minute};
ghost use Rattle.card_events.specs.Money.{rate_limit};
ghost use Rattle.card_events.specs.Range.{last_request_day};
ghost use Rattle.card_events.specs.declared.anchor.Channel.{Channel};
ghost use Rattle.card_disputes.specs.Histories.{AreInCalendar};
ghost use Rattle.card_events.specs.Dated.{is_dated_post};
ghost use Rattle.card_events.specs.History.{anchor_of, is_open};
ghost use Rattle.card_events.specs.SharedRows.{SharedRows};
ghost use Rattle.card_events.specs.declared.post.Category.{Category};
ghost use Rattle.card_events.specs.declared.post.Finding.{Finding};
ghost use Rattle.card_events.specs.declared.post.PlanKind.{PlanKind};
ghost use Rattle.card_events.specs.declared.post.Post.TheVariants as post;
ghost use Rattle.card_model.specs.Cycles.{IssuedRow};
ghost use Rattle.card_model.specs.Refusals.{Present, holds_of, reason_against};
ghost use Rattle.card_model.specs.Refusals as spec;
ghost use Rattle.card_reasons.specs.Reasons.{HasCycles, IsReason, is_entry, is_of_claims, is_of_rates, judged_of, reads_book};

use crate::amend::amended_target;
use crate::bill::bill_reason;
use crate::day::{in_order, is_no_amount};
use crate::dispute::{disputed_charge, is_above_claim_of, open_dispute};
use crate::notice::noticed;
use crate::place::{charged_place, credited_place};
use crate::plan::plan_end;
use crate::returned::returned_target;
use crate::review::review_day;
use card_events::{AMOUNT_LIMIT, Anchor, Category, Day, Num, Place, Post, RATE_LIMIT, Refusal};
use card_posts::Posts;

// the last minute of a day, 23:59
const LAST_MINUTE: u64 = 1_439;

// Why a charge isn't accepted today.
fn charge_reason(
    posts: &Posts,
    opened: Day,
    today: Day,
    day: Day,
    place: &Place,
    cents: Num,
) -> Option<Refusal>
    requires { opened ≡ (anchor_of posts.now.history).opened }
    ensures { (shared : SharedRows) (issued : List IssuedRow) → result ≡ reason_against (judged_of today shared issued posts.now.history) (post.Charge day place.now cents) }
{
    let out = is_no_amount(cents);
    let added = charged_place(posts, day, place);
    in_order(posts, out, today, opened, day, added)
}

// Why a credit isn't accepted today.
fn credit_reason(
    posts: &Posts,
    opened: Day,
    today: Day,
    day: Day,
    place: &Place,
    cents: Num,
) -> Option<Refusal>
    requires { opened ≡ (anchor_of posts.now.history).opened }
    ensures { (shared : SharedRows) (issued : List IssuedRow) → result ≡ reason_against (judged_of today shared issued posts.now.history) (post.Credit day place.now cents) }
{
    let out = is_no_amount(cents);
    let added = credited_place(posts, place);
    in_order(posts, out, today, opened, day, added)
}

// A payment of no amount, or at no minute of a day.
fn is_no_payment(minute: Num, cents: Num) -> bool
    ensures { result ≡ (spec.is_no_amount cents || nat_lt last_minute minute) }
{
    is_no_amount(cents) || minute.get() > LAST_MINUTE
}

// Why a payment isn't accepted today.
fn payment_reason(
    posts: &Posts,
    opened: Day,
    today: Day,
    day: Day,
    minute: Num,
    cents: Num,
) -> Option<Refusal>
    requires { opened ≡ (anchor_of posts.now.history).opened }
    ensures { (shared : SharedRows) (issued : List IssuedRow) (by : Channel) → result ≡ reason_against (judged_of today shared issued posts.now.history) (post.Payment day minute by cents) }
{
    let out = is_no_payment(minute, cents);
    in_order(posts, out, today, opened, day, None)
}

// Why a Return isn't accepted today.
fn return_reason(posts: &Posts, opened: Day, today: Day, day: Day, target: Num) -> Option<Refusal>
    requires { opened ≡ (anchor_of posts.now.history).opened }
    ensures { (shared : SharedRows) (issued : List IssuedRow) → result ≡ reason_against (judged_of today shared issued posts.now.history) (post.Return day target) }
{
    let added = returned_target(posts, target);
    in_order(posts, false, today, opened, day, added)
}

fn is_no_correction(cents: Num) -> bool
    ensures { result ≡ nat_lt 1000000000 cents }
{
    cents.get() > AMOUNT_LIMIT
}

// Why an Amend isn't accepted today.
fn amend_reason(
    posts: &Posts,
    opened: Day,
    today: Day,
    target: Num,
    day: Day,
    cents: Num,
) -> Option<Refusal>
    requires { opened ≡ (anchor_of posts.now.history).opened }
    ensures { (shared : SharedRows) (issued : List IssuedRow) → result ≡ reason_against (judged_of today shared issued posts.now.history) (post.Amend target day cents) }
{
    let out = is_no_correction(cents);
    let added = amended_target(posts, target, day);
    in_order(posts, out, today, opened, day, added)
}

fn is_no_rate(rate: Num) -> bool
    ensures { result ≡ nat_lt rate_limit rate }
{
    rate.get() > RATE_LIMIT as u64
}

fn are_no_rates(rate: Num, after: Num) -> bool
    ensures { result ≡ (nat_lt rate_limit rate || nat_lt rate_limit after) }
{
    is_no_rate(rate) || is_no_rate(after)
}

// Why a Plan isn't accepted today.
fn plan_reason(
    posts: &Posts,
    anchor: &Anchor,
    today: Day,
    day: Day,
    rate: Num,
    end: Day,
    after: Num,
) -> Option<Refusal>
    requires cycles { HasCycles anchor.now posts.now.history }
    requires dated { day ≤ last_request_day }
    requires ends { end ≤ last_request_day }
    ensures { (shared : SharedRows) (issued : List IssuedRow) (kind : PlanKind) → result ≡ reason_against (judged_of today shared issued posts.now.history) (post.Plan day kind rate end after) }
{
    let out = are_no_rates(rate, after);
    let added = plan_end(posts, anchor, day, end);
    in_order(posts, out, today, anchor.opened, day, added)
}

// Why a Notice isn't accepted today.
fn notice_reason(
    posts: &Posts,
    anchor: &Anchor,
    today: Day,
    day: Day,
    category: Category,
    rate: Num,
    effective: Day,
) -> Option<Refusal>
    requires anchor { anchor.now ≡ anchor_of posts.now.history }
    requires opened { anchor.now.opened ≤ last_request_day }
    requires dated { day ≤ last_request_day }
    ensures { (shared : SharedRows) (issued : List IssuedRow) → result ≡ reason_against (judged_of today shared issued posts.now.history) (post.Notice day category rate effective) }
{
    let out = is_no_rate(rate);
    let added = noticed(posts, anchor, day, category, effective);
    in_order(posts, out, today, anchor.opened, day, added)
}

// Why a Lower isn't accepted today.
fn lower_reason(posts: &Posts, opened: Day, today: Day, day: Day, rate: Num) -> Option<Refusal>
    requires { opened ≡ (anchor_of posts.now.history).opened }
    ensures { (shared : SharedRows) (issued : List IssuedRow) (category : Category) → result ≡ reason_against (judged_of today shared issued posts.now.history) (post.Lower day category rate) }
{
    let out = is_no_rate(rate);
    in_order(posts, out, today, opened, day, None)
}

// Why a Review isn't accepted today.
fn review_reason(posts: &Posts, opened: Day, today: Day, day: Day) -> Option<Refusal>
    requires { opened ≡ (anchor_of posts.now.history).opened }
    ensures { (found : Finding) → IsReason today posts.now (post.Review day found) result }
{
    let added = review_day(posts, day);
    in_order(posts, false, today, opened, day, added)
}

// Why a Dispute isn't accepted today.
fn dispute_reason(
    posts: &Posts,
    anchor: &Anchor,
    today: Day,
    day: Day,
    charge: Num,
    cents: Num,
) -> Option<Refusal>
    requires posts { AreInCalendar anchor.now posts.now.history }
    ensures { IsReason today posts.now (post.Dispute day charge cents) result }
{
    let out = is_no_amount(cents);
    let added = disputed_charge(posts, anchor, day, charge);
    in_order(posts, out, today, anchor.opened, day, added)
}

// Why an Ack isn't accepted today.
fn ack_reason(posts: &Posts, opened: Day, today: Day, day: Day, dispute: Num) -> Option<Refusal>
    requires { opened ≡ (anchor_of posts.now.history).opened }
    ensures { (shared : SharedRows) (issued : List IssuedRow) → result ≡ reason_against (judged_of today shared issued posts.now.history) (post.Ack day dispute) }
{
    let added = open_dispute(posts, dispute);
    in_order(posts, false, today, opened, day, added)
}

// An amount that is out of its range, or above what the Dispute claims.
fn is_no_finding(posts: &Posts, dispute: Num, cents: Num) -> bool
    ensures { (now : Present) → now.lists.posts ≡ posts.now.history → result ≡ (nat_lt 1000000000 cents || holds_of (spec.is_above_claim cents) (spec.named now dispute)) }
{
    is_no_correction(cents) || is_above_claim_of(posts, dispute, cents)
}

// Why a Resolve isn't accepted today.
fn resolve_reason(
    posts: &Posts,
    opened: Day,
    today: Day,
    day: Day,
    dispute: Num,
    cents: Num,
) -> Option<Refusal>
    requires { opened ≡ (anchor_of posts.now.history).opened }
    ensures { (shared : SharedRows) (issued : List IssuedRow) → result ≡ reason_against (judged_of today shared issued posts.now.history) (post.Resolve day dispute cents) }
{
    let out = is_no_finding(posts, dispute, cents);
    let added = open_dispute(posts, dispute);
    in_order(posts, out, today, opened, day, added)
}

// Why a request for a refund isn't accepted today.
fn ask_reason(posts: &Posts, opened: Day, today: Day, day: Day) -> Option<Refusal>
    requires { opened ≡ (anchor_of posts.now.history).opened }
    ensures { (shared : SharedRows) (issued : List IssuedRow) → result ≡ reason_against (judged_of today shared issued posts.now.history) (post.AskRefund day) }
{
    in_order(posts, false, today, opened, day, None)
}

fn entry_reason(posts: &Posts, anchor: &Anchor, today: Day, post: &Post) -> Option<Refusal>
    requires kind { is_entry post.now ≡ true }
    requires anchor { anchor.now ≡ anchor_of posts.now.history }
    ensures { (shared : SharedRows) (issued : List IssuedRow) → result ≡ reason_against (judged_of today shared issued posts.now.history) post.now }
{
    let opened = anchor.opened;
    match post {
        Post::Charge { day, place, cents } => {
            charge_reason(posts, opened, today, *day, place, *cents)
        }
        Post::Credit { day, place, cents } => {
            credit_reason(posts, opened, today, *day, place, *cents)
        }
        Post::Payment {
            day,
            minute,
            cents,
            ..
        } => payment_reason(posts, opened, today, *day, *minute, *cents),
        Post::Return { day, target } => return_reason(posts, opened, today, *day, *target),
        Post::Amend { target, day, cents } => {
            amend_reason(posts, opened, today, *target, *day, *cents)
        }
        _ => unreachable!(),
    }
}

fn rate_reason(posts: &Posts, anchor: &Anchor, today: Day, post: &Post) -> Option<Refusal>
    requires kind { is_of_rates post.now ≡ true }
    requires dated { is_dated_post post.now ≡ true }
    requires cycles { HasCycles anchor.now posts.now.history }
    ensures { IsReason today posts.now post.now result }
{
    match post {
        Post::Plan {
            day,
            rate,
            end,
            after,
            ..
        } => plan_reason(posts, anchor, today, *day, *rate, *end, *after),
        Post::Notice {
            day,
            category,
            rate,
            effective,
        } => notice_reason(posts, anchor, today, *day, *category, *rate, *effective),
        Post::Lower { day, rate, .. } => lower_reason(posts, anchor.opened, today, *day, *rate),
        Post::Review { day, .. } => review_reason(posts, anchor.opened, today, *day),
        _ => unreachable!(),
    }
}

fn claim_reason(posts: &Posts, anchor: &Anchor, today: Day, post: &Post) -> Option<Refusal>
    requires kind { is_of_claims post.now ≡ true }
    requires posts { AreInCalendar anchor.now posts.now.history }
    ensures { IsReason today posts.now post.now result }
{
    match post {
        Post::Dispute { day, target, cents } => {
            dispute_reason(posts, anchor, today, *day, *target, *cents)
        }
        Post::Ack { day, target } => ack_reason(posts, anchor.opened, today, *day, *target),
        Post::Resolve { day, target, cents } => {
            resolve_reason(posts, anchor.opened, today, *day, *target, *cents)
        }
        Post::AskRefund { day } => ask_reason(posts, anchor.opened, today, *day),
        _ => unreachable!(),
    }
}

/// Why a post under a new key isn't accepted today, on an account with these posts and this anchor: the first reason, and None
/// where it is accepted. Its days are days of requests. It reads the posts alone: an opening, a Penalty or a Refund is
/// judged elsewhere.
pub fn post_reason(posts: &Posts, anchor: &Anchor, today: Day, post: &Post) -> Option<Refusal>
    requires not_open { is_open post.now ≡ false }
    requires reads { reads_book post.now ≡ false }
    requires dated { is_dated_post post.now ≡ true }
    requires posts { AreInCalendar anchor.now posts.now.history }
    requires opened { anchor.now.opened ≤ last_request_day }
    ensures { IsReason today posts.now post.now result }
{
    match post {
        Post::Charge { .. } | Post::Credit { .. } | Post::Payment { .. } => {
            entry_reason(posts, anchor, today, post)
        }
        Post::Return { .. } | Post::Amend { .. } => entry_reason(posts, anchor, today, post),
        Post::Plan { .. } | Post::Notice { .. } | Post::Lower { .. } | Post::Review { .. } => {
            rate_reason(posts, anchor, today, post)
        }
        Post::Dispute { .. } | Post::Ack { .. } | Post::Resolve { .. } | Post::AskRefund { .. } => {
            claim_reason(posts, anchor, today, post)
        }
        Post::Bill { cycle } => bill_reason(posts, anchor, today, *cycle),
        _ => unreachable!(),
    }
}
