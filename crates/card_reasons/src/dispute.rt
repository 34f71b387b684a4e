// The charge that a Dispute names, and the Dispute that an Ack or a Resolve names (12 CFR 1026.13).
ghost use Rattle.std.specs.Prelude.{◌≡◌, ℕ, nat_lt, not};
ghost use Rattle.card_events.specs.History.{at_number};
ghost use Rattle.card_events.specs.declared.post.Post.TheVariants as post;
ghost use Rattle.card_model.specs.Refusals.{Present, fits_target, holds_of, where_true};
ghost use Rattle.card_model.specs.Refusals as spec;
ghost use Rattle.card_posts.specs.Posted.{StandsFor};
ghost use Rattle.card_disputes.specs.Histories.{AreInCalendar};
ghost use Rattle.card_reasons.specs.Reasons.{claim_reason, open_dispute_reason};

use crate::day::first_of;
use card_disputes::{Wait, first_waiting, last_notice_day, named};
use card_events::{Anchor, Day, Kept, Num, Post, Refusal};
use card_posts::Posts;

fn is_charge(entry: &Post) -> bool
    ensures { (day target cents : ℕ) → result ≡ fits_target (post.Dispute day target cents) entry.now }
{
    match entry {
        Post::Charge { .. } => true,
        _ => false,
    }
}

// Whether the post with a number is a charge.
fn is_charge_named(posts: &Posts, number: Num) -> bool
    ensures { (day cents : ℕ) → result ≡ holds_of (λ k. fits_target (post.Dispute day number cents) k.post) (at_number number posts.now.history) }
{
    match named(posts, number) {
        Some(kept) => is_charge(&kept.post),
        None => false,
    }
}

fn is_dispute(entry: &Post) -> bool
    ensures acks { (day target : ℕ) → result ≡ fits_target (post.Ack day target) entry.now }
    ensures resolves { (day target cents : ℕ) → result ≡ fits_target (post.Resolve day target cents) entry.now }
{
    match entry {
        Post::Dispute { .. } => true,
        _ => false,
    }
}

// Whether the post with a number is a Dispute.
fn is_dispute_named(posts: &Posts, number: Num) -> bool
    ensures acks { (day : ℕ) → result ≡ holds_of (λ k. fits_target (post.Ack day number) k.post) (at_number number posts.now.history) }
    ensures resolves { (day cents : ℕ) → result ≡ holds_of (λ k. fits_target (post.Resolve day number cents) k.post) (at_number number posts.now.history) }
{
    match named(posts, number) {
        Some(kept) => is_dispute(&kept.post),
        None => false,
    }
}

fn wrong_target(fits: bool, number: Num) -> Option<Refusal>
    ensures { result ≡ where_true (not fits) (Refusal.WrongEntry number) }
{
    if fits {
        None
    } else {
        Some(Refusal::WrongEntry(number.get()))
    }
}

fn reason_after(last: Day, day: Day) -> Option<Refusal>
    ensures { result ≡ where_true (nat_lt last day) (Refusal.DisputeLate last) }
{
    if last < day {
        Some(Refusal::DisputeLate(last))
    } else {
        None
    }
}

// Why a Dispute of a day comes too late for a charge (12 CFR 1026.13(b)(1)).
fn late_reason(posts: &Posts, anchor: &Anchor, day: Day, charge: Num) -> Option<Refusal>
    requires posts { AreInCalendar anchor.now posts.now.history }
    ensures { (now : Present) (cents : ℕ) → now.lists.posts ≡ posts.now.history → StandsFor now.shared.holidays posts.now → result ≡ spec.dispute_late now (post.Dispute day charge cents) }
{
    match last_notice_day(posts, anchor, charge) {
        Some(last) => reason_after(last, day),
        None => None,
    }
}

// Why a charge isn't disputed once more.
fn known_reason(posts: &Posts, charge: Num) -> Option<Refusal>
    ensures { (now : Present) (day cents : ℕ) → now.lists.posts ≡ posts.now.history → result ≡ spec.dispute_known now (post.Dispute day charge cents) }
{
    match first_waiting(posts, Wait::Dispute, charge.get()) {
        Some(number) => Some(Refusal::DisputeKnown(number as u64)),
        None => None,
    }
}

/// Why a Dispute of a day isn't accepted with its charge.
pub fn disputed_charge(posts: &Posts, anchor: &Anchor, day: Day, charge: Num) -> Option<Refusal>
    requires posts { AreInCalendar anchor.now posts.now.history }
    ensures { (now : Present) (cents : ℕ) → now.lists.posts ≡ posts.now.history → StandsFor now.shared.holidays posts.now → result ≡ claim_reason now (post.Dispute day charge cents) }
{
    let wrong = wrong_target(is_charge_named(posts, charge), charge);
    let late = late_reason(posts, anchor, day, charge);
    let known = known_reason(posts, charge);
    first_of(wrong, first_of(late, known))
}

fn is_above_claim(kept: &Kept, cents: Num) -> bool
    ensures { result ≡ spec.is_above_claim cents kept.now }
{
    match &kept.post {
        Post::Dispute { cents: claim, .. } => claim.get() < cents.get(),
        _ => false,
    }
}

/// Whether an amount in cents is above what the Dispute with a number claims.
pub fn is_above_claim_of(posts: &Posts, dispute: Num, cents: Num) -> bool
    ensures { (now : Present) → now.lists.posts ≡ posts.now.history → result ≡ holds_of (spec.is_above_claim cents) (spec.named now dispute) }
{
    match named(posts, dispute) {
        Some(kept) => is_above_claim(kept, cents),
        None => false,
    }
}

// Whether a Resolve names the Dispute.
fn is_resolved(posts: &Posts, dispute: Num) -> bool
    ensures { (now : Present) → now.lists.posts ≡ posts.now.history → result ≡ spec.is_resolved now dispute }
{
    match first_waiting(posts, Wait::Resolve, dispute.get()) {
        Some(_) => true,
        None => false,
    }
}

fn resolved_reason(resolved: bool) -> Option<Refusal>
    ensures { result ≡ where_true resolved Refusal.NoOpenDispute }
{
    if resolved {
        Some(Refusal::NoOpenDispute)
    } else {
        None
    }
}

/// Why an Ack or a Resolve isn't accepted with its Dispute.
pub fn open_dispute(posts: &Posts, dispute: Num) -> Option<Refusal>
    ensures acks { (now : Present) (day : ℕ) → now.lists.posts ≡ posts.now.history → result ≡ open_dispute_reason now (post.Ack day dispute) }
    ensures resolves { (now : Present) (day cents : ℕ) → now.lists.posts ≡ posts.now.history → result ≡ open_dispute_reason now (post.Resolve day dispute cents) }
{
    let wrong = wrong_target(is_dispute_named(posts, dispute), dispute);
    first_of(wrong, resolved_reason(is_resolved(posts, dispute)))
}
