// The end of a Plan, and the segments that an account has.
ghost use Rattle.std.specs.Prelude.{◌≡◌, ℕ, ◌+◌, ◌≤◌, nat_le, max};
ghost use Rattle.card_events.specs.Limits.{post_limit};
ghost use Rattle.card_events.specs.Range.{last_request_day};
ghost use Rattle.std.specs.List.{count_by};
ghost use Rattle.card_reasons.specs.Reasons.{HasCycles, end_reason, ended_reason};
ghost use Rattle.card_events.specs.Billing.{IsCloseDay, next_on};
ghost use Rattle.card_events.specs.History.{adds_segment, at_number};
ghost use Rattle.card_events.specs.declared.post.PlanKind.{PlanKind};
ghost use Rattle.card_events.specs.declared.post.Post.TheVariants as post;
ghost use Rattle.card_model.specs.Refusals.{Present, holds_of};

use card_events::{Anchor, Day, Post, Refusal, closing, cycle_of, six_months_after};
use card_posts::Posts;

// The later of two days.
fn later_of(a: Day, b: Day) -> Day
    ensures value { result ≡ max a b }
    ensures from { b ≤ result }
    ensures until { (day : ℕ) → a ≤ day → b ≤ day → result ≤ day }
{
    if a < b { b } else { a }
}

// The first closing on or after a day, from the opening day on.
fn closing_from(anchor: &Anchor, day: Day) -> Day
    requires close_day { IsCloseDay anchor.now.close_day }
    requires opened { anchor.now.opened ≤ last_request_day }
    requires last { day ≤ last_request_day }
    ensures { result ≡ next_on anchor.now.close_day (max day anchor.now.opened) }
{
    let _ = anchor.opened.number();
    let from = later_of(day, anchor.opened);
    closing(*anchor, cycle_of(*anchor, from)).unwrap()
}

fn adds_segment(post: &Post) -> bool
    ensures { result ≡ adds_segment post.now }
{
    match post {
        Post::Plan { .. } | Post::Notice { .. } => true,
        _ => false,
    }
}

// Whether the post with a number adds a segment.
fn adds_at(posts: &Posts, number: u32) -> bool
    ensures { result ≡ holds_of (λ k. adds_segment k.post) (at_number number posts.now.history) }
{
    match posts.get(number) {
        Some(kept) => adds_segment(&kept.post),
        None => false,
    }
}

// How many posts add a segment.
fn added_count(posts: &Posts) -> u32
    ensures value { result ≡ count_by (λ k. adds_segment k.post) posts.now.history }
    ensures few { result ≤ post_limit }
{
    let mut count = 0;
    for i in 0..posts.len() {
        if adds_at(posts, i + 1) {
            count += 1;
        }
    }
    count
}

/// Whether an account has no room for one more segment. Five are there from the opening on.
pub fn has_all_segments(posts: &Posts) -> bool
    ensures { result ≡ nat_le 64 (5 + count_by (λ k. adds_segment k.post) posts.now.history) }
{
    added_count(posts) + 5 >= 64
}

fn reason_for(end: Day, closing: Day, least: Day, full: bool) -> Option<Refusal>
    ensures { result ≡ ended_reason closing end least full }
{
    if closing != end {
        Some(Refusal::PlanEndNotClosing(closing))
    } else if end < least {
        Some(Refusal::PlanTooShort)
    } else if full {
        Some(Refusal::SegmentsFull)
    } else {
        None
    }
}

/// Why a Plan from a day on isn't accepted with its end, or as one more segment.
pub fn plan_end(posts: &Posts, anchor: &Anchor, day: Day, end: Day) -> Option<Refusal>
    requires cycles { HasCycles anchor.now posts.now.history }
    requires dated { day ≤ last_request_day }
    requires ends { end ≤ last_request_day }
    ensures { (now : Present) (kind : PlanKind) (rate after : ℕ) → now.lists.posts ≡ posts.now.history → result ≡ end_reason now (post.Plan day kind rate end after) }
{
    let next = closing_from(anchor, end);
    let least = six_months_after(day);
    reason_for(end, next, least, has_all_segments(posts))
}
