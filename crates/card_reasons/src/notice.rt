// The effective day of a Notice.
ghost use Rattle.std.specs.Prelude.{◌≡◌, ◌≤◌, ◌+◌, ℕ};
ghost use Rattle.card_events.specs.Range.{last_request_day};
ghost use Rattle.card_events.specs.Same.{is_same_category};
ghost use Rattle.card_events.specs.Later.{year_after};
ghost use Rattle.card_events.specs.History.{anchor_of, at_number};
ghost use Rattle.card_events.specs.declared.post.Post.TheVariants as post;
ghost use Rattle.card_model.specs.Refusals.{Present};
ghost use Rattle.card_model.specs.Refusals as spec;
ghost use Rattle.card_reasons.specs.Notices.{effective_at, later_of};
ghost use Rattle.card_reasons.specs.Reasons.{effective_reason, notice_reason};

use crate::day::first_of;
use crate::plan::has_all_segments;
use card_events::{Anchor, Category, Day, NOTICE_DAYS, Post, Refusal, year_after};
use card_posts::Posts;

fn is_same(a: Category, b: Category) -> bool
    ensures { result ≡ is_same_category a b }
{
    match (a, b) {
        (Category::Purchase, Category::Purchase) => true,
        (Category::Cash, Category::Cash) => true,
        (Category::Transfer, Category::Transfer) => true,
        _ => false,
    }
}

// The effective day of a Notice of a category.
fn effective_of(post: &Post, category: Category) -> Option<Day>
    ensures { result ≡ spec.effective_of category post.now }
{
    match post {
        Post::Notice {
            category: other,
            effective,
            ..
        } if is_same(category, *other) => Some(*effective),
        _ => None,
    }
}

// The effective day of the post with a number, where it is a Notice of a category that takes effect after a day.
fn effective_after(posts: &Posts, number: u32, category: Category, day: Day) -> Option<Day>
    ensures { result ≡ effective_at category day (at_number number posts.now.history) }
{
    match posts.get(number) {
        Some(kept) => match effective_of(&kept.post, category) {
            Some(effective) if day < effective => Some(effective),
            _ => None,
        },
        None => None,
    }
}

// The later of two days, where there are both.
fn later_of(a: Option<Day>, b: Option<Day>) -> Option<Day>
    ensures { result ≡ later_of a b }
{
    match (a, b) {
        (Some(a), Some(b)) => Some(if a < b { b } else { a }),
        (Some(a), None) => Some(a),
        (None, b) => b,
    }
}

// The greatest effective day after a day, of the Notices of a category.
fn pending_day(posts: &Posts, category: Category, day: Day) -> Option<Day>
    ensures { (now : Present) → now.lists.posts ≡ posts.now.history → result ≡ spec.pending_day now category day }
{
    let mut pending = None;
    for i in 0..posts.len() {
        let effective = effective_after(posts, i + 1, category, day);
        pending = later_of(pending, effective);
    }
    pending
}

fn pending_reason(posts: &Posts, category: Category, day: Day) -> Option<Refusal>
    ensures { (now : Present) (rate effective : ℕ) → now.lists.posts ≡ posts.now.history → result ≡ spec.notice_pending now (post.Notice day category rate effective) }
{
    match pending_day(posts, category, day) {
        Some(pending) => Some(Refusal::NoticePending(pending)),
        None => None,
    }
}

fn reason_for(full: bool, effective: Day, least: Day, first: Day) -> Option<Refusal>
    ensures { result ≡ effective_reason full effective least first }
{
    if full {
        Some(Refusal::SegmentsFull)
    } else if effective < least {
        Some(Refusal::NoticeTooShort(least))
    } else if effective < first {
        Some(Refusal::FirstYear(first))
    } else {
        None
    }
}

// The first day on which a rate may take effect, of which notice is given on a day (12 CFR 1026.9(c)(2)(i)).
fn noticed_day(day: Day) -> Day
    requires { day ≤ last_request_day }
    ensures { result ≡ day + 45 }
{
    day.plus(NOTICE_DAYS)
}

/// Why a Notice of a day isn't accepted with its effective day, or as one more segment.
pub fn noticed(
    posts: &Posts,
    anchor: &Anchor,
    day: Day,
    category: Category,
    effective: Day,
) -> Option<Refusal>
    requires anchor { anchor.now ≡ anchor_of posts.now.history }
    requires opened { anchor.now.opened ≤ last_request_day }
    requires dated { day ≤ last_request_day }
    ensures { (now : Present) (rate : ℕ) → now.lists.posts ≡ posts.now.history → result ≡ notice_reason now (post.Notice day category rate effective) }
{
    let full = has_all_segments(posts);
    let first = year_after(anchor.opened);
    let soon = reason_for(full, effective, noticed_day(day), first);
    first_of(soon, pending_reason(posts, category, day))
}
