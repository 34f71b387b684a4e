// When rate increases are reviewed.
ghost use Rattle.std.specs.Prelude.{◌≡◌, ℕ, ◌+◌, ◌≤◌, nat_le, if◌then◌else◌, Some, None, max, min, List};
ghost use Rattle.card_events.specs.Range.{last_request_day};
ghost use Rattle.std.specs.List.{fold, filter_map, reduce};
ghost use Rattle.card_disputes.specs.Increases.{increase_at, increase_by, increases_by, least_of, review_at, reviewed_by};
ghost use Rattle.card_events.specs.History.{at_number};
ghost use Rattle.card_model.specs.Deadlines as spec;
ghost use Rattle.card_posts.specs.Posted.{StandsFor};
ghost use Rattle.card_rates.specs.Segments.{ArePostsDated};

use card_events::{Day, Kept, NOTICE_DAYS, Post, six_months_after};
use card_posts::Posts;

// the first day of a penalty rate, where it isn't after this day
fn penalty_by(accepted: Day, day: Day) -> Option<Day>
    ensures { result ≡ (if nat_le (accepted + 45) day then Some (accepted + 45) else None) }
{
    let begins = accepted.number() + NOTICE_DAYS as i32;
    if begins <= day.number() {
        Day::from_number(begins)
    } else {
        None
    }
}

// the day of the increase that a post makes, where it isn't after this day
fn increase_by(kept: &Kept, day: Day) -> Option<Day>
    ensures { result ≡ increase_by day kept.now }
{
    match kept.post {
        Post::Notice { effective, .. } if effective <= day => Some(effective),
        Post::Penalty => penalty_by(kept.accepted, day),
        _ => None,
    }
}

// the same of the post with a number
fn increase_at(posts: &Posts, number: u32, day: Day) -> Option<Day>
    ensures { result ≡ increase_at day (at_number number posts.now.history) }
{
    match posts.get(number) {
        Some(kept) => increase_by(kept, day),
        None => None,
    }
}

// the earlier of two days, where both are there
fn least_of(least: Option<Day>, other: Option<Day>) -> Option<Day>
    ensures { result ≡ least_of least other }
{
    match (least, other) {
        (Some(a), Some(b)) => Some(if a < b { a } else { b }),
        (None, _) => other,
        _ => least,
    }
}

// the first of the increases that have taken effect by a day
fn first_increase(posts: &Posts, day: Day) -> Option<Day>
    ensures { result ≡ reduce min (increases_by day posts.now.history) }
{
    let mut first = None;
    for i in 0..posts.len() {
        first = least_of(first, increase_at(posts, i + 1, day));
    }
    first
}

// the later of a day and that of a Review
fn reviewed_by(post: &Post, day: Day) -> Day
    ensures { result ≡ reviewed_by post.now day }
{
    match post {
        Post::Review { day: review, .. } if *review > day => *review,
        _ => day,
    }
}

// the same of the post with a number
fn reviewed_at(posts: &Posts, number: u32, day: Day) -> Day
    ensures { result ≡ review_at (at_number number posts.now.history) day }
{
    match posts.get(number) {
        Some(kept) => reviewed_by(&kept.post, day),
        None => day,
    }
}

// the later of a day and the last Review
fn reviewed(posts: &Posts, day: Day) -> Day
    ensures { result ≡ fold max day (filter_map (λ k. spec.review_of k.post) posts.now.history) }
{
    let mut last = day;
    for i in 0..posts.len() {
        last = reviewed_at(posts, i + 1, last);
    }
    last
}

/// The day by which rate increases are reviewed, as of today: six months after the later of the first increase and the last
/// Review (12 CFR 1026.59(a), (c)). None comes where no increase has taken effect by today. The days of the posts and today
/// are days of requests. The corrected list is that of the posts under some calendar. It doesn't allocate.
pub fn review_by(posts: &Posts, today: Day) -> Option<Day>
    requires dated { ArePostsDated posts.now.history }
    requires today { today ≤ last_request_day }
    ensures { (holidays : List ℕ) → StandsFor holidays posts.now → result ≡ spec.review_by posts.now.corrected today }
{
    match first_increase(posts, today) {
        Some(first) => Some(six_months_after(reviewed(posts, first))),
        None => None,
    }
}
