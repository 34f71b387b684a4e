// The segments of an account, read from its posts.
ghost use Rattle.std.specs.Prelude.{◌≡◌, ◌+◌, ◌≤◌, ◌++◌, ℕ, List, [], length, IfOk, OnOk, true};
ghost use Rattle.card_events.specs.Range.{last_request_day};
ghost use Rattle.std.specs.List.{cons_option};
ghost use Rattle.card_events.specs.Dated.{is_dated_post};
ghost use Rattle.card_events.specs.History.{opening_in, terms_in, terms_of};
ghost use Rattle.card_model.specs.Accepted.{AreInRange, HasFewSegments};
ghost use Rattle.card_model.specs.Segments.{sort_of_category, sort_of_plan};
ghost use Rattle.card_rates.specs.Segments.{ArePostsDated, AreUnused, account_segments, kept_from, kept_of};

use crate::make::post_of;
use crate::{plan_sort, sort_of};
use card_events::{Category, Day, NoMemory, PlanKind, Post};
use card_model::{Segment, Sort};
use card_posts::{Posts, VINTAGE_DAYS};
use card_segments::Segments;
use std::alloc::Global;

// the 15th day after a Notice
fn vintage_day(notice: Day) -> Day
    requires { notice ≤ last_request_day }
    ensures { result ≡ notice + 15 }
{
    notice.plus(VINTAGE_DAYS)
}

// the segment that a post adds
#[tactic(auto, unfolding(card_events::specs::Dated::is_dated_post))]
fn segment_in(number: u32, post: &Post) -> Option<Segment>
    requires { is_dated_post post.now ≡ true }
    ensures { result ≡ kept_of number post.now }
{
    match post {
        Post::Plan { day, kind, end, .. } => Some(Segment {
            sort: plan_sort(*kind),
            post: number,
            begins: *day,
            ends: Some(*end),
        }),
        Post::Notice { day, category, .. } => Some(Segment {
            sort: sort_of(*category),
            post: number,
            begins: vintage_day(*day),
            ends: None,
        }),
        _ => None,
    }
}

fn opening_day(opening: &Post) -> Day
    requires { 1 ≤ (terms_in opening.now).close }
    ensures { result ≡ opening_in opening.now }
{
    match opening {
        Post::Open { day, .. } | Post::OpenVariable { day, .. } => *day,
        _ => unreachable!(),
    }
}

// adds the segment that a post adds
fn add(segments: &mut Segments, number: u32, post: &Post) -> Result<(), NoMemory>
    requires dated { is_dated_post post.now ≡ true }
    requires few { length segments.old.segments + length (cons_option (kept_of number post.now) []) ≤ 64 }
    ensures segments { OnOk result (segments.new.segments ≡ segments.old.segments ++ cons_option (kept_of number post.now) []) }
    ensures unused { OnOk result (AreUnused segments.old → AreUnused segments.new) }
{
    if let Some(segment) = segment_in(number, post) {
        segments.add(segment)?;
    }
    Ok(())
}

// adds those that all posts add
fn add_all(segments: &mut Segments, posts: &Posts) -> Result<(), NoMemory>
    requires dated { ArePostsDated posts.now.history }
    requires few { length segments.old.segments + length (kept_from 1 posts.now.history) ≤ 64 }
    ensures segments { OnOk result (segments.new.segments ≡ segments.old.segments ++ kept_from 1 posts.now.history) }
    ensures unused { OnOk result (AreUnused segments.old → AreUnused segments.new) }
{
    for i in 0..posts.rated() {
        add(segments, i + 1, &post_of(posts, i + 1).post)?;
    }
    Ok(())
}

/// The segments of an account: those of its opening, and one for each Plan and Notice, by number. Nothing is owed on them.
/// The terms are in their ranges, every day in the posts is a day of requests, and there are at most 64 segments.
pub fn segments_of(alloc: Global, posts: &Posts) -> Result<Segments, NoMemory>
    requires terms { AreInRange (terms_of posts.now.history) }
    requires dated { ArePostsDated posts.now.history }
    requires few { HasFewSegments posts.now.history }
    ensures segments { IfOk result (λ s. (holidays : List ℕ) → s.segments ≡ account_segments holidays posts.now.history) }
    ensures unused { IfOk result AreUnused }
{
    let opened = opening_day(&post_of(posts, 1).post);
    let mut segments = Segments::start(alloc, opened)?;
    // Those to come too: no payment reaches a segment without a balance, and 0 cents add no entry.
    add_all(&mut segments, posts)?;
    Ok(segments)
}
