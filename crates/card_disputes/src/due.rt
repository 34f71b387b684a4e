// By when the tasks are due that posts make.
ghost use Rattle.std.specs.Prelude.{◌≡◌, ℕ, ◌≤◌, ◌==◌, true, List, Option, Some, IfSome};
ghost use Rattle.card_events.specs.Range.{last_request_day};
ghost use Rattle.card_events.specs.Billing.{IsCloseDay};
ghost use Rattle.card_disputes.specs.Dues as dues;
ghost use Rattle.card_disputes.specs.Ends.{AreLast};
ghost use Rattle.card_events.specs.Dated.{is_dated_post};
ghost use Rattle.card_events.specs.History.{at_number};
ghost use Rattle.card_model.specs.Deadlines as spec;
ghost use Rattle.card_posts.specs.Posted.{StandsFor};
ghost use Rattle.card_rates.specs.Segments.{ArePostsDated};

use crate::deadline::{ack_by, lower_by, refund_by, resolve_by};
use crate::end::{LastEnds, is_acknowledged, is_lowered, is_refunded, is_resolved};
use card_events::{Anchor, Calendar, Day, Finding, Post, six_months_after};
use card_model::TaskKind;
use card_posts::Posts;

// the last day of what is still to be done
fn is_done(done: bool, by: Day) -> Option<Day>
    ensures { result ≡ spec.is_done done by }
{
    if done { None } else { Some(by) }
}

#[tactic(auto, unfolding(card_events::specs::Dated::is_dated_post))]
fn ack_due(posts: &Posts, number: u32, post: &Post) -> Option<Day>
    requires dated { is_dated_post post.now ≡ true }
    ensures { (holidays : List ℕ) → StandsFor holidays posts.now → result ≡ spec.ack_due posts.now.corrected number post.now }
{
    match post {
        Post::Dispute { day, .. } => {
            let done = is_resolved(posts, number) || is_acknowledged(posts, number);
            is_done(done, ack_by(*day))
        }
        _ => None,
    }
}

#[tactic(auto, unfolding(card_events::specs::Dated::is_dated_post))]
fn resolve_due(posts: &Posts, anchor: &Anchor, number: u32, post: &Post) -> Option<Day>
    requires close_day { IsCloseDay anchor.now.close_day }
    requires opened { anchor.now.opened ≤ last_request_day }
    requires dated { is_dated_post post.now ≡ true }
    ensures { (holidays : List ℕ) → StandsFor holidays posts.now → result ≡ spec.resolve_due anchor.now posts.now.corrected number post.now }
{
    match post {
        Post::Dispute { day, .. } => {
            let done = is_resolved(posts, number);
            is_done(done, resolve_by(anchor, *day))
        }
        _ => None,
    }
}

#[tactic(auto, unfolding(card_events::specs::Dated::is_dated_post))]
fn refund_due(
    posts: &Posts,
    calendar: &Calendar,
    credit: u64,
    last: LastEnds,
    number: u32,
    post: &Post,
) -> Option<Day>
    requires last { AreLast posts.now.history last }
    requires dated { is_dated_post post.now ≡ true }
    ensures { (holidays : List ℕ) → StandsFor holidays posts.now → result ≡ spec.refund_due calendar.now credit posts.now.corrected number post.now }
{
    match post {
        Post::AskRefund { day } => {
            let done = credit == 0 || is_refunded(posts, last, number);
            is_done(done, refund_by(*day, calendar))
        }
        _ => None,
    }
}

#[tactic(auto, unfolding(card_events::specs::Dated::is_dated_post))]
fn lower_due(posts: &Posts, last: LastEnds, number: u32, post: &Post) -> Option<Day>
    requires last { AreLast posts.now.history last }
    requires dated { is_dated_post post.now ≡ true }
    ensures { (holidays : List ℕ) → StandsFor holidays posts.now → result ≡ spec.lower_due posts.now.corrected number post.now }
{
    match post {
        Post::Review {
            day,
            finding: Finding::Reduce,
        } => is_done(is_lowered(posts, last, number), lower_by(*day)),
        _ => None,
    }
}

// The last day of the task of a kind that a post makes, none where it makes none or the task has ended.
fn due_by(
    posts: &Posts,
    anchor: &Anchor,
    calendar: &Calendar,
    credit: u64,
    last: LastEnds,
    kind: TaskKind,
    number: u32,
    post: &Post,
) -> Option<Day>
    requires last { AreLast posts.now.history last }
    requires close_day { IsCloseDay anchor.now.close_day }
    requires opened { anchor.now.opened ≤ last_request_day }
    requires dated { is_dated_post post.now ≡ true }
    ensures { (holidays : List ℕ) → StandsFor holidays posts.now → result ≡ dues.due_by anchor.now calendar.now credit posts.now.corrected kind number post.now }
{
    match kind {
        TaskKind::Ack => ack_due(posts, number, post),
        TaskKind::Resolve => resolve_due(posts, anchor, number, post),
        TaskKind::Refund => refund_due(posts, calendar, credit, last, number, post),
        TaskKind::Lower => lower_due(posts, last, number, post),
        TaskKind::Credit | TaskKind::Review => None,
    }
}

// The same of the post with a number.
pub fn due_at(
    posts: &Posts,
    anchor: &Anchor,
    calendar: &Calendar,
    credit: u64,
    last: LastEnds,
    kind: TaskKind,
    number: u32,
) -> Option<Day>
    requires last { AreLast posts.now.history last }
    requires close_day { IsCloseDay anchor.now.close_day }
    requires opened { anchor.now.opened ≤ last_request_day }
    requires dated { ArePostsDated posts.now.history }
    ensures { (holidays : List ℕ) → StandsFor holidays posts.now → result ≡ dues.due_at anchor.now calendar.now credit posts.now.corrected kind number (at_number number posts.now.history) }
{
    match posts.get(number) {
        Some(kept) => due_by(
            posts, anchor, calendar, credit, last, kind, number, &kept.post,
        ),
        None => None,
    }
}

// The last day for a refund of a credit balance that has stood since a day.
pub fn credit_due(credit: u64, since: Option<Day>) -> Option<Day>
    requires { IfSome since (λ d. d ≤ last_request_day) }
    ensures { result ≡ spec.credit_due credit since }
{
    match since {
        Some(day) if credit > 100 => Some(six_months_after(day)),
        _ => None,
    }
}
