// The plans that charges and credits go to.
ghost use Rattle.std.specs.Prelude.{◌≡◌, ℕ, option_copied};
ghost use Rattle.card_reasons.specs.Reasons.{place_reason};
ghost use Rattle.card_events.specs.History.{at_number};
ghost use Rattle.card_events.specs.declared.post.Post.TheVariants as post;
ghost use Rattle.card_model.specs.Refusals.{Present};
ghost use Rattle.card_model.specs.Refusals as spec;

use card_disputes::named;
use card_events::{Day, Num, Place, Post, Refusal};
use card_posts::Posts;

// The first and the last day of a Plan.
fn plan_days(post: &Post) -> Option<(Day, Day)>
    ensures { result ≡ spec.plan_days post.now }
{
    match post {
        Post::Plan { day, end, .. } => Some((*day, *end)),
        _ => None,
    }
}

// The first and the last day of the plan that the post of a number began, none where it began none.
fn plan_at(posts: &Posts, number: Num) -> Option<(Day, Day)>
    ensures { (now : Present) → now.lists.posts ≡ posts.now.history → result ≡ spec.plan_at now number }
{
    match named(posts, number) {
        Some(kept) => plan_days(&kept.post),
        None => None,
    }
}

fn is_no_plan(plan: Option<(Day, Day)>) -> bool
    ensures { result ≡ spec.is_no_plan plan }
{
    match plan {
        Some(_) => false,
        None => true,
    }
}

fn is_outside(day: Day, plan: Option<(Day, Day)>) -> bool
    ensures { result ≡ spec.is_outside day plan }
{
    match plan {
        Some((first, end)) => day < first || end < day,
        None => false,
    }
}

// Whether a place names a number that is no Plan's.
fn names_no_plan(posts: &Posts, place: &Place) -> bool
    ensures { (now : Present) → now.lists.posts ≡ posts.now.history → result ≡ spec.names_no_plan now place.now }
{
    match place {
        Place::Plan(number) => is_no_plan(plan_at(posts, *number)),
        _ => false,
    }
}

/// Whether a day lies outside the plan that a place names.
pub fn is_outside_place(posts: &Posts, day: Day, place: &Place) -> bool
    ensures { (now : Present) → now.lists.posts ≡ posts.now.history → result ≡ spec.is_outside_place now day place.now }
{
    match place {
        Place::Plan(number) => is_outside(day, plan_at(posts, *number)),
        _ => false,
    }
}

/// Why a charge of a day isn't accepted on a place.
pub fn charged_place(posts: &Posts, day: Day, place: &Place) -> Option<Refusal>
    ensures { (now : Present) (cents : ℕ) → now.lists.posts ≡ posts.now.history → result ≡ place_reason now (post.Charge day place.now cents) }
{
    if names_no_plan(posts, place) {
        Some(Refusal::UnknownPlan)
    } else if is_outside_place(posts, day, place) {
        Some(Refusal::OutsidePlan)
    } else {
        None
    }
}

/// Why a credit isn't accepted on a place. A credit may come after its plan.
pub fn credited_place(posts: &Posts, place: &Place) -> Option<Refusal>
    ensures { (now : Present) (day cents : ℕ) → now.lists.posts ≡ posts.now.history → result ≡ place_reason now (post.Credit day place.now cents) }
{
    if names_no_plan(posts, place) {
        Some(Refusal::UnknownPlan)
    } else {
        None
    }
}
