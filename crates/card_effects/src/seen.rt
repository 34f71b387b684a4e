// Posts as the fold of a day sees them, by their numbers.
ghost use Rattle.std.specs.Prelude.{◌≡◌, ◌≤◌, Some, List, IfSome};
ghost use Rattle.card_events.specs.SharedRows.{SharedRows};
ghost use Rattle.card_model.specs.Cycles.{IssuedRow};
ghost use Rattle.card_posts.specs.Posted.{StandsFor};
ghost use Rattle.card_rates.specs.Laws.{seen_in};
ghost use Rattle.card_rates.specs.Days.{found_for, only_folded};
ghost use Rattle.card_effects.specs.Seen as seen;

use card_events::{Day, Post, Slot};
use card_posts::Posts;
use card_rates::{DayPost, is_folded};

// A post of a kind that is folded.
fn if_folded(post: DayPost) -> Option<DayPost>
    ensures { result ≡ only_folded (Some post) }
{
    if is_folded(&post.post) {
        Some(post)
    } else {
        None
    }
}

// The post of a slot, where its kind is folded.
fn post_of(posts: &Posts, slot: &Slot) -> Option<DayPost>
    ensures { result ≡ only_folded (found_for posts.now.history (Some slot.now)) }
{
    match posts.get(slot.number) {
        Some(kept) => if_folded(DayPost {
            slot: *slot,
            post: kept.post,
        }),
        None => None,
    }
}

// The same, where it counts by a day.
fn post_by(posts: &Posts, slot: Option<Slot>, day: Day) -> Option<DayPost>
    ensures { result ≡ seen.post_by day posts.now.history slot }
{
    match slot {
        Some(slot) => {
            if slot.day <= day {
                post_of(posts, &slot)
            } else {
                None
            }
        }
        None => None,
    }
}

// The post with a number, as the fold of a day sees it.
pub fn post_seen(posts: &Posts, number: u64, day: Day) -> Option<DayPost>
    ensures value { (issued : List IssuedRow) (shared : SharedRows) → StandsFor shared.holidays posts.now → result ≡ seen.post_seen (seen_in posts.now.history issued shared day) number }
    ensures by { IfSome result (λ p. p.slot.day ≤ day) }
{
    post_by(posts, posts.slot(number), day)
}

// A post that is a charge.
fn if_charge(post: DayPost) -> Option<DayPost>
    ensures { result ≡ seen.if_charge post }
{
    match &post.post {
        Post::Charge { .. } => Some(post),
        _ => None,
    }
}

// The charge with a number, as the fold of a day sees it.
pub fn charge_seen(posts: &Posts, number: u64, day: Day) -> Option<DayPost>
    ensures value { (issued : List IssuedRow) (shared : SharedRows) → StandsFor shared.holidays posts.now → result ≡ seen.charge_seen (seen_in posts.now.history issued shared day) number }
    ensures by { IfSome result (λ p. p.slot.day ≤ day) }
{
    match post_seen(posts, number, day) {
        Some(post) => if_charge(post),
        None => None,
    }
}
