// The posts of a day, in order.
ghost use Rattle.std.specs.Prelude.{◌≡◌, ℕ, List, nat_lt, slice_get};
ghost use Rattle.card_events.specs.History as history;
ghost use Rattle.card_posts.specs.Order.{IsAscending};
ghost use Rattle.card_posts.specs.Posted.{StandsFor, folding_order};
ghost use Rattle.card_rates.specs.Days.{IsFoldedAt, found_for, only_folded, place_of, slots_before};

use card_events::{Day, Post, Slot};
use card_posts::Posts;

/// A post as it counts now: its slot, and its content.
#[derive(Clone, Copy)]
pub struct DayPost {
    pub slot: Slot,
    pub post: Post,
}

/// Whether the fold of its effective day reads a post. An opening, a Review, an Ack, an AskRefund, an Amend and a Bill change
/// no balance on a day of their own.
pub fn is_folded(post: &Post) -> bool
    ensures { result ≡ history.is_folded post.now }
{
    match post {
        Post::Open { .. } => false,
        Post::OpenVariable { .. } => false,
        Post::Review { .. } => false,
        Post::Ack { .. } => false,
        Post::AskRefund { .. } => false,
        Post::Amend { .. } => false,
        Post::Bill { .. } => false,
        _ => true,
    }
}

fn is_before(slot: &Slot, day: Day) -> bool
    ensures { result ≡ nat_lt slot.now.day day }
{
    slot.day < day
}

// how many slots are of earlier days
fn count_before(slots: &[Slot], day: Day) -> usize
    requires { IsAscending slots.now }
    ensures { result ≡ slots_before day slots.now }
{
    slots.partition_point(|slot| is_before(slot, day))
}

/// The place of a day in the order in which posts are folded: that of its first post or, where it has none, of the first
/// post of a later day. Places count from 0. It doesn't allocate.
pub fn first_place(posts: &Posts, day: Day) -> usize
    ensures place { (holidays : List ℕ) → StandsFor holidays posts.now → result ≡ place_of day posts.now.corrected }
{
    count_before(posts.in_order(), day)
}

// the post of the slot at a place
fn found(posts: &Posts, place: usize) -> Option<DayPost>
    ensures { result ≡ found_for posts.now.history (slice_get (folding_order posts.now.corrected) place) }
{
    let slot = posts.in_order().get(place)?;
    let kept = posts.get(slot.number)?;
    Some(DayPost {
        slot: *slot,
        post: kept.post,
    })
}

// a post of a kind that is folded
fn only_folded(found: Option<DayPost>) -> Option<DayPost>
    ensures { result ≡ only_folded found }
{
    match found {
        Some(post) => {
            if is_folded(&post.post) {
                Some(post)
            } else {
                None
            }
        }
        None => None,
    }
}

/// The post at a place, where the fold of its day reads its kind, and None otherwise. From the place of a day on stand the
/// posts of that day, by number. It doesn't allocate.
pub fn folded_at(posts: &Posts, place: usize) -> Option<DayPost>
    ensures { IsFoldedAt place posts.now result }
{
    only_folded(found(posts, place))
}
