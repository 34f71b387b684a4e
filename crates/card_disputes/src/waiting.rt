// The first post that waits for another one.
ghost use Rattle.std.specs.Prelude.{◌≡◌, Some};
ghost use Rattle.card_disputes.specs.Waits.{does};
ghost use Rattle.card_events.specs.History.{at_number};
ghost use Rattle.card_model.specs.Refusals.{holds_of, number_from};
ghost use Rattle.card_waits.specs.Waits.{first_by, if_any};

use card_events::{POST_LIMIT, Post};
use card_posts::Posts;

/// What a post does to the one for which it waits: it returns a payment, disputes a charge, or resolves a Dispute.
#[derive(Clone, Copy)]
pub enum Wait {
    Return,
    Dispute,
    Resolve,
}

fn does(post: &Post, wait: Wait, number: u64) -> bool
    ensures { result ≡ does wait number post.now }
{
    match (wait, post) {
        (Wait::Return, Post::Return { target, .. }) => target.get() == number,
        (Wait::Dispute, Post::Dispute { target, .. }) => target.get() == number,
        (Wait::Resolve, Post::Resolve { target, .. }) => target.get() == number,
        _ => false,
    }
}

// whether one post does so to the other
fn does_at(posts: &Posts, other: u32, wait: Wait, number: u64) -> bool
    ensures { result ≡ holds_of (λ k. does wait number k.post) (at_number other posts.now.history) }
{
    match posts.get(other) {
        Some(kept) => does(&kept.post, wait, number),
        None => false,
    }
}

// the first of all that wait
fn among_waiting(posts: &Posts, wait: Wait, number: u64) -> Option<u32>
    ensures { result ≡ number_from (does wait number) 1 posts.now.history }
{
    let waiting = posts.waiting();
    for other in waiting {
        if does_at(posts, *other, wait, number) {
            return Some(*other);
        }
    }
    None
}

// the same, where this one is the first that waits for the post with a number
fn this_or_other(posts: &Posts, this: u32, wait: Wait, number: u64) -> Option<u32>
    requires { Some this ≡ if_any (first_by number posts.now.history) }
    ensures { result ≡ number_from (does wait number) 1 posts.now.history }
{
    if does_at(posts, this, wait, number) {
        return Some(this);
    }
    among_waiting(posts, wait, number)
}

/// The number of the first post that does this to the one with a number. None comes exactly where none does. It looks at one post
/// where the first that waits for it does so, and at all that wait where another kind does or the number is none of a post.
pub fn first_waiting(posts: &Posts, wait: Wait, number: u64) -> Option<u32>
    ensures { result ≡ number_from (does wait number) 1 posts.now.history }
{
    if number == 0 || number > POST_LIMIT as u64 {
        return among_waiting(posts, wait, number);
    }
    match posts.by(number as u32) {
        Some(this) => this_or_other(posts, this, wait, number),
        None => None,
    }
}
