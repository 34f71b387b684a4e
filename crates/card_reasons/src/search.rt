// The number of the first Bill of a cycle.
ghost use Rattle.std.specs.Prelude.{◌≡◌, ◌+◌, drop};
ghost use Rattle.card_events.specs.History.{at_number};
ghost use Rattle.card_model.specs.Refusals.{holds_of, number_from};
ghost use Rattle.card_model.specs.Refusals as refusals;

use card_events::{Num, Post};
use card_posts::Posts;

fn bills(post: &Post, cycle: Num) -> bool
    ensures { result ≡ refusals.bills cycle post.now }
{
    match post {
        Post::Bill { cycle: other } => *other == cycle,
        _ => false,
    }
}

// Whether the post with a number is a Bill of the cycle.
fn bills_at(posts: &Posts, number: u32, cycle: Num) -> bool
    ensures { result ≡ holds_of (λ k. refusals.bills cycle k.post) (at_number number posts.now.history) }
{
    match posts.get(number) {
        Some(kept) => bills(&kept.post, cycle),
        None => false,
    }
}

/// The number of the first Bill of a cycle, of those behind so many first posts. None comes exactly where none of them is one.
pub fn bill_behind(posts: &Posts, first: u32, cycle: Num) -> Option<u32>
    ensures { result ≡ number_from (refusals.bills cycle) (first + 1) (drop first posts.now.history) }
{
    for i in first..posts.len() {
        if bills_at(posts, i + 1, cycle) {
            return Some(i + 1);
        }
    }
    None
}
