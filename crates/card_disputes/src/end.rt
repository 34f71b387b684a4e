// The posts that end tasks.
ghost use Rattle.std.specs.Prelude.{◌≡◌, ◌<◌, ℕ, List};
ghost use Rattle.std.specs.List.{list_any};
ghost use Rattle.card_disputes.specs.Ends as ends;
ghost use Rattle.card_disputes.specs.Ends.{AreLast, IsLast};
ghost use Rattle.card_disputes.specs.declared.end.End.TheVariants as end;
ghost use Rattle.card_events.specs.History.{at_number};
ghost use Rattle.card_model.specs.Deadlines as spec;
ghost use Rattle.card_model.specs.Refusals.{holds_of};
ghost use Rattle.card_posts.specs.Posted.{StandsFor};

use crate::waiting::{Wait, first_waiting};
use card_events::Post;
use card_posts::Posts;

// What ends a task: that a dispute is acknowledged, by its number, that a credit balance is refunded, or that a rate is lowered.
#[derive(Clone, Copy)]
pub enum End {
    Acknowledged(u32),
    Refunded,
    Lowered,
}

// The numbers of the last Refund and of the last Lower of an account, 0 for none.
#[derive(Clone, Copy)]
pub struct LastEnds {
    pub refund: u32,
    pub lower: u32,
}

fn ends(end: End, post: &Post) -> bool
    ensures { result ≡ ends.ends end post.now }
{
    match (end, post) {
        (End::Acknowledged(dispute), Post::Ack { target, .. }) => target.get() == dispute as u64,
        (End::Refunded, Post::Refund { .. }) => true,
        (End::Lowered, Post::Lower { .. }) => true,
        _ => false,
    }
}

// whether the post with a number ends it
fn ends_at(posts: &Posts, number: u32, end: End) -> bool
    ensures { result ≡ holds_of (λ k. ends.ends end k.post) (at_number number posts.now.history) }
{
    match posts.get(number) {
        Some(kept) => ends(end, &kept.post),
        None => false,
    }
}

// the number of the last post that ends it, 0 where none does
fn last_end(posts: &Posts, end: End) -> u32
    ensures { IsLast end result posts.now.history }
{
    for i in (0..posts.len()).rev() {
        if ends_at(posts, i + 1, end) {
            return i + 1;
        }
    }
    0
}

// The last Refund and the last Lower.
pub fn last_ends(posts: &Posts) -> LastEnds
    ensures { AreLast posts.now.history result }
{
    LastEnds {
        refund: last_end(posts, End::Refunded),
        lower: last_end(posts, End::Lowered),
    }
}

// Whether an Ack names the Dispute of this number.
pub fn is_acknowledged(posts: &Posts, dispute: u32) -> bool
    ensures { (holidays : List ℕ) → StandsFor holidays posts.now → result ≡ spec.has (spec.acknowledges dispute) posts.now.corrected }
{
    0 < last_end(posts, End::Acknowledged(dispute))
}

// Whether a Resolve names the Dispute of this number.
pub fn is_resolved(posts: &Posts, dispute: u32) -> bool
    ensures { (holidays : List ℕ) → StandsFor holidays posts.now → result ≡ spec.has (spec.resolves dispute) posts.now.corrected }
{
    match first_waiting(posts, Wait::Resolve, dispute as u64) {
        Some(_) => true,
        None => false,
    }
}

// Whether a Refund comes after the post with this number.
pub fn is_refunded(_posts: &Posts, last: LastEnds, number: u32) -> bool
    requires { AreLast _posts.now.history last }
    ensures { (holidays : List ℕ) → StandsFor holidays _posts.now → result ≡ spec.has_later spec.is_refund number _posts.now.corrected }
{
    number < last.refund
}

// Whether a Lower comes after the post with this number.
pub fn is_lowered(_posts: &Posts, last: LastEnds, number: u32) -> bool
    requires { AreLast _posts.now.history last }
    ensures { (holidays : List ℕ) → StandsFor holidays _posts.now → result ≡ spec.has_later spec.is_lower number _posts.now.corrected }
{
    number < last.lower
}
