// Rate increases that have taken effect.
ghost use Rattle.std.specs.Prelude.{◌≡◌, ℕ, ◌+◌, ◌≤◌, not, nat_le, List, Option};
ghost use Rattle.std.specs.List.{list_any};
ghost use Rattle.card_disputes.specs.Increases.{is_by, is_increase_by};
ghost use Rattle.card_events.specs.History.{at_number};
ghost use Rattle.card_model.specs.Deadlines.{increase_of, increases};
ghost use Rattle.card_model.specs.Refusals.{holds_of, is_empty};
ghost use Rattle.card_posts.specs.Posted.{StandsFor};

use card_events::{Day, Kept, NOTICE_DAYS, Post};
use card_posts::Posts;

// whether a post raises a rate from this day on, or an earlier one
fn is_increase_by(kept: &Kept, day: Day) -> bool
    ensures { result ≡ is_increase_by day kept.now }
{
    match kept.post {
        Post::Notice { effective, .. } => effective <= day,
        Post::Penalty => kept.accepted.number() + NOTICE_DAYS as i32 <= day.number(),
        _ => false,
    }
}

// whether the post with a number does
fn is_increase_at(posts: &Posts, number: u32, day: Day) -> bool
    ensures { result ≡ holds_of (is_increase_by day) (at_number number posts.now.history) }
{
    match posts.get(number) {
        Some(kept) => is_increase_by(kept, day),
        None => false,
    }
}

// whether some post does
fn has_increase_by(posts: &Posts, day: Day) -> bool
    ensures { result ≡ list_any (is_increase_by day) posts.now.history }
{
    for i in 0..posts.len() {
        if is_increase_at(posts, i + 1, day) {
            return true;
        }
    }
    false
}

/// Whether a rate increase has taken effect by a day: a Notice by its effective day, or a penalty rate 45 days after its
/// acceptance (12 CFR 1026.59(a)). The corrected list is that of the posts under some calendar. It doesn't allocate.
pub fn has_increase(posts: &Posts, day: Day) -> bool
    ensures { (holidays : List ℕ) → StandsFor holidays posts.now → result ≡ not (is_empty (increases posts.now.corrected day)) }
{
    has_increase_by(posts, day)
}
