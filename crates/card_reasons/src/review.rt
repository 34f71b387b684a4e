// The increases that a Review looks at (12 CFR 1026.59).
ghost use Rattle.std.specs.Prelude.{◌≡◌};
ghost use Rattle.card_events.specs.declared.post.Finding.{Finding};
ghost use Rattle.card_events.specs.declared.post.Post.TheVariants as post;
ghost use Rattle.card_model.specs.Refusals.{Present};
ghost use Rattle.card_model.specs.Refusals as spec;
ghost use Rattle.card_posts.specs.Posted.{StandsFor};

use card_disputes::has_increase;
use card_events::{Day, Refusal};
use card_posts::Posts;

/// Why a Review of a day finds nothing to review.
pub fn review_day(posts: &Posts, day: Day) -> Option<Refusal>
    ensures { (now : Present) (found : Finding) → now.lists.posts ≡ posts.now.history → StandsFor now.shared.holidays posts.now → result ≡ spec.nothing_to_review now (post.Review day found) }
{
    if has_increase(posts, day) {
        None
    } else {
        Some(Refusal::NothingToReview)
    }
}
