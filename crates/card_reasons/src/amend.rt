// The post that an Amend names.
ghost use Rattle.std.specs.Prelude.{◌≡◌, ℕ, not, [], ◌∷◌};
ghost use Rattle.card_reasons.specs.Reasons.{target_reason};
ghost use Rattle.card_events.specs.declared.post.Post.TheVariants as post;
ghost use Rattle.card_model.specs.Effects.{place_charged};
ghost use Rattle.card_model.specs.Refusals.{Present, first_reason, fits_target, holds_of, where_true};
ghost use Rattle.card_model.specs.Refusals as spec;

use crate::place::is_outside_place;
use card_disputes::named;
use card_events::{Day, Num, Post, Refusal};
use card_posts::Posts;

// Whether an Amend may name a post: a charge, a credit or a payment.
fn may_be_amended(target: &Post) -> bool
    ensures { (n day cents : ℕ) → result ≡ fits_target (post.Amend n day cents) target.now }
{
    match target {
        Post::Charge { .. } | Post::Credit { .. } | Post::Payment { .. } => true,
        _ => false,
    }
}

// Whether a post is a charge on a plan that a day lies outside.
fn is_outside_charge(posts: &Posts, day: Day, target: &Post) -> bool
    ensures { (now : Present) → now.lists.posts ≡ posts.now.history → result ≡ holds_of (spec.is_outside_place now day) (place_charged target.now) }
{
    match target {
        Post::Charge { place, .. } => is_outside_place(posts, day, place),
        _ => false,
    }
}

fn reason_for(outside: bool, fits: bool, number: Num) -> Option<Refusal>
    ensures { result ≡ first_reason (where_true outside Refusal.OutsidePlan ∷ where_true (not fits) (Refusal.WrongEntry number) ∷ []) }
{
    if outside {
        Some(Refusal::OutsidePlan)
    } else if fits {
        None
    } else {
        Some(Refusal::WrongEntry(number.get()))
    }
}

/// Why an Amend that gives a day isn't accepted with its target.
pub fn amended_target(posts: &Posts, target: Num, day: Day) -> Option<Refusal>
    ensures { (now : Present) (cents : ℕ) → now.lists.posts ≡ posts.now.history → result ≡ target_reason now (post.Amend target day cents) }
{
    match named(posts, target) {
        Some(kept) => {
            let outside = is_outside_charge(posts, day, &kept.post);
            reason_for(outside, may_be_amended(&kept.post), target)
        }
        None => reason_for(false, false, target),
    }
}
