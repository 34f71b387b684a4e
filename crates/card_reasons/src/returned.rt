// The payment that a Return names, and an earlier Return of it.
ghost use Rattle.std.specs.Prelude.{◌≡◌, ℕ, not, [], ◌∷◌};
ghost use Rattle.std.specs.Option.{option_map};
ghost use Rattle.card_reasons.specs.Reasons.{returned_reason};
ghost use Rattle.card_events.specs.History.{at_number};
ghost use Rattle.card_events.specs.declared.post.Post.TheVariants as post;
ghost use Rattle.card_fees.specs.Counting.{is_payment_at};
ghost use Rattle.card_model.specs.Payments as spec;
ghost use Rattle.card_model.specs.Refusals.{Present, first_reason, holds_of, number_from, where_true};

use card_disputes::{Wait, first_waiting, named};
use card_events::{Num, Post, Refusal};
use card_posts::Posts;

fn is_payment(post: &Post) -> bool
    ensures { result ≡ spec.is_payment post.now }
{
    matches!(post, Post::Payment { .. })
}

// Whether the post with a number is a payment.
fn is_payment_named(posts: &Posts, number: Num) -> bool
    ensures { result ≡ is_payment_at (at_number number posts.now.history) }
{
    match named(posts, number) {
        Some(kept) => is_payment(&kept.post),
        None => false,
    }
}

fn reason_for(fits: bool, earlier: Option<u32>, number: Num) -> Option<Refusal>
    ensures { result ≡ first_reason (where_true (not fits) (Refusal.WrongEntry number) ∷ option_map (λ n. Refusal.AlreadyReturned n) earlier ∷ []) }
{
    if !fits {
        return Some(Refusal::WrongEntry(number.get()));
    }
    match earlier {
        Some(other) => Some(Refusal::AlreadyReturned(other as u64)),
        None => None,
    }
}

/// Why a Return isn't accepted with its target.
pub fn returned_target(posts: &Posts, target: Num) -> Option<Refusal>
    ensures { (now : Present) (day : ℕ) → now.lists.posts ≡ posts.now.history → result ≡ returned_reason now (post.Return day target) }
{
    let fits = is_payment_named(posts, target);
    let earlier = first_waiting(posts, Wait::Return, target.get());
    reason_for(fits, earlier, target)
}
