// The posts that are judged by the book of today.
ghost use Rattle.std.specs.Prelude.{◌≡◌, ℕ, false, nat_lt, pos};
ghost use Rattle.card_events.specs.declared.post.Post.TheVariants as post;
ghost use Rattle.card_model.specs.Entries.{credit_balance};
ghost use Rattle.card_model.specs.Payments.{sixty_days_late};
ghost use Rattle.card_model.specs.Refusals.{Present, book_today, is_no_amount, reason_against, seen_today};

use crate::day::full_reason;
use card_events::{Cents, Num, Refusal};
use card_posts::Posts;

/// Why a Penalty isn't accepted today, by whether the account is sixty days late in the book of today (12 CFR
/// 1026.55(b)(4)). None where it is accepted.
pub fn penalty_reason(posts: &Posts, late: bool) -> Option<Refusal>
    ensures { (now : Present) → now.lists.posts ≡ posts.now.history → late ≡ sixty_days_late (seen_today now) (book_today now).cycles → result ≡ reason_against now post.Penalty }
{
    if late {
        full_reason(posts)
    } else {
        Some(Refusal::NotDelinquent)
    }
}

// Whether a Refund in cents is above a credit balance.
fn is_above(cents: Num, credit: Cents) -> bool
    ensures { (balance : ℕ) → credit ≡ pos balance → result ≡ nat_lt balance cents }
{
    credit.unsigned_abs() < cents.get()
}

/// Why a Refund of an amount in its range isn't accepted today, by the credit balance in the book of today, in cents (12 CFR
/// 1026.11(a)). None where it is accepted.
pub fn refund_reason(posts: &Posts, cents: Num, credit: Cents) -> Option<Refusal>
    requires amount { is_no_amount cents ≡ false }
    ensures { (now : Present) → now.lists.posts ≡ posts.now.history → credit ≡ pos (credit_balance (book_today now).entries) → result ≡ reason_against now (post.Refund cents) }
{
    if is_above(cents, credit) {
        Some(Refusal::RefundTooLarge(credit))
    } else {
        full_reason(posts)
    }
}
