// Why a Bill isn't accepted.
ghost use Rattle.std.specs.Prelude.{◌≡◌, ◌<◌, ◌≤◌, ℕ, SomeIff, length, nat_le, slice_index_or, true, [], ◌∷◌};
ghost use Rattle.std.specs.List.{All};
ghost use Rattle.std.specs.List.Sorted.{IsNonDecreasingBy};
ghost use Rattle.card_events.specs.History.{at_number};
ghost use Rattle.card_events.specs.declared.kept.Kept.{Kept};
ghost use Rattle.card_events.specs.Limits.{post_limit};
ghost use Rattle.card_events.specs.Range.{last_request_day};
ghost use Rattle.card_events.specs.Billing.{IsCloseDay, closing};
ghost use Rattle.card_model.specs.Refusals.{bills, first_reason, holds_of, number_from, where_true};
ghost use Rattle.card_reasons.specs.Reasons as reasons;
ghost use Rattle.card_reasons.specs.Reasons.{AreInOrder};

use crate::closings::closing_of;
use crate::search::bill_behind;
use card_events::{Anchor, Day, Num, POST_LIMIT, Refusal};
use card_posts::Posts;

// Whether the post with a number was accepted by a day.
fn is_accepted_by(posts: &Posts, number: u32, day: Day) -> bool
    ensures { result ≡ holds_of (λ k. nat_le k.accepted day) (at_number number posts.now.history) }
{
    match posts.get(number) {
        Some(kept) => kept.accepted <= day,
        None => false,
    }
}

// So many first posts were all accepted by a day, and none behind them was.
fn accepted_by(posts: &Posts, day: Day) -> u32
    requires { IsNonDecreasingBy (λ k. k.accepted) posts.now.history }
    ensures { (k : ℕ) (d : Kept) → k < result → k < length posts.now.history → (slice_index_or posts.now.history k d).accepted ≤ day }
{
    for i in (0..posts.len()).rev() {
        if is_accepted_by(posts, i + 1, day) {
            return i + 1;
        }
    }
    0
}

// The number of the Bill of a cycle that closes on this day: it was accepted later.
fn bill_number(posts: &Posts, cycle: Num, closing: Day) -> Option<u32>
    requires order { IsNonDecreasingBy (λ k. k.accepted) posts.now.history }
    requires billed { All (λ k. bills cycle k.post ≡ true → closing < k.accepted) posts.now.history }
    ensures { result ≡ number_from (bills cycle) 1 posts.now.history }
{
    bill_behind(posts, accepted_by(posts, closing), cycle)
}

// Why a Bill isn't accepted today, of a cycle that closes on this day and has an earlier one.
fn closed_reason(posts: &Posts, today: Day, closing: Day, earlier: Option<u32>) -> Option<Refusal>
    ensures { (cycle : ℕ) → earlier ≡ number_from (bills cycle) 1 posts.now.history → result ≡ reasons.closed_reason today closing posts.now.history cycle }
{
    match earlier {
        Some(number) => Some(Refusal::WrongEntry(number as u64)),
        None => later_reason(today, closing, posts.len()),
    }
}

fn later_reason(today: Day, closing: Day, count: u32) -> Option<Refusal>
    ensures { result ≡ first_reason (where_true (nat_le today closing) (Refusal.NotClosed closing) ∷ where_true (nat_le post_limit count) Refusal.AccountFull ∷ []) }
{
    if today <= closing {
        Some(Refusal::NotClosed(closing))
    } else if count >= POST_LIMIT {
        Some(Refusal::AccountFull)
    } else {
        None
    }
}

// The day on which a cycle closes, where that is at most 2099-12-31.
fn billed_closing(anchor: &Anchor, cycle: Num) -> Option<Day>
    requires { IsCloseDay anchor.now.close_day }
    ensures { SomeIff result ((1 ≤ cycle) × (closing anchor.now cycle ≤ last_request_day)) (closing anchor.now cycle) }
{
    match closing_of(anchor, cycle) {
        Some(closing) if closing.is_request_day() => Some(closing),
        _ => None,
    }
}

/// Why a Bill of a cycle isn't accepted today.
pub fn bill_reason(posts: &Posts, anchor: &Anchor, today: Day, cycle: Num) -> Option<Refusal>
    requires { IsCloseDay anchor.now.close_day }
    ensures { result ≡ reasons.bill_reason today anchor.now posts.now.history cycle }
{
    match billed_closing(anchor, cycle) {
        Some(closing) => {
            let earlier = bill_behind(posts, 0, cycle);
            closed_reason(posts, today, closing, earlier)
        }
        None => Some(Refusal::AmountRange),
    }
}

/// The same, where the posts are in the order of their days: it goes back over those that were accepted after the cycle's
/// closing, up to the first that wasn't. The condition is for speed alone.
pub fn ordered_bill_reason(
    posts: &Posts,
    anchor: &Anchor,
    today: Day,
    cycle: Num,
) -> Option<Refusal>
    requires close_day { IsCloseDay anchor.now.close_day }
    requires order { AreInOrder anchor.now posts.now.history }
    ensures { result ≡ reasons.bill_reason today anchor.now posts.now.history cycle }
{
    match billed_closing(anchor, cycle) {
        Some(closing) => {
            let earlier = bill_number(posts, cycle, closing);
            closed_reason(posts, today, closing, earlier)
        }
        None => Some(Refusal::AmountRange),
    }
}
