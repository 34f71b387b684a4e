// What is asked of all posts with a day of their own, before and behind what is asked of their kind.
ghost use Rattle.std.specs.Prelude.{◌≡◌, length};
ghost use Rattle.std.specs.Option.{option_or};
ghost use Rattle.card_model.specs.Refusals as spec;
ghost use Rattle.card_reasons.specs.Reasons as reasons;

use card_events::{AMOUNT_LIMIT, Day, Num, POST_LIMIT, Refusal};
use card_posts::Posts;

// Before what is asked of its kind: an amount or a rate, and the day, in an account that was opened on a day.
#[tactic(auto, unfolding(crate::specs::Reasons::early_reason))]
fn early_reason(out: bool, today: Day, opened: Day, day: Day) -> Option<Refusal>
    ensures { result ≡ reasons.early_reason out today opened day }
{
    if out {
        Some(Refusal::AmountRange)
    } else if today < day {
        Some(Refusal::DayAhead)
    } else if day < opened {
        Some(Refusal::DayBeforeOpen)
    } else {
        None
    }
}

/// Behind all else: the account has 200,000 posts.
pub fn full_reason(posts: &Posts) -> Option<Refusal>
    ensures { result ≡ reasons.full_reason (length posts.now.history) }
{
    if posts.len() >= POST_LIMIT {
        Some(Refusal::AccountFull)
    } else {
        None
    }
}

/// The first of two reasons.
pub fn first_of(first: Option<Refusal>, later: Option<Refusal>) -> Option<Refusal>
    ensures { result ≡ option_or first later }
{
    match first {
        Some(refusal) => Some(refusal),
        None => later,
    }
}

/// The first reason against a post of a day, in an account that was opened on a day: whether an amount or a rate is out of its
/// range, the day, what its kind adds, and the number of posts.
pub fn in_order(
    posts: &Posts,
    out: bool,
    today: Day,
    opened: Day,
    day: Day,
    added: Option<Refusal>,
) -> Option<Refusal>
    ensures { result ≡ option_or (reasons.early_reason out today opened day) (option_or added (reasons.full_reason (length posts.now.history))) }
{
    let early = early_reason(out, today, opened, day);
    let later = first_of(added, full_reason(posts));
    first_of(early, later)
}

/// Whether an amount in cents is 0, or above the greatest amount.
pub fn is_no_amount(cents: Num) -> bool
    ensures { result ≡ spec.is_no_amount cents }
{
    let cents = cents.get();
    cents == 0 || cents > AMOUNT_LIMIT
}
