// Whether a payment is returned.
ghost use Rattle.std.specs.Prelude.{◌≡◌};
ghost use Rattle.card_events.specs.History.{at_number};
ghost use Rattle.card_fees.specs.Counting.{is_returned_until, reaches, returns_at, returns_until};
ghost use Rattle.card_model.specs.Payments as payments;
ghost use Rattle.card_model.specs.Refusals.{holds_of};
ghost use Rattle.card_posts.specs.Posted.{slot_with};

use card_events::{Day, Post, Slot};
use card_posts::Posts;

// Up to where posts are read: to the end of a day, or in front of the post with a day and a number.
#[derive(Clone, Copy)]
pub enum Until {
    Day(Day),
    Post(Day, u32),
}

/// Whether that is behind a slot.
pub fn reaches(until: &Until, slot: &Slot) -> bool
    ensures { result ≡ reaches until.now slot.now.day slot.now.number }
{
    match until {
        Until::Day(to) => slot.day <= *to,
        Until::Post(day, number) => slot.day < *day || slot.day == *day && slot.number < *number,
    }
}

// whether the post with a number is among the posts that are read
fn is_reached(posts: &Posts, number: u32, until: &Until) -> bool
    ensures { result ≡ holds_of (λ s. reaches until.now s.day s.number) (slot_with number posts.now.corrected) }
{
    match posts.slot(number as u64) {
        Some(slot) => reaches(until, &slot),
        None => false,
    }
}

fn is_return_of(post: &Post, payment: u32) -> bool
    ensures { result ≡ payments.returns payment post.now }
{
    match post {
        Post::Return { target, .. } => target.get() == payment as u64,
        _ => false,
    }
}

// whether the post with a number returns the payment
fn returns(posts: &Posts, number: u32, payment: u32) -> bool
    ensures { result ≡ returns_at payment (at_number number posts.now.history) }
{
    match posts.get(number) {
        Some(kept) => is_return_of(&kept.post, payment),
        None => false,
    }
}

// the same, where it is among the posts that are read
fn returns_until(posts: &Posts, number: u32, payment: u32, until: &Until) -> bool
    ensures { result ≡ returns_until until.now posts.now.history posts.now.corrected payment number }
{
    returns(posts, number, payment) && is_reached(posts, number, until)
}

// whether one of all that wait does so
fn any_returns(posts: &Posts, payment: u32, until: &Until) -> bool
    ensures { result ≡ is_returned_until until.now posts.now.history posts.now.corrected payment }
{
    let waiting = posts.waiting();
    for number in waiting {
        if returns_until(posts, *number, payment, until) {
            return true;
        }
    }
    false
}

// the same, where this one waits for the payment
fn this_or_other(posts: &Posts, this: u32, payment: u32, until: &Until) -> bool
    ensures { result ≡ is_returned_until until.now posts.now.history posts.now.corrected payment }
{
    if returns_until(posts, this, payment, until) {
        return true;
    }
    any_returns(posts, payment, until)
}

// Whether a Return among the posts that are read names the payment with this number. It looks at one post, or at all that wait
// where that one isn't such a Return.
pub fn is_returned(posts: &Posts, payment: u32, until: &Until) -> bool
    ensures { result ≡ is_returned_until until.now posts.now.history posts.now.corrected payment }
{
    if payment == 0 {
        return any_returns(posts, payment, until);
    }
    match posts.by(payment) {
        Some(this) => this_or_other(posts, this, payment, until),
        None => false,
    }
}
