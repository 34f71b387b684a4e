// Bills whose statement isn't made yet.
ghost use Rattle.std.specs.Prelude.{◌≡◌, ◌<◌, ◌≤◌, ◌++◌, ℕ, false, nat_le, None, IfSome, vec_len, vec_capacity};
ghost use Rattle.std.specs.List.{All, list_any};
ghost use Rattle.card_book.specs.Laws.{is_bill};
ghost use Rattle.card_events.specs.Billing.{closing};
ghost use Rattle.card_events.specs.History.{anchor_of};
ghost use Rattle.card_events.specs.Range.{last_calendar_day};
ghost use Rattle.card_events.specs.declared.post.Post.TheVariants as variants;
ghost use Rattle.card_model.specs.CycleDays.{IsOpening};
ghost use Rattle.card_past.specs.Owes.{IsBillOf, owed_as};

use card_events::{Day, Post, closing_date};
use card_posts::Posts;

/// An accepted Bill whose statement isn't made yet: its number, and the closing of its cycle.
#[derive(Clone, Copy)]
pub struct Owed {
    pub bill: u32,
    pub closing: Day,
}

/// Whether a change from a day on reaches back to the closing of one of these.
pub fn is_reached(owed: &[Owed], from: Day) -> bool
    ensures value { result ≡ list_any (λ o. nat_le from o.closing) owed.now }
    ensures none { result ≡ false → All (λ o. o.closing < from) owed.now }
{
    owed.iter().any(|one| from <= one.closing)
}

/// The Bill that a post is behind these posts: its number, and the closing of its cycle, none where it is none.
pub fn owed_for(posts: &Posts, post: &Post) -> Option<Owed>
    requires opening { IsOpening (anchor_of posts.now.history) }
    requires closed { (cycle : ℕ) → post.now ≡ variants.Bill cycle → (1 ≤ cycle) × (closing (anchor_of posts.now.history) cycle ≤ last_calendar_day) }
    ensures bill { IfSome result (IsBillOf posts.now.history post.now) }
    ensures none { result ≡ None → is_bill post.now ≡ false }
{
    match post {
        Post::Bill { cycle } => {
            let bill = posts.len() + 1;
            let closing = closing_date(&posts.anchor(), cycle.get() as u32);
            Some(Owed { bill, closing })
        }
        _ => None,
    }
}

/// Adds one, where there is one, with room for it.
pub fn push_owed(list: &mut Vec<Owed>, one: Option<Owed>)
    requires { vec_len list.old < vec_capacity list.old }
    ensures { list.new.items ≡ list.old.items ++ owed_as one }
{
    if let Some(one) = one {
        list.push_reserved(one);
    }
}
