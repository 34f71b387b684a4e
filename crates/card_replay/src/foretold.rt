// What is known of a post before it is judged.
ghost use Rattle.std.specs.Prelude.{◌≡◌, ◌≤◌, true, false, min};
ghost use Rattle.card_posts.specs.Posted as posted;

use card_events::{Day, Post};

// The last minute of a day.
const LAST_MINUTE: u64 = 1_439;

/// The earlier of two days.
pub fn earlier(one: Day, other: Day) -> Day
    ensures { result ≡ min one other }
{
    if one < other { one } else { other }
}

// Whether a day lies from the opening day to today.
fn is_past(opened: Day, today: Day, day: Day) -> bool
    ensures past { result ≡ true → posted.IsPastDay opened today day }
    ensures other { result ≡ false → posted.IsPastDay opened today day → ⊥ }
{
    opened <= day && day <= today
}

/// Whether a post is about none later than so many, and a payment came in, at a minute of the day, and an Amend lies, from the opening
/// day to today. Any other post is refused.
pub fn may_come(post: &Post, opened: Day, today: Day, count: u32) -> bool
    ensures target { result ≡ true → posted.target_of post.now ≤ count }
    ensures received { result ≡ true → posted.IsReceived opened today post.now }
    ensures other { result ≡ false → posted.target_of post.now ≤ count → posted.IsReceived opened today post.now → ⊥ }
{
    match *post {
        Post::Return { target, .. } => target.get() <= count as u64,
        Post::Dispute { target, .. } => target.get() <= count as u64,
        Post::Resolve { target, .. } => target.get() <= count as u64,
        Post::Amend { target, day, .. } => {
            target.get() <= count as u64 && is_past(opened, today, day)
        }
        Post::Payment { day, minute, .. } => {
            is_past(opened, today, day) && minute.get() <= LAST_MINUTE
        }
        _ => true,
    }
}
