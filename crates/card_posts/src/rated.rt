// The posts that set rates.
ghost use Rattle.std.specs.Prelude.{◌≡◌, if◌then◌else◌};
ghost use Rattle.card_posts.specs.Posted.{sets_rates};

use card_events::Post;

// Whether a post sets rates of the account.
fn sets_rates(post: &Post) -> bool
    ensures { result ≡ sets_rates post.now }
{
    matches!(
        post,
        Post::Plan { .. } | Post::Notice { .. } | Post::Lower { .. }
    )
}

// Behind how many posts none sets rates, once the post with a number stands behind them.
pub fn rated_with(rated: u32, number: u32, post: &Post) -> u32
    ensures { result ≡ (if sets_rates post.now then number else rated) }
{
    if sets_rates(post) { number } else { rated }
}
