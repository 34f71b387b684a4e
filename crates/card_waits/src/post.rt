// What a post waits for.
ghost use Rattle.std.specs.Prelude.{◌≡◌};
ghost use Rattle.card_waits.specs.Waits as spec;

use card_events::Post;

// Whether a post counts no earlier than another one that it names.
pub fn waits(post: &Post) -> bool
    ensures { result ≡ spec.waits post.now }
{
    matches!(
        post,
        Post::Return { .. } | Post::Dispute { .. } | Post::Resolve { .. }
    )
}

// The number of the post for which a post waits, 0 for none.
pub fn awaited(post: &Post) -> u64
    ensures { result ≡ spec.awaited post.now }
{
    match post {
        Post::Return { target, .. } | Post::Dispute { target, .. } | Post::Resolve { target, .. } =>
            target.get(),
        _ => 0,
    }
}
