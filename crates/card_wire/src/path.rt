// Paths of targets.
ghost use Rattle.std.specs.Prelude.{◌≡◌};
ghost use Rattle.card_wire.specs.Routes as spec;

/// A target up to its question mark.
#[tactic(auto, unfolding(crate::specs::Routes::path_of))]
pub fn path_of(target: &str) -> &str
    ensures { result.now ≡ spec.path_of target.now }
{
    match target.split_once('?') {
        Some((path, _)) => path,
        None => target,
    }
}
