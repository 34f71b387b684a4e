//! A law on what is held. Its function does nothing; its clause is what holds.
ghost use Rattle.card_effects.specs.HoldLaws.{HeldCoversReleases};

/// Where no Dispute is resolved twice, Held has at least what a Dispute moved whenever it is resolved.
pub fn held_covers_releases()
    ensures { HeldCoversReleases }
{}
