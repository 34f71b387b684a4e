ghost use Rattle.std.specs.Prelude.{◌≡◌, Bool, true};
ghost use Rattle.card_sqlite.specs.Told.{IsShown};

use sqlite::{Alter, FileStore, MemStore};
use sqlite_disk::Disk;

/// A store of `sqlite`, and whether it shows clean and in order at every moment, as the one in memory.
pub trait Told: Alter {
    /// Whether it does.
    ghost tells: { Bool };

    /// Then every store of the type is shown so.
    ghost shows: { (s : Self) → tells ≡ true → IsShown (Self.Store.view s) };
}

impl Told for MemStore {
    ghost use Rattle.card_sqlite.specs.Told.{memory_shows};

    ghost tells = { true };

    ghost shows = { λ s _. memory_shows s };
}

impl<D: Disk> Told for FileStore<D> {
    ghost use Rattle.std.specs.Prelude.{false};
    ghost use Rattle.card_sqlite.specs.Told.{never};

    ghost tells = { false };

    ghost shows = { λ s no. never no };
}
