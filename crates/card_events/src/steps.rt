//! A counter of steps, which takes no bytes and costs nothing when it runs.
ghost use Rattle.std.specs.Prelude.{◌≡◌, ◌<◌, ◌+◌, ℕ};

use std::marker::Model;
use std::sync::ledger::{Blank, Book, Ledger, Share};

/// How many steps were taken, counted in the ledger L. Only `tick` changes it, so a function that is lent a counter and
/// says by how much it rose has said how often its steps were taken. A caller that counts nothing gives a blank of
/// `Brand`.
#[derive(Drop)]
pub struct Steps<L: Ledger> {
    book: Book<L>,
    share: Share<L>,
}

impl<L: Ledger> Model for Steps<L> {
    ghost use Rattle.std.specs.Prelude.{◌<◌, ℕ};

    ghost Value = { ℕ };

    ghost view = { λ s. s.book.total };

    ghost invariant = { λ s. 0 < s.share.parts };
}

impl<L: Ledger> Steps<L> {
    ghost use Rattle.std.specs.Prelude.{◌≡◌, ◌+◌, ℕ};
    ghost use Rattle.card_events.specs.Blanks.{IsBlankOf};

    /// A counter at 0, from a blank that is the ledger's own and that has not been opened.
    pub fn new(blank: Blank) -> Steps<L>
        requires own { IsBlankOf L.name L.parts blank.name blank.parts }
        ensures { result ≡ 0 }
    {
        let (book, share) = blank.open::<L>();
        Steps { book, share }
    }

    /// One step more. It does nothing at run time.
    pub fn tick(&mut self)
        ensures { self.new ≡ self.old + 1 }
    {
        self.book.add(&mut self.share, 1);
    }
}
