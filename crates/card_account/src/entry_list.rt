// The entries of an account.
ghost use Rattle.std.specs.Prelude.{◌≡◌, IfOk};
ghost use Rattle.card_account.specs.Entries.{entries_today};
ghost use Rattle.card_model.specs.Refusals.{book_today};
ghost use Rattle.card_rates.specs.Segments.{account_segments};

use card_book::{Entry, Folded, Present};
use card_events::NoMemory;
use card_model::Segment;
use std::alloc::Global;
use std::marker::Model;

/// The entries of an account in the order of the fold, and the segments on which they are.
#[derive(Drop)]
pub struct EntryList {
    entries: Vec<Entry>,
    segments: Vec<Segment>,
}

impl Model for EntryList {
    ghost use Rattle.card_account.specs.Entries.{AccountEntries, AreListed};

    ghost Value = { AccountEntries };

    ghost view = { λ l. record { entries = l.entries.items; segments = l.segments.items } };

    ghost invariant = { λ l. AreListed l.entries.items l.segments.items };
}

impl EntryList {
    ghost use Rattle.std.specs.Prelude.{◌≡◌, ◌<◌, ◌^◌, length};
    ghost use Rattle.std.specs.List.{All};
    ghost use Rattle.card_account.specs.Entries.{AreSmallEntries};

    /// The entries, one after the other: fewer than 2^32, each at most 10^15 cents in size.
    pub fn entries(&self) -> &[Entry]
        ensures entries { result.now ≡ self.now.entries }
        ensures few { length self.now.entries < 2 ^ 32 }
        ensures small { AreSmallEntries self.now.entries }
    {
        &self.entries
    }

    /// The segments by number. Each entry is on one of them.
    pub fn segments(&self) -> &[Segment]
        ensures segments { result.now ≡ self.now.segments }
        ensures entries { All (λ e. e.segment < length self.now.segments) self.now.entries }
    {
        &self.segments
    }
}

/// The entries of an account up to the end of today, in memory of their own.
pub fn entries_today(alloc: Global, now: &Present, folded: &Folded) -> Result<EntryList, NoMemory>
    requires book { folded.now.book ≡ book_today now.now }
    requires segments { folded.now.segments ≡ account_segments now.now.shared.holidays now.now.lists.posts }
    ensures { IfOk result (λ list. list ≡ entries_today now.now) }
{
    let _opening = now.anchor();
    let _last = now.today();
    let segments = folded.segments(alloc)?;
    Ok(EntryList {
        entries: Vec::from_slice(alloc, folded.entries())?,
        segments,
    })
}
