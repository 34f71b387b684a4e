// Taking an account back to what a post leaves of its book.
ghost use Rattle.std.specs.Prelude.{◌≡◌, ℕ};
ghost use Rattle.card_replay.specs.Changes.{HasRewound, IsTaken};
ghost use Rattle.card_replay.specs.Replays.{day_of, day_reached};

use crate::change::TakenBack;
use card_past::{BookIfAny, Eve, Past, cut};

// Takes a Book and its past back to an earlier day; the eve is dropped. It doesn't allocate.
fn take(book: &mut BookIfAny, past: &mut Past, eve: &mut Option<Eve>, rewound: TakenBack)
    ensures { (opened : ℕ) → HasRewound opened rewound (record { reached = day_reached opened (day_of book.old); book = book.old; past = past.old; eve = eve.old }) (record { reached = day_reached opened (day_of book.new); book = book.new; past = past.new; eve = eve.new }) }
{
    *eve = None;
    *book = rewound.book;
    cut(past, &rewound.ends);
}

/// Takes a Book and its past back to an earlier day, or before the opening, where a post asks for it; the eve is dropped. Else all stays.
/// It doesn't allocate.
pub fn take_if_any(
    book: &mut BookIfAny,
    past: &mut Past,
    eve: &mut Option<Eve>,
    rewound: Option<TakenBack>,
)
    ensures { (opened : ℕ) → IsTaken opened rewound (record { reached = day_reached opened (day_of book.old); book = book.old; past = past.old; eve = eve.old }) (record { reached = day_reached opened (day_of book.new); book = book.new; past = past.new; eve = eve.new }) }
{
    if let Some(rewound) = rewound {
        take(book, past, eve, rewound);
    }
}
