ghost use Rattle.std.specs.Prelude.{◌≡◌, Some, IfSome};
ghost use Rattle.std.specs.Option.{option_map};
ghost use Rattle.card_past.specs.Foldings.{day_of};

use crate::book_if_any::BookIfAny;
use crate::past::Ends;
use card_events::Day;

/// A Book of a day before the one last reached, that day, and where the lists of the past ended at its end.
#[derive(Drop)]
pub struct Eve {
    pub book: BookIfAny,
    pub day: Day,
    pub ends: Ends,
}

/// A Book at the end of the last day folded, with that day; none where none was.
pub fn eve_of(book: BookIfAny, ends: Ends) -> Option<Eve>
    ensures kept { IfSome result (λ e. (e.book ≡ book) × (day_of book ≡ Some e.day) × (e.ends ≡ ends)) }
    ensures day { option_map (λ e. e.day) result ≡ day_of book }
{
    match book.day() {
        Some(day) => Some(Eve { book, day, ends }),
        None => None,
    }
}
