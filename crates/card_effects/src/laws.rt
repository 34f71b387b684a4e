//! Laws on the segments of a day. Their functions do nothing; their clauses are what holds.
ghost use Rattle.card_effects.specs.Laws.{BooksOfADay};

/// The segments that all posts add and their rates are of one account. The segments of a day are those of them that are
/// there by then, so a book in which the others have no balance stands behind the rates of all posts with its penalties.
pub fn books_of_a_day()
    ensures { BooksOfADay }
{}
