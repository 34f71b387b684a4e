// A Book where a day is reached.
use card_book::{Book, Inputs};
use card_events::{Day, NoMemory};
use std::alloc::Global;
use std::marker::Model;

/// The Book of the day last reached, none where no day is. It lies in memory of its own: an account that was just opened has none, and
/// one that is moved stays small. Clauses see it as an option.
#[derive(Drop)]
pub struct BookIfAny {
    book: Option<Box<Book>>,
}

impl Model for BookIfAny {
    ghost use Rattle.std.specs.Prelude.{Option};
    ghost use Rattle.std.specs.Option.{option_map};
    ghost use Rattle.card_book.specs.Stands.{Summary};

    ghost Value = { Option Summary };

    ghost view = { λ r. option_map (λ b. b.value) r.book };
}

impl BookIfAny {
    ghost use Rattle.std.specs.Prelude.{◌≡◌, true, None, Some, IfOk};
    ghost use Rattle.card_daily.specs.Given.{Given};
    ghost use Rattle.card_daily.specs.declared.track.Track.{Track};
    ghost use Rattle.card_book.specs.Stands.{IsRequestDay, StandsFor};
    ghost use Rattle.card_past.specs.Foldings.{IsWhole, Stands, day_of};

    /// None. It doesn't allocate.
    pub fn none() -> BookIfAny
        ensures { result ≡ None }
    {
        BookIfAny { book: None }
    }

    /// This one.
    pub fn of(alloc: Global, book: Book) -> Result<BookIfAny, NoMemory>
        ensures { IfOk result (λ r. r ≡ Some book) }
    {
        let book = Box::new(alloc, book)?;
        Ok(BookIfAny { book: Some(book) })
    }

    /// The last day folded, at most 2099-12-31; None where none was.
    pub fn day(&self) -> Option<Day>
        ensures value { result ≡ day_of self.now }
        ensures last { IsRequestDay result }
    {
        match &self.book {
            Some(book) => book.day(),
            None => None,
        }
    }

    /// It, where there is one.
    pub fn lent(&self) -> &Book
        requires there { self.now ≡ None → ⊥ }
        ensures { self.now ≡ Some result.now }
    {
        match &self.book {
            Some(book) => book,
            None => unreachable!(),
        }
    }

    /// The same in memory of its own: it stands for what this one stands for.
    pub fn copy(&self, alloc: Global) -> Result<BookIfAny, NoMemory>
        ensures stands { IfOk result (λ b. (g : Given) (t : Track) → Stands g self.now t → Stands g b t) }
        ensures day { IfOk result (λ b. day_of b ≡ day_of self.now) }
        ensures whole { IfOk result (λ b. IsWhole self.now → IsWhole b) }
    {
        match &self.book {
            Some(book) => {
                let copy = book.copy(alloc)?;
                BookIfAny::of(alloc, copy)
            }
            None => Ok(BookIfAny::none()),
        }
    }

    /// A Book to be folded on: a copy of this one, and where there is none the Book before the opening day.
    pub fn to_fold_on(&self, alloc: Global, inputs: &Inputs) -> Result<Book, NoMemory>
        ensures stands { IfOk result (λ b. (t : Track) → Stands inputs.now self.now t → StandsFor inputs.now b t) }
        ensures day { IfOk result (λ b. b.day ≡ day_of self.now) }
        ensures whole { IfOk result (λ b. IsWhole self.now → b.whole ≡ true) }
    {
        match &self.book {
            Some(book) => book.copy(alloc),
            None => Book::start(alloc, inputs),
        }
    }
}
