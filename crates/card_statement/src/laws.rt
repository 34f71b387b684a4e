//! Laws of statements, for all lists of posts.
ghost use Rattle.card_statement.specs.Laws.{ClosingsHaveRates, CyclesStandAtClosing, StatementsAddUp};
ghost use Rattle.card_statement.specs.Lines.{LinesAreOfTheBook};

/// On every statement, as it is issued and as it is now, the previous balance, its corrections, the transactions and the
/// interest add up to the new balance, to the cent (12 CFR 1026.7(b)).
pub fn statements_add_up()
    ensures { StatementsAddUp }
{}

/// On every statement each amount that is owed at the closing has the line of the rate of its segment (12 CFR 1026.7(b)(4)).
pub fn closings_have_rates()
    ensures { ClosingsHaveRates }
{}

/// Where segments, rates, balances and accruals stand for a book, the lines of rates and of deferred interest, and the amounts
/// of segments, that are read from them are those of the book.
pub fn lines_are_of_the_book()
    ensures { LinesAreOfTheBook }
{}

/// A cycle that is closed in the book of some day stands in the book of its closing, at its number; it continues from what was
/// owed at the closing before; and what its entries move together is at most 10^17 cents, within the limits on posts.
pub fn cycles_stand_at_closing()
    ensures { CyclesStandAtClosing }
{}
