//! The book of an account, folded from its opening day on, from one break day to the next.
#![tactic(auto)]

mod copies;
mod earlier;
mod folded;
mod kept_book;
pub mod laws;
mod marks;
mod sheet;
mod statement;

pub use card_daily::{
    Amounts, Cycle, Entry, Fee, Fees, Inputs, Issued, PackedSheet, Present, Statement, Track,
    row_for,
};
pub use card_statement::Sheet;
pub use folded::{Folded, fees_up_to};
pub use kept_book::Book;
pub use marks::Accruing;
pub use statement::statement_of;
