//! What is recorded of an account up to a day, folded on, and the statements made from it.
#![tactic(auto)]

mod book_if_any;
mod eve;
mod folding;
mod forward;
mod issued;
mod issuing;
mod making;
mod owed;
mod past;
mod statement;
mod told;

pub use book_if_any::BookIfAny;
pub use eve::{Eve, eve_of};
pub use forward::reach;
pub use issued::IssuedIfAny;
pub use issuing::{closed_number, issued_by, push_issued};
pub use making::{make_beside, reach_with_all};
pub use owed::{Owed, is_reached, owed_for, push_owed};
pub use past::{Ends, Past, cut, ends_at, ends_of, entries_up_to, first_ends, nothing};
pub use statement::statement_at;
pub use told::{Told, tell};
