//! What all accounts share: the holidays, the amounts of penalty fees and the index of variable rates, as one value, and why a
//! shared request isn't accepted (12 CFR 1026.10, .52(b)(1)(ii), .55(b)(2)).
#![tactic(auto)]

mod index_table;
mod shared_reason;
mod shared_rows;
mod table;

pub use index_table::IndexTable;
pub use shared_reason::{fees_reason, holiday_reason, index_reason, roll_reason};
pub use shared_rows::SharedRows;
pub use table::FeeTable;
