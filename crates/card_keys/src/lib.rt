//! The numbers of an account's posts by their keys.
#![tactic(auto)]

mod index;
mod key_table;

pub use index::{enter_key, find, leave_key, make_room, rebuilt};
pub use key_table::KeyTable;
