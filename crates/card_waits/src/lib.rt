//! The posts of an account that wait for another one.
#![tactic(auto)]

mod post;
mod wait_table;

pub use wait_table::WaitTable;
