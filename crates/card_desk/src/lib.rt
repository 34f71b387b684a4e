//! The machine of accounts: one request at a time, each with its reply and, where it is newly accepted, its kept row.
#![tactic(auto)]

mod desk;
mod fault;
mod index;
mod keep;
pub mod laws;
mod load;
mod name_key;
mod row;
mod share;
pub mod uncounted;
mod view;

pub use card_account::EntryList;
pub use desk::Desk;
pub use fault::{Fault, LoadFault};
pub use view::{Ask, View};
