//! One account: its posts and its issued statements, the result of a post on it, and what is shown of it.
#![tactic(auto)]

mod account;
mod cycles;
mod entry_list;
mod judge;
pub mod laws;
mod owing;
mod reach;
mod statement;
mod tasks;
mod verdict;
mod work;

pub use account::{Account, is_open};
pub use card_daily::Statement;
pub use card_reasons::open_reason;
pub use entry_list::EntryList;
pub use owing::Owing;
pub use reach::reach_today;
pub use tasks::{Tasks, work_today};
pub use verdict::Verdict;
