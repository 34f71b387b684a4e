//! Kept rows in a database of `sqlite`, in memory or over a file: one table, and three statements.
#![tactic(auto)]

mod append;
mod fault;
mod file;
mod fits;
mod flush;
mod keeper;
pub mod laws;
mod load;
mod opening;
mod store;
mod told;
mod waiting;

pub use file::SqliteKeeper;
pub use flush::Lost;
pub use store::StoreKeeper;
pub use told::Told;
pub use waiting::{Ended, Waiting, WaitingKeeper};
