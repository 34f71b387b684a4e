//! Accounts with their book folded to the day last reached: a post takes the book back to a day before what it changes.
#![tactic(auto)]

mod change;
mod foretold;
pub mod laws;
mod replay;
mod rewinding;
mod taking;

pub use change::Change;
pub use replay::Replay;
