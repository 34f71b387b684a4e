//! The words of a call: which command they are, and what is said of words that are none.
#![tactic(auto)]

mod command;
mod demonstration;

pub use command::{Command, command_of, usage_line};
pub use demonstration::Demonstration;
