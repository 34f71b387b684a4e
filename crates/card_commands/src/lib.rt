//! The commands of the program and its top call: reads request lines or records, writes a reply to each, and keeps a row of
//! each newly accepted request; or writes what the ledger holds; or answers requests over HTTP.
#![tactic(auto)]

mod answer;
mod call;
mod demo;
mod ended;
mod exit;
mod handle;
mod import;
mod item;
pub mod laws;
mod load;
mod progress;
mod run;
mod serve;
mod stop;
mod tell;
mod trial;

pub use call::billctl;
pub use exit::{Keeping, exit_status, keeping_of, memory_status};
