//! A demonstration: accounts that charge, pay and correct, by requests that a generator of numbers draws, over a ledger of its
//! own, and the results of these requests.
#![tactic(auto)]

mod generator;
pub mod laws;
mod ledger;
mod names;
mod progress;
mod requests;
mod summary;
mod tally;
mod text;
mod totals;

pub use text::demo_text;
