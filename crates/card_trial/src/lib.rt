//! Totals of all entries by day and kind, and the text of a trial balance.
#![tactic(auto)]

pub mod laws;
mod ledger;
mod side;
mod sums;
mod text;
mod totals;

pub use ledger::LedgerDesk;
pub use side::Side;
pub use text::trial_text;
pub use totals::Totals;
