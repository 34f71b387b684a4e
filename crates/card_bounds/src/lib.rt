//! How large balances, rows and sums can be, and where entries lie: laws of the fold with long proofs.
#![tactic(auto)]

pub mod laws;
