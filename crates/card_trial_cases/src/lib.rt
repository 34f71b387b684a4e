//! A ledger with totals, over requests whose debits and credits were worked out apart from it.
#![tactic(auto)]

#[cfg(test)]
mod keeper;
#[cfg(test)]
mod trials;
