//! The accepted posts of an account, and its corrected list.
#![tactic(auto)]

mod correction;
mod correction_table;
mod draft;
mod effect;
mod enter;
mod foretold;
pub mod laws;
mod make;
mod order;
mod posts;
mod rated;
mod refresh;

pub use draft::Draft;
pub use posts::{Posts, Pushed};

/// Transactions that lie so many days after a Notice, or more, are owed on its vintage, which bears the increased rate; those
/// of the 14 days before stay on the one before (12 CFR 1026.55(b)(3)).
pub const VINTAGE_DAYS: u32 = 15;
