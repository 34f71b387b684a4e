//! The segments of an account, their balances, the entries that move them, and where the cents of a payment or a merchant's
//! credit go and come back from (12 CFR 1026.53).
#![tactic(auto)]

mod allocation;
pub mod allocation_laws;
mod before;
mod choice;
pub mod laws;
mod moves;
mod part_moves;
mod parts;
mod pay;
mod rank;
mod rule;
mod segments;

pub use allocation::{allocate, place_credit, sole_parts};
pub use card_model::{Entry, EntryKind, Note, Segment, Sort};
pub use part_moves::{put_back, take};
pub use parts::Parts;
pub use rank::Rank;
pub use segments::Segments;
