//! What a periodic statement shows beside its cycle (12 CFR 1026.7(b)), and that its lines add up.
#![tactic(auto)]

mod deferred;
mod earlier;
pub mod laws;
mod moves;
mod packed;
mod packing;
mod rate;
mod sheet;
mod standing;
mod unpacking;
mod years;

pub use card_model::{DeferredLine, Move, RateLine};
pub use deferred::{closing_amounts, deferred_lines};
pub use earlier::{
    corrections, cycle_entries, has_due_payment, late_up_to, owed_before, previous_balance,
};
pub use moves::moves_of;
pub use packed::PackedSheet;
pub use rate::rate_lines;
pub use sheet::Sheet;
pub use years::{fees_year, interest_year};
