//! The minimum payment, what a due date asks for and whether it was paid, and penalty fees; it re-exports `card_shared` (12 CFR
//! 1026.5(b)(2)(ii), .52(b), .54, .55(b)(4)).
#![tactic(auto)]

mod counting;
mod due;
mod due_cycle;
pub mod due_laws;
mod grace;
mod late_fees;
pub mod laws;
mod left;
mod required;
mod returning;
mod tally;
pub mod tally_laws;

pub use card_model::{DueCycle, Fee, FeeKind, GraceCase};
pub use card_shared::{
    FeeTable, IndexTable, SharedRows, fees_reason, holiday_reason, index_reason, roll_reason,
};
pub use due::{met, met_in_time, owes_sixty_days, past_due};
pub use due_cycle::asked;
pub use grace::{paid, purchase_case};
pub use late_fees::{capped_fee, due_fee, late_fee, returned_fee};
pub use left::minimum_left;
pub use required::minimum;
pub use tally::{Sum, Tally};
