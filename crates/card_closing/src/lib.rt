//! Rows of days, and the closing of a cycle: interest, the minimum payment, the grace amount, and the record of the cycle; and
//! when a penalty rate may begin, and when it ends (12 CFR 1026.7(b), .14(b), .54, .55(b)(4)).
#![tactic(auto)]

mod accrual;
mod amount;
mod amounts;
mod case;
mod closing;
mod cycle;
mod fees;
mod few;
pub mod grace_laws;
mod interest;
pub mod laws;
mod penalty_end;
mod record;
mod rows;
mod runs;
mod turn;

pub use accrual::Accrual;
pub use amounts::Amounts;
pub use card_model::{Entry, Fee, GraceCase};
pub use case::{case_of, is_deferred};
pub use closing::{Closing, close};
pub use cycle::Cycle;
pub use fees::Fees;
pub use penalty_end::{awaits_end, begin_after, is_due_after};
pub use rows::{CycleRows, Repayment};
