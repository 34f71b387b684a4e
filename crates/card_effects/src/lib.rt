//! What posts do on their day: charges, payments, credits, refunds, returned payments and penalty fees
//! (12 CFR 1026.10, .11(a), .52(b), .53), disputes of charges and their resolutions (12 CFR 1026.13).
#![tactic(auto)]

mod charges;
mod debits;
mod disputes;
pub mod hold_laws;
pub mod laws;
mod payments;
mod place;
mod ranks;
mod resolves;
mod returns;
mod rows;
mod seen;

pub use debits::{charge, fee, refund};
pub use disputes::dispute;
pub use payments::{credit, payment};
pub use resolves::resolve;
pub use returns::returned;
pub use rows::{repay, unpay};
