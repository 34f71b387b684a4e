//! Why a post isn't accepted: the first reason against it, in order, with its value (12 CFR 1026.9, .11, .13, .55, .59).
#![tactic(auto)]

mod amend;
mod bill;
mod book;
mod closings;
mod day;
mod dispute;
mod notice;
mod open;
mod place;
mod plan;
mod reason;
mod returned;
mod review;
mod search;

pub use bill::ordered_bill_reason;
pub use book::{penalty_reason, refund_reason};
pub use closings::closing_of;
pub use day::is_no_amount;
pub use open::open_reason;
pub use reason::post_reason;
