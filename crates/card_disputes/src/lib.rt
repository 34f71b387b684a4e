//! Deadlines of disputes, credit balances and reviews, and the open tasks of an account (12 CFR 1026.11(a), .13(b)(1), (c),
//! .59).
#![tactic(auto)]

mod deadline;
mod due;
mod end;
mod increase;
mod notice;
mod order;
mod review;
mod tasks;
mod waiting;

pub use card_model::{Task, TaskKind};
pub use deadline::{ack_by, lower_by, refund_by, resolve_by};
pub use increase::has_increase;
pub use notice::{last_notice_day, named};
pub use order::in_work_order;
pub use review::review_by;
pub use tasks::work_of;
pub use waiting::{Wait, first_waiting};
