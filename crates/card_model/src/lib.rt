//! The ledger's types, and the definitions of its fold: what each post, day and closing does to an account.
#![tactic(auto)]

mod due_cycle;
mod entry;
mod fee;
mod grace;
mod holding;
pub mod laws;
mod lines;
mod segment;
mod task;

pub use due_cycle::DueCycle;
pub use entry::{Entry, EntryKind, Note};
pub use fee::{Cause, Fee, FeeKind};
pub use grace::GraceCase;
pub use holding::Holding;
pub use lines::{DeferredLine, Move, RateLine};
pub use segment::{Interval, Segment, Sort};
pub use task::{Task, TaskKind};
