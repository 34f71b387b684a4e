//! The morning and the posts of a day of an account: what its due date brings, and what its posts do.
#![tactic(auto)]

mod due;
mod holds;
mod inputs;
pub mod laws;
mod penalties;
mod place;
mod posts;
mod present;
mod returns;
mod state;
mod track;

pub use card_closing::{Amounts, Cycle, Entry, Fee, Fees};
pub use card_statement::PackedSheet;
pub use due::{due_cycle, due_day};
pub use inputs::{Inputs, row_for};
pub use penalties::is_sixty_days_late;
pub use place::place_near;
pub use posts::post_day;
pub use present::Present;
pub use state::State;
pub use track::{Issued, Statement, Track};
