//! The end of a day of an account, its row on each segment and its closing, and with it the whole day; and spans of days,
//! which go on to the next day on which something may happen.
#![tactic(auto)]

mod begin;
mod break_day;
mod closing;
mod cursor;
mod day;
mod room;
mod rows;

pub use begin::{empty_rows, opening_day, start};
pub use break_day::span_end;
pub use closing::close_day;
pub use cursor::{Cursor, CycleDates};
pub use day::{next_day, next_span};
pub use room::make_cycle_room;
pub use rows::{pass_quiet, row_day};
