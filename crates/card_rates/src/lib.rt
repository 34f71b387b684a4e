//! The rate of each segment of an account on each day (12 CFR 1026.55), the segments that posts add, and the posts of a day.
#![tactic(auto)]

mod book;
mod change;
mod day;
pub mod laws;
mod make;
mod past;
mod plan;
mod rate;
mod segment;
mod segments;
mod settled;
pub mod slot_laws;

pub use book::{DayIndex, RateBook};
pub use card_shared::IndexTable;
pub use day::{DayPost, first_place, folded_at, is_folded};
pub use plan::{plan_segment, segment_at};
pub use segment::{RatedSegment, is_deferred_on, plan_sort, sort_of};
pub use segments::segments_of;
