//! Lines of requests, and the texts of replies.
#![tactic(auto)]

mod fields;
mod forms;
mod line;
mod line_reading;
mod post_reading;
mod refusal;
mod reply;
mod word;

pub use forms::{
    are_digits, digits_value, read_category, read_channel, read_day, read_finding, read_number,
    read_place, read_plan_kind,
};
pub use line::{BadField, Line};
pub use line_reading::read_line;
pub use refusal::{RefusalValue, refusal_name, refusal_value};
pub use reply::{accepted_line, bad_text, name_text, reply_text, show_text};
pub use word::{PostKind, Word, read_word};
