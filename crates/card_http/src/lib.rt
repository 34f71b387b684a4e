//! One connection of HTTP/1.1 to the ledger: its request, its outcome, and its answer; and the texts of what is asked.
#![tactic(auto)]

mod answer;
mod answering;
mod asking;
mod outcome;
mod sending;
mod served;
mod serving;
mod status;
mod texts;

pub use answer::{answer_text, early_text, reply_json};
pub use outcome::Outcome;
pub use served::Served;
pub use serving::serve_one;
pub use status::Status;
pub use texts::{repaid_text, told_text, view_text};
