//! Texts: lines of requests and replies, open tasks, statements and their repayment, and the entries of an account as CSV; and the
//! records of CSV.
#![tactic(auto)]

mod absent;
mod columns;
mod export;
mod header;
mod item;
mod kind;
mod post;
mod reading;
mod record;
mod record_columns;
mod records;
mod repayment;
mod statement;
mod tasks;
mod wide_money;

pub use absent::none_line;
pub use card_lines::{Line, read_line, reply_text, show_text};
pub use export::{export_text, kind_word};
pub use item::Item;
pub use record::import_record;
pub use records::Records;
pub use repayment::repayment_text;
pub use statement::statement_text;
pub use tasks::tasks_text;
pub use wide_money::WideMoney;
