//! What an account's history is written in: cents, rates and interest; civil days, billing dates, business days and the day on which
//! a payment is credited; posts, requests and replies; and a counter of steps (12 CFR 1026.5(b)(2)(ii), .7(b)(11), .10, .14(b)).
#![tactic(auto)]

mod anchor;
mod billing;
mod calendar;
mod credit;
mod dated;
mod day;
mod kept;
mod later;
pub mod laws;
mod limits;
mod memory;
mod money;
mod month_table;
mod name;
mod number;
mod post;
mod rate;
mod reply;
mod request;
mod steps;

pub use anchor::{Anchor, Channel};
pub use billing::{closing, closing_date, cycle_of, due, due_date};
pub use calendar::{Calendar, next_business};
pub use credit::credit_day;
pub use day::Day;
pub use kept::{Kept, Slot, numbered};
pub use later::{six_months_after, year_after};
pub use limits::{
    ACCOUNT_LIMIT, AMOUNT_LIMIT, DISPUTE_DAYS, LATE_DAYS, LOWER_DAYS, NOTICE_DAYS, POST_LIMIT,
    RATE_LIMIT, STATEMENT_DAYS,
};
pub use memory::NoMemory;
pub use money::Money;
pub use name::{Name, is_name};
pub use number::Num;
pub use post::{Category, Finding, Place, PlanKind, Post, Terms};
pub use rate::{Bp, daily, interest, portion};
pub use reply::{Refusal, Reply};
pub use request::{Request, Shared};
pub use steps::Steps;

/// Whole cents, signed.
pub type Cents = i64;
