ghost use Rattle.std.specs.Prelude.{◌≡◌, Some};
ghost use Rattle.card_lines.specs.Replies as spec;

use card_events::{Cents, Day, Refusal};
use std::fmt;

/// The value that some refusals have.
#[derive(Clone, Copy)]
pub enum RefusalValue {
    /// The number of a post, or of a term.
    Number(u64),
    Cents(Cents),
    Day(Day),
}

impl fmt::Display for RefusalValue {
    ghost use Rattle.std.specs.Prelude.{Some};
    ghost use Rattle.card_lines.specs.Replies.{value_text};

    ghost output = { λ v. Some (value_text v) };

    fn fmt<W: fmt::Write>(&self, f: &mut fmt::Formatter<W>) -> fmt::Result {
        match self {
            RefusalValue::Number(number) => write!(f, "{number}"),
            RefusalValue::Cents(cents) => write!(f, "{cents}"),
            RefusalValue::Day(day) => write!(f, "{day}"),
        }
    }
}

/// The name of the refusal, as replies have it.
pub fn refusal_name(refusal: &Refusal) -> &'static str
    ensures { result.now ≡ spec.refusal_name refusal.now }
{
    match refusal {
        Refusal::UnknownAccount => "UnknownAccount",
        Refusal::AccountExists => "AccountExists",
        Refusal::KeyReused(_) => "KeyReused",
        Refusal::BadTerms(_) => "BadTerms",
        Refusal::AmountRange => "AmountRange",
        Refusal::DayAhead => "DayAhead",
        Refusal::DayBeforeOpen => "DayBeforeOpen",
        Refusal::UnknownPlan => "UnknownPlan",
        Refusal::OutsidePlan => "OutsidePlan",
        Refusal::PlanEndNotClosing(_) => "PlanEndNotClosing",
        Refusal::PlanTooShort => "PlanTooShort",
        Refusal::SegmentsFull => "SegmentsFull",
        Refusal::WrongEntry(_) => "WrongEntry",
        Refusal::AlreadyReturned(_) => "AlreadyReturned",
        Refusal::NoticeTooShort(_) => "NoticeTooShort",
        Refusal::FirstYear(_) => "FirstYear",
        Refusal::NoticePending(_) => "NoticePending",
        Refusal::NotDelinquent => "NotDelinquent",
        Refusal::DisputeLate(_) => "DisputeLate",
        Refusal::DisputeKnown(_) => "DisputeKnown",
        Refusal::NoOpenDispute => "NoOpenDispute",
        Refusal::NotClosed(_) => "NotClosed",
        Refusal::RefundTooLarge(_) => "RefundTooLarge",
        Refusal::NothingToReview => "NothingToReview",
        Refusal::AccountFull => "AccountFull",
        Refusal::LedgerFull => "LedgerFull",
        Refusal::RollBack(_) => "RollBack",
        Refusal::RollTooFar => "RollTooFar",
        Refusal::PastRow(_) => "PastRow",
        Refusal::NoIndex => "NoIndex",
    }
}

/// The value of the refusal, where it has one.
pub fn refusal_value(refusal: &Refusal) -> Option<RefusalValue>
    ensures { result ≡ spec.refusal_value refusal.now }
{
    match refusal {
        Refusal::KeyReused(number)
        | Refusal::BadTerms(number)
        | Refusal::WrongEntry(number)
        | Refusal::AlreadyReturned(number)
        | Refusal::DisputeKnown(number) => Some(RefusalValue::Number(*number)),
        Refusal::PlanEndNotClosing(day)
        | Refusal::NoticeTooShort(day)
        | Refusal::FirstYear(day)
        | Refusal::NoticePending(day)
        | Refusal::DisputeLate(day)
        | Refusal::NotClosed(day)
        | Refusal::RollBack(day)
        | Refusal::PastRow(day) => Some(RefusalValue::Day(*day)),
        Refusal::RefundTooLarge(cents) => Some(RefusalValue::Cents(*cents)),
        _ => None,
    }
}
