// How the balances of a statement are repaid, as text.
ghost use Rattle.std.specs.Prelude.{◌≡◌, ◌==◌, ◌++◌, ◌≤◌, find, length, map, IfOk, OnOk};
ghost use Rattle.std.specs.Option.{option_copied};
ghost use Rattle.std.specs.String.{string_bytes};
ghost use Rattle.card_repay.specs.Amortization.{total};
ghost use Rattle.card_repay.specs.Limits.{item_limit, owing_limit};
ghost use Rattle.card_text.specs.Repayment as spec;

use crate::columns::{push_both, push_end};
use card_closing::Amounts;
use card_events::{Bp, Cents, Money, NoMemory};
use card_repay::{AtMinimum, In36, Owing, at_minimum, in_36};
use card_statement::{RateLine, Sheet};
use std::alloc::Global;

// The line of the rate of a segment.
fn line_of(lines: &[RateLine], segment: u8) -> Option<&RateLine>
    ensures { option_copied result ≡ find (λ l. l.segment == segment) lines.now }
{
    lines.iter().find(|line| line.segment == segment)
}

// Its rate; 0 without a line.
fn rate_of(lines: &[RateLine], segment: u8) -> Bp
    ensures { result ≡ spec.rate_of segment lines.now }
{
    match line_of(lines, segment) {
        Some(line) => line.rate,
        None => Bp::new(0).unwrap(),
    }
}

// What is owed on a segment, a pair of its number and cents.
fn owing_of(lines: &[RateLine], amount: (u8, u64)) -> Owing
    ensures { result ≡ spec.owing_of lines.now amount }
{
    Owing {
        cents: amount.1,
        rate: rate_of(lines, amount.0),
    }
}

// What is owed on each of some segments.
fn owing_at(alloc: Global, lines: &[RateLine], amounts: &Amounts) -> Result<Vec<Owing>, NoMemory>
    ensures { IfOk result (λ owing. owing.items ≡ map (spec.owing_of lines.now) amounts.now) }
{
    let mut owing = Vec::new(alloc);
    for place in 0..amounts.len() {
        owing.push(owing_of(lines, amounts.get(place)))?;
    }
    Ok(owing)
}

// What is owed on each segment of a statement. It can be repaid.
#[tactic(auto, using(crate::proofs::Repaid::total_is), unfolding(crate::specs::Repayment::owing_on))]
fn owing_on(alloc: Global, sheet: &Sheet) -> Result<Vec<Owing>, NoMemory>
    ensures items { IfOk result (λ owing. owing.items ≡ spec.owing_on sheet.now) }
    ensures few { IfOk result (λ owing. length owing.items ≤ item_limit) }
    ensures small { IfOk result (λ owing. total owing.items ≤ owing_limit) }
{
    let owing = owing_at(alloc, &sheet.rates, &sheet.closing)?;
    Ok(owing)
}

// ` TOTAL MONEY`, and the end of the line.
#[tactic(auto, unfolding(crate::specs::Repayment::total_end))]
fn push_total(alloc: Global, text: &mut String, cents: Cents) -> Result<(), NoMemory>
    ensures { OnOk result (string_bytes text.new ≡ string_bytes text.old ++ spec.total_end cents) }
{
    let total = Money(cents).to_string(alloc)?;
    push_end(text, " TOTAL ", total.as_str())
}

// The line of months at the minimum payment.
#[tactic(auto, using(card_lines::proofs::TextRules::texts), unfolding(crate::specs::Repayment::months_line))]
fn push_months(alloc: Global, text: &mut String, told: AtMinimum) -> Result<(), NoMemory>
    ensures { OnOk result (string_bytes text.new ≡ string_bytes text.old ++ spec.months_line told) }
{
    let months = told.months.to_string(alloc)?;
    push_both(text, "MINIMUM ONLY MONTHS ", months.as_str())?;
    push_total(alloc, text, told.total)
}

// The line for no number of them.
#[tactic(auto, unfolding(crate::specs::Repayment::never_line))]
fn never_line() -> &'static str
    ensures { result.now ≡ spec.never_line }
{
    "MINIMUM ONLY NEVER\n"
}

// The line of the minimum payment.
fn push_minimum(alloc: Global, text: &mut String, told: Option<AtMinimum>) -> Result<(), NoMemory>
    ensures { OnOk result (string_bytes text.new ≡ string_bytes text.old ++ spec.minimum_line told) }
{
    match told {
        Some(told) => push_months(alloc, text, told),
        None => {
            text.push_str(never_line())?;
            Ok(())
        }
    }
}

// The payment of each of 36 months.
#[tactic(auto, unfolding(crate::specs::Repayment::plan_payment))]
fn push_payment(alloc: Global, text: &mut String, cents: Cents) -> Result<(), NoMemory>
    ensures { OnOk result (string_bytes text.new ≡ string_bytes text.old ++ spec.plan_payment cents) }
{
    let payment = Money(cents).to_string(alloc)?;
    push_both(text, "THIRTY-SIX MONTHS PAYMENT ", payment.as_str())
}

// The line of 36 months.
#[tactic(auto, using(card_lines::proofs::TextRules::texts), unfolding(crate::specs::Repayment::plan_line))]
fn push_plan(alloc: Global, text: &mut String, told: In36) -> Result<(), NoMemory>
    ensures { OnOk result (string_bytes text.new ≡ string_bytes text.old ++ spec.plan_line told) }
{
    push_payment(alloc, text, told.payment)?;
    push_total(alloc, text, told.total)
}

/// What it takes to repay the balances of a statement (12 CFR 1026.7(b)(12)), in two lines, each with its line feed:
/// the months at the minimum payment alone and what is paid in them, or that something is owed after 1,200; and the payment that
/// repays all in 36 months with what is paid in these. The balances are what is owed at the closing, each at the rate of its line;
/// nothing is charged anew. Amounts are in units with two digits behind a point.
#[tactic(auto, using(card_lines::proofs::TextRules::texts), unfolding(crate::specs::Repayment::repayment_text))]
pub fn repayment_text(alloc: Global, sheet: &Sheet) -> Result<String, NoMemory>
    ensures { IfOk result (λ text. string_bytes text ≡ spec.repayment_text sheet.now) }
{
    let owing = owing_on(alloc, sheet)?;
    let minimum = at_minimum(alloc, &owing, sheet.floor, sheet.pct)?;
    let plan = in_36(alloc, &owing)?;
    let mut text = String::new(alloc);
    push_minimum(alloc, &mut text, minimum)?;
    push_plan(alloc, &mut text, plan)?;
    Ok(text)
}
