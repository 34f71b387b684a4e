// A statement as text.
ghost use Rattle.std.specs.Prelude.{◌≡◌, ◌++◌, IfOk, OnOk, codes, if◌then◌else◌, pos};
ghost use Rattle.std.specs.List.{flat_map};
ghost use Rattle.std.specs.String.{string_bytes};
ghost use Rattle.card_events.specs.Civil as civil;
ghost use Rattle.card_events.specs.Money.{money_text};
ghost use Rattle.card_model.specs.Cycles as cycles;
ghost use Rattle.card_model.specs.Fees.{fees_sum};
ghost use Rattle.card_text.specs.Statements as spec;

use crate::columns::{
    push_amount, push_both, push_cents, push_column, push_end, push_labelled, push_last, push_left,
    push_sum, push_sum_amount, push_zeros,
};
use crate::export::segment_name;
use card_closing::Cycle;
use card_events::{Bp, Cents, Day, Money, Name, NoMemory, daily};
use card_lines::name_text;
use card_model::{EntryKind, Sort};
use card_statement::{DeferredLine, Move, RateLine, Sheet};
use std::alloc::Global;

// A rate as units, a point, two digits and a percent sign.
#[tactic(auto, using(card_lines::proofs::TextRules::texts))]
fn rate_text(alloc: Global, rate: Bp) -> Result<String, NoMemory>
    ensures { IfOk result (λ text. string_bytes text ≡ spec.rate_text rate) }
{
    let rate = rate.get();
    Ok(format!(in alloc; "{}.{}{}%", rate / 100, rate % 100 / 10, rate % 10)?)
}

// The daily rate of a yearly rate, with nine digits behind the point.
#[tactic(auto, using(card_lines::proofs::TextRules::texts))]
fn daily_text(alloc: Global, rate: Bp) -> Result<String, NoMemory>
    ensures { IfOk result (λ text. string_bytes text ≡ spec.daily_text rate) }
{
    let digits = daily(rate).to_string(alloc)?;
    let mut text = String::from_str(alloc, "0.")?;
    push_zeros(&mut text, 9usize.saturating_sub(digits.len()))?;
    text.push_str(digits.as_str())?;
    Ok(text)
}

// What a transaction is, in a word.
fn move_word(kind: EntryKind, post: u32) -> &'static str
    ensures { result.now ≡ spec.move_word kind post }
{
    match kind {
        EntryKind::Charge => "CHARGE",
        EntryKind::Credit => "CREDIT",
        EntryKind::Payment => "PAYMENT",
        EntryKind::Return => "RETURN",
        EntryKind::Refund => "REFUND",
        EntryKind::Fee if post == 0 => "FEE-LATE",
        EntryKind::Fee => "FEE-RETURN",
        EntryKind::Interest => "",
        EntryKind::Hold => "",
    }
}

// The line of a transaction.
#[tactic(auto, using(card_lines::proofs::TextRules::texts), unfolding(crate::specs::Statements::move_line))]
fn push_move(alloc: Global, text: &mut String, line: &Move) -> Result<(), NoMemory>
    ensures { OnOk result (string_bytes text.new ≡ string_bytes text.old ++ spec.move_line line.now) }
{
    let post = line.post.to_string(alloc)?;
    write!(text, "{} ", line.day)?;
    push_left(text, 10, move_word(line.kind, line.post))?;
    push_column(text, 6, post.as_str())?;
    push_amount(alloc, text, line.cents)?;
    text.push_str("\n")?;
    Ok(())
}

// The name of a segment, its rate and its daily rate.
#[tactic(auto, using(card_lines::proofs::TextRules::texts), unfolding(crate::specs::Statements::rate_front))]
fn push_rate_front(
    alloc: Global,
    text: &mut String,
    segment: &str,
    rate: Bp,
) -> Result<(), NoMemory>
    ensures { OnOk result (string_bytes text.new ≡ string_bytes text.old ++ spec.rate_front segment.now rate) }
{
    let yearly = rate_text(alloc, rate)?;
    let daily = daily_text(alloc, rate)?;
    text.push_str("RATE ")?;
    push_left(text, 12, segment)?;
    push_column(text, 7, yearly.as_str())?;
    push_column(text, 12, daily.as_str())
}

// The average balance and the interest.
#[tactic(auto, using(card_lines::proofs::TextRules::texts), unfolding(crate::specs::Statements::rate_amounts))]
fn push_rate_amounts(
    alloc: Global,
    text: &mut String,
    average: u128,
    interest: u128,
) -> Result<(), NoMemory>
    ensures { OnOk result (string_bytes text.new ≡ string_bytes text.old ++ spec.rate_amounts average interest) }
{
    push_sum_amount(alloc, text, average)?;
    push_sum_amount(alloc, text, interest)?;
    text.push_str("\n")?;
    Ok(())
}

// The line of a rate.
#[tactic(auto, using(card_lines::proofs::TextRules::texts), unfolding(crate::specs::Statements::rate_line))]
fn push_rate(alloc: Global, text: &mut String, line: &RateLine) -> Result<(), NoMemory>
    ensures { OnOk result (string_bytes text.new ≡ string_bytes text.old ++ spec.rate_line line.now) }
{
    let segment = segment_name(alloc, line.sort, line.segment)?;
    push_rate_front(alloc, text, segment.as_str(), line.rate)?;
    push_rate_amounts(alloc, text, line.average, line.interest)
}

// The name of a Deferred and its balance.
#[tactic(auto, using(card_lines::proofs::TextRules::texts), unfolding(crate::specs::Statements::deferred_front, crate::specs::Statements::two_texts))]
fn push_deferred_front(
    alloc: Global,
    text: &mut String,
    segment: &str,
    balance: Cents,
) -> Result<(), NoMemory>
    ensures { OnOk result (string_bytes text.new ≡ string_bytes text.old ++ spec.deferred_front segment.now balance) }
{
    let balance = Money(balance).to_string(alloc)?;
    push_both(text, "DEFERRED ", segment)?;
    push_both(text, " ", balance.as_str())?;
    text.push_str(" ")?;
    Ok(())
}

// What it accrued, and the day by which to pay in full.
#[tactic(auto, unfolding(crate::specs::Statements::deferred_rest))]
fn push_deferred_rest(
    alloc: Global,
    text: &mut String,
    accrued: Cents,
    ends: Day,
) -> Result<(), NoMemory>
    ensures { OnOk result (string_bytes text.new ≡ string_bytes text.old ++ spec.deferred_rest accrued ends) }
{
    let accrued = Money(accrued).to_string(alloc)?;
    let ends = ends.to_string(alloc)?;
    push_last(text, accrued.as_str(), " PAY IN FULL BY ", ends.as_str())
}

// The line of a Deferred in its period.
#[tactic(auto, using(card_lines::proofs::TextRules::texts), unfolding(crate::specs::Statements::deferred_line))]
fn push_deferred(alloc: Global, text: &mut String, line: &DeferredLine) -> Result<(), NoMemory>
    ensures { OnOk result (string_bytes text.new ≡ string_bytes text.old ++ spec.deferred_line line.now) }
{
    let segment = segment_name(alloc, Sort::Deferred, line.segment)?;
    push_deferred_front(alloc, text, segment.as_str(), line.balance)?;
    push_deferred_rest(alloc, text, line.accrued, line.ends)
}

// The greatest late fee.
#[tactic(auto, unfolding(crate::specs::Statements::late_fee))]
fn push_late_fee(alloc: Global, text: &mut String, fee: Cents) -> Result<(), NoMemory>
    ensures { OnOk result (string_bytes text.new ≡ string_bytes text.old ++ spec.late_fee fee) }
{
    let fee = Money(fee).to_string(alloc)?;
    push_both(text, "LATE PAYMENT FEE UP TO ", fee.as_str())
}

// The rate after late payments.
#[tactic(auto, unfolding(crate::specs::Statements::late_rate))]
fn push_late_rate(alloc: Global, text: &mut String, penalty: Bp) -> Result<(), NoMemory>
    ensures { OnOk result (string_bytes text.new ≡ string_bytes text.old ++ spec.late_rate penalty) }
{
    let rate = rate_text(alloc, penalty)?;
    push_end(text, " AND RATE UP TO ", rate.as_str())
}

// What a late payment may cost.
#[tactic(auto, using(card_lines::proofs::TextRules::texts), unfolding(crate::specs::Statements::late_line))]
fn push_late(alloc: Global, text: &mut String, fee: Cents, penalty: Bp) -> Result<(), NoMemory>
    ensures { OnOk result (string_bytes text.new ≡ string_bytes text.old ++ spec.late_line fee penalty) }
{
    push_late_fee(alloc, text, fee)?;
    push_late_rate(alloc, text, penalty)
}

// Of whom, which cycle, and its days.
#[tactic(auto, using(card_lines::proofs::TextRules::texts), unfolding(crate::specs::Statements::heading))]
fn push_heading(text: &mut String, account: &str, cycle: &Cycle) -> Result<(), NoMemory>
    ensures { OnOk result (string_bytes text.new ≡ string_bytes text.old ++ spec.heading account.now cycle.now) }
{
    write!(text, "STATEMENT {account} CYCLE {}\n", cycle.number)?;
    write!(text, "PERIOD {} TO {}\n", cycle.first, cycle.closing)?;
    Ok(())
}

// The lines of transactions.
fn push_moves(alloc: Global, text: &mut String, moves: &[Move]) -> Result<(), NoMemory>
    ensures { OnOk result (string_bytes text.new ≡ string_bytes text.old ++ flat_map spec.move_line moves.now) }
{
    for i in 0..moves.len() {
        push_move(alloc, text, &moves[i])?;
    }
    Ok(())
}

// The balance before.
fn push_previous(alloc: Global, text: &mut String, sheet: &Sheet) -> Result<(), NoMemory>
    ensures { OnOk result (string_bytes text.new ≡ string_bytes text.old ++ spec.labelled (codes "PREVIOUS BALANCE") (money_text sheet.now.previous)) }
{
    push_cents(alloc, text, "PREVIOUS BALANCE", sheet.previous)
}

// What changed in it since.
fn push_corrections(alloc: Global, text: &mut String, sheet: &Sheet) -> Result<(), NoMemory>
    ensures { OnOk result (string_bytes text.new ≡ string_bytes text.old ++ spec.labelled (codes "EARLIER CORRECTIONS") (money_text sheet.now.corrections)) }
{
    push_cents(alloc, text, "EARLIER CORRECTIONS", sheet.corrections)
}

// The balance before, and what changed in it since.
#[tactic(auto, using(card_lines::proofs::TextRules::texts), unfolding(crate::specs::Statements::earlier_lines))]
fn push_earlier(alloc: Global, text: &mut String, sheet: &Sheet) -> Result<(), NoMemory>
    ensures { OnOk result (string_bytes text.new ≡ string_bytes text.old ++ spec.earlier_lines sheet.now) }
{
    push_previous(alloc, text, sheet)?;
    push_corrections(alloc, text, sheet)
}

// The fees of the cycle.
fn push_fees(alloc: Global, text: &mut String, cycle: &Cycle) -> Result<(), NoMemory>
    ensures { OnOk result (string_bytes text.new ≡ string_bytes text.old ++ spec.labelled (codes "FEES THIS PERIOD") (money_text (pos (fees_sum cycle.now.fees)))) }
{
    push_sum(alloc, text, "FEES THIS PERIOD", cycle.fees.sum())
}

// The interest of the cycle.
fn push_interest(alloc: Global, text: &mut String, cycle: &Cycle) -> Result<(), NoMemory>
    ensures { OnOk result (string_bytes text.new ≡ string_bytes text.old ++ spec.labelled (codes "INTEREST THIS PERIOD") (money_text (pos (cycles.amounts_sum cycle.now.interest)))) }
{
    push_sum(alloc, text, "INTEREST THIS PERIOD", cycle.interest.sum())
}

// The fees and the interest of the cycle.
#[tactic(auto, using(card_lines::proofs::TextRules::texts), unfolding(crate::specs::Statements::charge_lines))]
fn push_charges(alloc: Global, text: &mut String, cycle: &Cycle) -> Result<(), NoMemory>
    ensures { OnOk result (string_bytes text.new ≡ string_bytes text.old ++ spec.charge_lines cycle.now) }
{
    push_fees(alloc, text, cycle)?;
    push_interest(alloc, text, cycle)
}

// From the previous balance to the interest.
#[tactic(auto, using(card_lines::proofs::TextRules::texts), unfolding(crate::specs::Statements::activity))]
fn push_activity(
    alloc: Global,
    text: &mut String,
    cycle: &Cycle,
    sheet: &Sheet,
) -> Result<(), NoMemory>
    ensures { OnOk result (string_bytes text.new ≡ string_bytes text.old ++ spec.activity cycle.now sheet.now) }
{
    push_earlier(alloc, text, sheet)?;
    push_moves(alloc, text, &sheet.moves)?;
    push_charges(alloc, text, cycle)
}

// The fees of the year to date.
fn push_fees_year(alloc: Global, text: &mut String, sheet: &Sheet) -> Result<(), NoMemory>
    ensures { OnOk result (string_bytes text.new ≡ string_bytes text.old ++ spec.labelled (codes "FEES THIS YEAR") (money_text sheet.now.fees_year)) }
{
    push_sum(alloc, text, "FEES THIS YEAR", sheet.fees_year)
}

// The interest of the year to date.
fn push_interest_year(alloc: Global, text: &mut String, sheet: &Sheet) -> Result<(), NoMemory>
    ensures { OnOk result (string_bytes text.new ≡ string_bytes text.old ++ spec.labelled (codes "INTEREST THIS YEAR") (money_text sheet.now.interest_year)) }
{
    push_sum(alloc, text, "INTEREST THIS YEAR", sheet.interest_year)
}

// The sums of the year to date.
#[tactic(auto, using(card_lines::proofs::TextRules::texts), unfolding(crate::specs::Statements::year_lines))]
fn push_year(alloc: Global, text: &mut String, sheet: &Sheet) -> Result<(), NoMemory>
    ensures { OnOk result (string_bytes text.new ≡ string_bytes text.old ++ spec.year_lines sheet.now) }
{
    push_fees_year(alloc, text, sheet)?;
    push_interest_year(alloc, text, sheet)
}

// What is owed, and the part of it that is in dispute.
#[tactic(auto, using(card_lines::proofs::TextRules::texts), unfolding(crate::specs::Statements::owed_lines))]
fn push_owed(alloc: Global, text: &mut String, cycle: &Cycle) -> Result<(), NoMemory>
    ensures { OnOk result (string_bytes text.new ≡ string_bytes text.old ++ spec.owed_lines cycle.now) }
{
    push_cents(alloc, text, "NEW BALANCE", cycle.new_balance)?;
    push_cents(alloc, text, "IN DISPUTE", cycle.held)
}

// The due date, a dash where there is no due payment.
fn due_text(alloc: Global, cycle: &Cycle, sheet: &Sheet) -> Result<String, NoMemory>
    ensures { IfOk result (λ text. string_bytes text ≡ (if sheet.now.due_payment then civil.day_text cycle.now.due else codes "-")) }
{
    if sheet.due_payment {
        Ok(cycle.due.to_string(alloc)?)
    } else {
        Ok(String::from_str(alloc, "-")?)
    }
}

// What to pay, and by which day.
#[tactic(auto, using(card_lines::proofs::TextRules::texts), unfolding(crate::specs::Statements::payment_lines))]
fn push_payment(
    alloc: Global,
    text: &mut String,
    cycle: &Cycle,
    sheet: &Sheet,
) -> Result<(), NoMemory>
    ensures { OnOk result (string_bytes text.new ≡ string_bytes text.old ++ spec.payment_lines cycle.now sheet.now) }
{
    let due = due_text(alloc, cycle, sheet)?;
    push_cents(alloc, text, "MINIMUM PAYMENT", cycle.minimum)?;
    push_labelled(text, "PAYMENT DUE DATE", due.as_str())
}

// The sums of the year, the balances and the payment.
#[tactic(auto, using(card_lines::proofs::TextRules::texts), unfolding(crate::specs::Statements::balances))]
fn push_balances(
    alloc: Global,
    text: &mut String,
    cycle: &Cycle,
    sheet: &Sheet,
) -> Result<(), NoMemory>
    ensures { OnOk result (string_bytes text.new ≡ string_bytes text.old ++ spec.balances cycle.now sheet.now) }
{
    push_year(alloc, text, sheet)?;
    push_owed(alloc, text, cycle)?;
    push_payment(alloc, text, cycle, sheet)
}

// The lines of rates.
fn push_rates(alloc: Global, text: &mut String, rates: &[RateLine]) -> Result<(), NoMemory>
    ensures { OnOk result (string_bytes text.new ≡ string_bytes text.old ++ flat_map spec.rate_line rates.now) }
{
    for i in 0..rates.len() {
        push_rate(alloc, text, &rates[i])?;
    }
    Ok(())
}

// The lines of Deferreds.
fn push_all_deferred(
    alloc: Global,
    text: &mut String,
    deferred: &[DeferredLine],
) -> Result<(), NoMemory>
    ensures { OnOk result (string_bytes text.new ≡ string_bytes text.old ++ flat_map spec.deferred_line deferred.now) }
{
    for i in 0..deferred.len() {
        push_deferred(alloc, text, &deferred[i])?;
    }
    Ok(())
}

// What a late payment costs, where there is a payment to make.
#[tactic(auto, using(card_lines::proofs::TextRules::texts), unfolding(crate::specs::Statements::warning))]
fn push_warning(
    alloc: Global,
    text: &mut String,
    cycle: &Cycle,
    sheet: &Sheet,
) -> Result<(), NoMemory>
    ensures { OnOk result (string_bytes text.new ≡ string_bytes text.old ++ spec.warning cycle.now sheet.now) }
{
    if sheet.due_payment && cycle.minimum > 0 {
        push_late(alloc, text, sheet.late_up_to, sheet.penalty)
    } else {
        Ok(())
    }
}

/// The text of a statement of an account (12 CFR 1026.7(b)): of whom and of which days it is; the previous balance, what
/// changed in it since, the transactions, fees and interest of the cycle, which add up to the new balance; the sums of the
/// year, the balances, the minimum payment and its due date, or `-` where there is no due payment; a line for each rate and
/// for each plan with deferred interest; and, where there is a payment to make, what a late one costs. Amounts are in units
/// with two digits behind a point.
#[tactic(auto, using(card_lines::proofs::TextRules::texts), unfolding(crate::specs::Statements::statement_text))]
pub fn statement_text(
    alloc: Global,
    account: &Name,
    cycle: &Cycle,
    sheet: &Sheet,
) -> Result<String, NoMemory>
    ensures { IfOk result (λ text. string_bytes text ≡ spec.statement_text account.now cycle.now sheet.now) }
{
    let mut text = String::new(alloc);
    push_heading(&mut text, name_text(account), cycle)?;
    push_activity(alloc, &mut text, cycle, sheet)?;
    push_balances(alloc, &mut text, cycle, sheet)?;
    push_rates(alloc, &mut text, &sheet.rates)?;
    push_all_deferred(alloc, &mut text, &sheet.deferred)?;
    push_warning(alloc, &mut text, cycle, sheet)?;
    Ok(text)
}
