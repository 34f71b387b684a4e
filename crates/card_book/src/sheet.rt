// The sheet of a statement, read from the book of its closing day.
ghost use Rattle.std.specs.Prelude.{◌≡◌, ◌-◌, ◌-ℤ◌, ◌<◌, ◌≤◌, ◌==◌, ◌^◌, IfOk, drop, false, length, option_copied, pos, take};
ghost use Rattle.std.specs.List.{All};
ghost use Rattle.card_book.specs.Stands.{IsFoldedTo};
ghost use Rattle.card_book.specs.Statements.{IsClosedCycle};
ghost use Rattle.card_closing.specs.Interest as interest;
ghost use Rattle.card_daily.specs.Given.{IsDayOf, book_on};
ghost use Rattle.card_events.specs.Civil.{date_of};
ghost use Rattle.card_events.specs.History.{terms_of};
ghost use Rattle.card_model.specs.Caps.{row_for};
ghost use Rattle.card_model.specs.Cycles.{amounts_sum};
ghost use Rattle.card_model.specs.Fees.{fees_sum};
ghost use Rattle.card_model.specs.Folds.{cycle_at};
ghost use Rattle.card_statement.specs.Gathering.{sizes};
ghost use Rattle.card_statement.specs.Laws.{StandsAtClosing};
ghost use Rattle.card_statement.specs.Lines as lines;
ghost use Rattle.card_model.specs.Sheets as spec;

use crate::folded::Folded;
use card_daily::{Amounts, Cycle, Inputs, Issued};
use card_events::{Bp, Cents, Day, NoMemory};
use card_fees::IndexTable;
use card_statement::{
    DeferredLine, Move, RateLine, Sheet, closing_amounts, corrections, cycle_entries,
    deferred_lines, fees_year, has_due_payment, interest_year, late_up_to, moves_of, owed_before,
    previous_balance, rate_lines,
};
use std::alloc::Global;

// The balance before a cycle as it was stated, and what changed in it since.
#[derive(Clone, Copy)]
struct Earlier {
    previous: Cents,
    corrections: Cents,
}

// The cycle of an issued statement.
fn cycle_of(issued: Option<&Issued>) -> Option<&Cycle>
    ensures { option_copied result ≡ interest.statement_of (option_copied issued.entry) }
{
    match issued {
        Some(row) => Some(&row.statement),
        None => None,
    }
}

// The issued statement of the cycle before, if there is one.
fn issued_before<'a>(inputs: &'a Inputs, cycle: &Cycle) -> Option<&'a Cycle>
    ensures { option_copied result ≡ interest.statement_of (row_for (cycle.now.number - 1) inputs.now.issued) }
{
    let before = cycle.number as u64;
    cycle_of(inputs.issued_for(before.saturating_sub(1)))
}

// The balance before a cycle, of which the book is that of the closing.
fn earlier_of(inputs: &Inputs, folded: &Folded, cycle: &Cycle) -> Earlier
    requires stands { StandsAtClosing inputs.now.history inputs.now.issued inputs.now.shared cycle.now }
    requires book { folded.now.book ≡ book_on inputs.now cycle.now.closing }
    ensures previous { result.previous ≡ spec.previous_balance inputs.now.issued cycle.now }
    ensures corrections { result.corrections ≡ cycle.now.previous -ℤ spec.previous_balance inputs.now.issued cycle.now }
{
    let owed = owed_before(cycle, folded.cycles());
    let previous = previous_balance(issued_before(inputs, cycle), owed);
    Earlier {
        previous,
        corrections: corrections(owed, previous),
    }
}

// What a sheet lists.
#[derive(Drop)]
struct Listed {
    moves: Vec<Move>,
    rates: Vec<RateLine>,
    deferred: Vec<DeferredLine>,
    closing: Amounts,
}

// What it lists of a cycle, of which the book is that of the closing.
fn listed_of(
    alloc: Global,
    index: &IndexTable,
    folded: &Folded,
    cycle: &Cycle,
) -> Result<Listed, NoMemory>
    requires small { sizes (spec.cycle_entries cycle.now folded.now.book) ≤ 10 ^ 17 }
    requires earlier { All (λ e. e.day < cycle.now.first) (take (spec.entries_by (cycle_at (cycle.now.number - 1) folded.now.book.cycles)) folded.now.book.entries) }
    ensures moves { IfOk result (λ l. l.moves.items ≡ spec.moves_of (spec.cycle_entries cycle.now folded.now.book)) }
    ensures rates { IfOk result (λ l. l.rates.items ≡ lines.kept_rate_lines index.now folded.now.rates cycle.now folded.now.book.entries) }
    ensures deferred { IfOk result (λ l. l.deferred.items ≡ lines.kept_deferred_lines cycle.now.closing folded.now.balances folded.now.accruals folded.now.rates.segments) }
    ensures closing { IfOk result (λ l. l.closing ≡ lines.kept_amounts folded.now.balances folded.now.rates.segments) }
{
    let rates = folded.rates();
    let balances = folded.balances();
    let cycles = folded.cycles();
    let entries = folded.entries();
    Ok(Listed {
        moves: moves_of(alloc, cycle_entries(cycle, cycles, entries))?,
        rates: rate_lines(alloc, rates, index, balances, cycle, cycles, entries)?,
        deferred: deferred_lines(alloc, rates, balances, folded.accruals(), cycle.closing)?,
        closing: closing_amounts(alloc, rates, balances)?,
    })
}

// What a sheet takes of the fee table and of the terms.
#[derive(Clone, Copy)]
struct Stated {
    late_up_to: Cents,
    penalty: Bp,
    floor: Cents,
    pct: u16,
}

// What it takes of them where it is issued on a day.
fn stated_of(inputs: &Inputs, folded: &Folded, issue: Day) -> Stated
    ensures late_up_to { result.late_up_to ≡ pos (spec.late_up_to inputs.now.shared.fees issue) }
    ensures penalty { result.penalty ≡ folded.now.rates.penalty }
    ensures floor { result.floor ≡ pos (terms_of inputs.now.history).floor }
    ensures pct { result.pct ≡ (terms_of inputs.now.history).pct }
{
    let _anchor = inputs.anchor();
    let terms = inputs.terms();
    Stated {
        late_up_to: late_up_to(inputs.fees(), issue),
        penalty: folded.rates().penalty_rate(),
        floor: terms.floor.get() as Cents,
        pct: terms.pct.get() as u16,
    }
}

// The fees and the interest of the year to date.
#[derive(Clone, Copy)]
struct Years {
    fees: u128,
    interest: u128,
}

// No more cycles than these close in one calendar year: each has 28 days at least.
const MOST_IN_A_YEAR: usize = 14;

// The last 14 cycles, or all where they are fewer. All that closed in the calendar year of the last closing are among them.
fn latest(cycles: &[Cycle]) -> &[Cycle]
    ensures { result.now ≡ drop (length cycles.now - 14) cycles.now }
{
    &cycles[cycles.len().saturating_sub(MOST_IN_A_YEAR)..]
}

// The sums over the cycles that closed in the calendar year of a closing, which are among the last 14.
fn years_of(folded: &Folded, closing: Day) -> Years
    requires earlier { All (λ c. ((date_of c.closing).year == (date_of closing).year) ≡ false) (take (length folded.now.book.cycles - 14) folded.now.book.cycles) }
    requires fees { All (λ c. fees_sum c.fees ≤ 10 ^ 17) folded.now.book.cycles }
    requires interest { All (λ c. amounts_sum c.interest ≤ 10 ^ 17) folded.now.book.cycles }
    ensures fees { result.fees ≡ spec.year_sum (λ c. fees_sum c.fees) closing folded.now.book.cycles }
    ensures interest { result.interest ≡ spec.year_sum (λ c. amounts_sum c.interest) closing folded.now.book.cycles }
{
    let cycles = latest(folded.cycles());
    Years {
        fees: fees_year(cycles, closing),
        interest: interest_year(cycles, closing),
    }
}

// The sheet of a cycle, of which the book is that of the closing.
fn sheet_in(
    alloc: Global,
    inputs: &Inputs,
    folded: &Folded,
    cycle: &Cycle,
    issue: Day,
) -> Result<Sheet, NoMemory>
    requires stands { StandsAtClosing inputs.now.history inputs.now.issued inputs.now.shared cycle.now }
    requires dated { IsDayOf inputs.now cycle.now.closing }
    requires folded { IsFoldedTo inputs.now cycle.now.closing folded.now }
    ensures { IfOk result (λ s. s ≡ spec.sheet_of inputs.now.history inputs.now.issued inputs.now.shared issue cycle.now) }
{
    let _anchor = inputs.anchor();
    let earlier = earlier_of(inputs, folded, cycle);
    let years = years_of(folded, cycle.closing);
    let stated = stated_of(inputs, folded, issue);
    let listed = listed_of(alloc, inputs.index(), folded, cycle)?;
    Ok(Sheet {
        due_payment: has_due_payment(issue, cycle.due),
        previous: earlier.previous,
        corrections: earlier.corrections,
        moves: listed.moves,
        fees_year: years.fees,
        interest_year: years.interest,
        rates: listed.rates,
        deferred: listed.deferred,
        late_up_to: stated.late_up_to,
        penalty: stated.penalty,
        closing: listed.closing,
        floor: stated.floor,
        pct: stated.pct,
    })
}

/// What the statement of a closed cycle shows beside its cycle, where it is issued on a day (12 CFR 1026.7(b)): read from the
/// account's book at the end of the cycle's closing, and from the issued statements and the fee table. The cycle is one of the
/// account's book of a day up to 2099-12-31, and the book is folded to its closing.
pub fn sheet_of(
    alloc: Global,
    inputs: &Inputs,
    folded: &Folded,
    cycle: &Cycle,
    issue: Day,
) -> Result<Sheet, NoMemory>
    requires closed { IsClosedCycle inputs.now cycle.now }
    requires folded { IsFoldedTo inputs.now cycle.now.closing folded.now }
    ensures { IfOk result (λ s. s ≡ spec.sheet_of inputs.now.history inputs.now.issued inputs.now.shared issue cycle.now) }
{
    let _anchor = inputs.anchor();
    sheet_in(alloc, inputs, folded, cycle, issue)
}
