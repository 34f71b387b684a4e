ghost use Rattle.std.specs.Prelude.{◌≡◌, ◌+◌, ◌++◌, [], ◌∷◌, length, IfOk, OnOk, option_copied, vec_capacity, ◌≤◌};
ghost use Rattle.card_model.specs.Limits.{balance_limit};
ghost use Rattle.card_closing.specs.Closes.{ClosesAs};
ghost use Rattle.card_closing.specs.Record.{AreSmall, HasTermsInRange, recorded};
ghost use Rattle.card_segments.specs.Balances.{AreWithin};
ghost use Rattle.card_closing.specs.Turns.{AreInStep, BeginsWith};

use crate::interest::{charge_accruals, charge_interest};
use crate::record::{averages, charged, grace_of, held, minimum_of, owed};
use crate::{Accrual, Amounts, Cycle, CycleRows, Fee, Fees, GraceCase};
use card_events::{Cents, Day, NoMemory};
use card_segments::{Entry, Segments};
use std::alloc::Global;

/// A cycle as its closing takes it: its number, from 1, its first day, its closing, its due date, and the closing after it;
/// amounts in cents.
#[derive(Clone, Copy)]
pub struct Closing {
    pub number: u32,
    pub first: Day,
    pub closing: Day,
    pub due: Day,
    pub next_closing: Day,
    /// How purchases bear interest in the cycle (12 CFR 1026.54(a)(1)).
    pub purchase: GraceCase,
    /// What was owed at the closing before, 0 at the first closing.
    pub previous: Cents,
    /// The least minimum payment by the account's terms, at least 0.
    pub floor: Cents,
    /// The part of the balance in a minimum payment by the account's terms, in basis points, at most 10,000.
    pub pct: u16,
    /// What is left of the minimum payment of the cycle before.
    pub past_due: u64,
}

// The record of the cycle, of the balances after its interest.
#[tactic(auto, unfolding(crate::specs::Record::recorded))]
fn record(
    alloc: Global,
    segments: &Segments,
    closing: &Closing,
    issued: Option<&Cycle>,
    done: Amounts,
    rows: &[CycleRows],
    fees: &[Fee],
    count: usize,
) -> Result<Cycle, NoMemory>
    requires rows { length rows.now + 2 ≡ length segments.now.balances }
    requires small { AreWithin balance_limit segments.now.balances }
    requires few { AreSmall done }
    requires terms { HasTermsInRange closing.now }
    ensures { IfOk result (λ c. c ≡ recorded closing.now (option_copied issued.entry) done rows.now fees.now segments.now count) }
{
    let average = averages(alloc, segments, closing, rows)?;
    let fees = Fees::of_cycle(alloc, fees, closing.number)?;
    let minimum = minimum_of(closing, issued, &done, &fees, segments);
    let interest = charged(alloc, segments, done)?;
    Ok(Cycle {
        number: closing.number,
        first: closing.first,
        closing: closing.closing,
        due: closing.due,
        previous: closing.previous,
        new_balance: owed(segments),
        held: held(segments),
        interest,
        average,
        fees,
        minimum,
        grace_amount: grace_of(closing, issued, segments),
        entries: count,
    })
}

/// Closes a cycle (12 CFR 1026.7(b), .14(b), .54): adds its interest to the segments and the entries, and gives its record.
/// In order of number each segment is charged the interest of its rows, and then each deferred balance whose period ends what
/// it accrued, where something is owed on it: no more than keeps it within 10^13 cents, and in all no more than the issued
/// statement of the cycle has for the segment. The minimum payment and the grace amount are no more than those of that
/// statement. Rows and accruals are those of the segments from number 2 on; fees of other cycles are left out.
/// Condition: balances are the sums of the entries, at most 10^15 cents in size; they are so afterwards. If memory runs out,
/// the list begins with the entries that it had, and the segments are of no use.
pub fn close(
    alloc: Global,
    segments: &mut Segments,
    closing: &Closing,
    issued: Option<&Cycle>,
    rows: &[CycleRows],
    accruals: &[Accrual],
    fees: &[Fee],
    out: &mut Vec<Entry>,
) -> Result<Cycle, NoMemory>
    requires step { AreInStep segments.old out.old.items }
    requires rows { length rows.now + 2 ≡ length segments.old.balances }
    requires accruals { length accruals.now + 2 ≡ length segments.old.balances }
    requires terms { HasTermsInRange closing.now }
    ensures entries { OnOk result (ClosesAs closing.now (option_copied issued.entry) segments.old rows.now accruals.now fees.now out.old.items (λ b closed. out.new.items ≡ closed.entries)) }
    ensures cycle { IfOk result (λ c. ClosesAs closing.now (option_copied issued.entry) segments.old rows.now accruals.now fees.now out.old.items (λ b closed. b.cycles ++ c ∷ [] ≡ closed.cycles)) }
    ensures step { OnOk result (AreInStep segments.new out.new.items) }
    ensures segments { OnOk result (segments.new.segments ≡ segments.old.segments) }
    ensures begins { BeginsWith out.old.items out.new.items }
    ensures capacity { vec_capacity out.old ≤ vec_capacity out.new }
{
    let _count = segments.len();
    let mut done = Amounts::none(alloc);
    charge_interest(segments, &mut done, closing, issued, rows, out)?;
    charge_accruals(segments, &mut done, closing, issued, accruals, out)?;
    let cycle = record(
        alloc,
        segments,
        closing,
        issued,
        done,
        rows,
        fees,
        out.len(),
    )?;
    Ok(cycle)
}
