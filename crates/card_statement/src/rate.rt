// The lines of rates.
ghost use Rattle.std.specs.Prelude.{◌≡◌, ℕ, ◌-◌, ◌<◌, List, ◌++◌, [], take, pos, slice_index_or, IfOk, OnOk};
ghost use Rattle.std.specs.List.{All, cons_option, filter_map};
ghost use Rattle.card_model.specs.Entries.{balance};
ghost use Rattle.card_model.specs.Folds.{cycle_at};
ghost use Rattle.card_model.specs.Sheets.{entries_by};
ghost use Rattle.card_model.specs.declared.entry.Entry.{Entry};
ghost use Rattle.card_statement.specs.Lines as spec;
ghost use Rattle.card_statement.specs.Standing.{LeaveBalances};

use crate::standing::was_owed;
use crate::{RateLine, cycle_entries};
use card_closing::Cycle;
use card_events::{Cents, NoMemory};
use card_model::Entry;
use card_rates::{IndexTable, RateBook, RatedSegment};
use card_segments::Segments;
use std::alloc::Global;

// The line of a segment.
fn line_of(rates: &RateBook, index: &IndexTable, cycle: &Cycle, g: &RatedSegment) -> RateLine
    ensures { result ≡ spec.kept_line index.now rates.now cycle.now g.now }
{
    RateLine {
        segment: g.id,
        sort: g.sort,
        rate: rates.rate_for(index, g, cycle.closing),
        average: cycle.average.at(g.id),
        interest: cycle.interest.at(g.id),
    }
}

// The balance of a segment in cents, 0 where it isn't there.
fn balance_on(segments: &Segments, id: u8) -> Cents
    ensures { result ≡ slice_index_or segments.now.balances id (pos 0) }
{
    if id < segments.len() {
        segments.balance(id)
    } else {
        0
    }
}

// Adds the line of a segment, where it had a balance by the entries of the cycle and earlier ones.
#[tactic(auto, unfolding(crate::specs::Lines::kept_rate_line))]
fn add_line(
    lines: &mut Vec<RateLine>,
    rates: &RateBook,
    index: &IndexTable,
    segments: &Segments,
    cycle: &Cycle,
    entries: &[Entry],
    g: &RatedSegment,
) -> Result<(), NoMemory>
    ensures { OnOk result ((earlier : List Entry) → LeaveBalances cycle.now.first earlier entries.now segments.now.balances → lines.new.items ≡ lines.old.items ++ cons_option (spec.kept_rate_line index.now rates.now cycle.now (earlier ++ entries.now) g.now) []) }
{
    let left = balance_on(segments, g.id);
    if was_owed(left, entries, g.id, cycle.first, cycle.closing) {
        lines.push(line_of(rates, index, cycle, g))?;
    }
    Ok(())
}

// The lines of the rated ones.
fn lines_of(
    alloc: Global,
    rated: &[RatedSegment],
    rates: &RateBook,
    index: &IndexTable,
    segments: &Segments,
    cycle: &Cycle,
    entries: &[Entry],
) -> Result<Vec<RateLine>, NoMemory>
    ensures { IfOk result (λ lines. (earlier : List Entry) → LeaveBalances cycle.now.first earlier entries.now segments.now.balances → lines.items ≡ filter_map (spec.kept_rate_line index.now rates.now cycle.now (earlier ++ entries.now)) rated.now) }
{
    let mut lines = Vec::new(alloc);
    for g in rated {
        add_line(&mut lines, rates, index, segments, cycle, entries, g)?;
    }
    Ok(lines)
}

/// The lines of rates of a cycle (12 CFR 1026.7(b)(4), (b)(5), (b)(6)(ii)): one for each segment on which, by these entries,
/// something was owed at the end of some day of the cycle, in order of number. Each has the segment's rate on the closing day
/// under this index, and the cycle's average daily balance and interest of it, in cents. `segments` have the balances that the
/// entries left, and `cycles` are those closed by the cycle's closing, in order; what stood at the closing before is of the
/// days before the cycle. It costs what the entries of the cycle cost.
#[tactic(auto, unfolding(crate::specs::Lines::kept_rate_lines))]
pub fn rate_lines(
    alloc: Global,
    rates: &RateBook,
    index: &IndexTable,
    segments: &Segments,
    cycle: &Cycle,
    cycles: &[Cycle],
    entries: &[Entry],
) -> Result<Vec<RateLine>, NoMemory>
    requires earlier { All (λ e. e.day < cycle.now.first) (take (entries_by (cycle_at (cycle.now.number - 1) cycles.now)) entries.now) }
    requires sums { (s : ℕ) → slice_index_or segments.now.balances s (pos 0) ≡ balance s entries.now }
    ensures { IfOk result (λ lines. lines.items ≡ spec.kept_rate_lines index.now rates.now cycle.now entries.now) }
{
    let own = cycle_entries(cycle, cycles, entries);
    lines_of(alloc, rates.segments(), rates, index, segments, cycle, own)
}
