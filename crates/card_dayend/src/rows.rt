ghost use Rattle.std.specs.Prelude.{◌≡◌, ℕ, ◌+◌, ◌-◌, ◌<◌, ◌≤◌, length, pos, slice_index_or, IsOk, OnOk};
ghost use Rattle.card_model.specs.Limits.{balance_limit};
ghost use Rattle.card_events.specs.Range.{last_request_day};
ghost use Rattle.std.specs.List.{All, Contains, list_any};
ghost use Rattle.card_effects.specs.Standing.{AreRated};
ghost use Rattle.card_closing.specs.Accruals.{Accrued};
ghost use Rattle.card_closing.specs.BookRows.{rate_of};
ghost use Rattle.card_closing.specs.Rows.{Rows};
ghost use Rattle.card_model.specs.Entries.{at_least_zero};
ghost use Rattle.card_model.specs.Segments.{SegmentTerms, is_deferred_on};
ghost use Rattle.card_rates.specs.RateBooks.{rate_of as rate_in_force};
ghost use Rattle.card_rates.specs.Settled.{IsOfDay};
ghost use Rattle.card_segments.specs.Balances.{AreWithin};
ghost use Rattle.card_daily.specs.Given.{Given, IsSound, opened_in};
ghost use Rattle.card_dayend.specs.Rows.{AwaitsRows, with_accrual_at, with_accruals, with_row, with_rows};
ghost use Rattle.card_dayend.specs.Spans.{AwaitsBreak, IsQuietFrom};
ghost use Rattle.card_daily.specs.Stands.{AreAmid, AreBefore, ArePosted, posts_of};
ghost use Rattle.card_daily.specs.declared.track.Track.{Track};

use card_closing::{Accrual, CycleRows};
use card_daily::State;
use card_events::{Bp, Cents, Day, NoMemory};
use card_rates::{DayIndex, IndexTable, RateBook, RatedSegment, is_deferred_on};
use card_segments::Segments;

// The rate 0.
fn no_rate() -> Bp
    ensures { result ≡ 0 }
{
    Bp::new(0).unwrap()
}

// What is owed on a segment at the end of a day.
fn owed_on(segments: &Segments, id: u8) -> u64
    requires billed { 2 ≤ id }
    requires known { id < length segments.now.balances }
    requires small { AreWithin balance_limit segments.now.balances }
    ensures value { result ≡ at_least_zero (slice_index_or segments.now.balances id (pos 0)) }
    ensures bound { result ≤ balance_limit }
{
    segments.balance(id).unsigned_abs()
}

// The rate of a segment's row: that of the day, and 0 where nothing is owed.
fn row_rate(
    rates: &RateBook,
    index: &IndexTable,
    of_day: &DayIndex,
    id: u8,
    day: Day,
    owed: u64,
) -> Bp
    requires read { IsOfDay index.now rates.now day of_day.now }
    requires there { id < length rates.now.segments + 2 }
    ensures { (t : SegmentTerms) → Contains rates.now.segments t → t.id ≡ id → result ≡ rate_of owed (rate_in_force index.now rates.now day t) }
{
    if owed == 0 {
        no_rate()
    } else {
        rates.rate_by(of_day, index, id, day)
    }
}

// The rows of a segment on so many days, at the rate of one of them.
fn add_row(
    rows: &mut CycleRows,
    rates: &RateBook,
    index: &IndexTable,
    of_day: &DayIndex,
    id: u8,
    day: Day,
    days: u32,
    owed: u64,
) -> Result<(), NoMemory>
    requires read { IsOfDay index.now rates.now day of_day.now }
    requires there { id < length rates.now.segments + 2 }
    requires small { owed ≤ balance_limit }
    requires few { length rows.old.days + days ≤ 31 }
    ensures { OnOk result ((t : SegmentTerms) → Contains rates.now.segments t → t.id ≡ id → rows.new ≡ with_row index.now days rates.now day t owed rows.old) }
{
    let rate = row_rate(rates, index, of_day, id, day, owed);
    rows.row(days, owed as Cents, rate)
}

// The rows of all segments on so many days, at the rates of one of them.
fn add_rows(
    rows: &mut Vec<CycleRows>,
    segments: &Segments,
    rates: &RateBook,
    index: &IndexTable,
    day: Day,
    days: u32,
) -> Result<(), NoMemory>
    requires rated { AreRated segments.now.segments rates.now }
    requires equal { length rows.old.items ≡ length rates.now.segments }
    requires small { AreWithin balance_limit segments.now.balances }
    requires few { All (λ (r : Rows). length r.days + days ≤ 31) rows.old.items }
    ensures { OnOk result (rows.new.items ≡ with_rows index.now days rates.now segments.now.balances day rows.old.items) }
{
    let of_day = rates.of_day(index, day);
    for id in 2..segments.len() {
        let place = id as usize - 2;
        let owed = owed_on(segments, id);
        add_row(&mut rows[place], rates, index, &of_day, id, day, days, owed)?;
    }
    Ok(())
}

// What a segment accrues on so many days, where it does so at a rate.
fn accrue(accrual: &mut Accrual, days: u32, owed: u64, rate: Option<Bp>)
    requires small { owed ≤ balance_limit }
    requires few { accrual.old.days + days ≤ 40_000 }
    ensures { accrual.new ≡ with_accrual_at days rate owed accrual.old }
{
    if let Some(rate) = rate {
        accrual.accrue(days, owed as Cents, rate);
    }
}

// What each segment accrues on so many days, at the rates of one of them.
fn accrue_each(
    accruals: &mut Vec<Accrual>,
    segments: &Segments,
    rates: &RateBook,
    day: Day,
    days: u32,
)
    requires rated { AreRated segments.now.segments rates.now }
    requires equal { length accruals.old.items ≡ length rates.now.segments }
    requires small { AreWithin balance_limit segments.now.balances }
    requires few { All (λ (a : Accrued). a.days + days ≤ 40_000) accruals.old.items }
    ensures accruals { accruals.new.items ≡ with_accruals days rates.now segments.now.balances day accruals.old.items }
    ensures balances { length segments.now.balances ≡ length rates.now.segments + 2 }
{
    for id in 2..segments.len() {
        let place = id as usize - 2;
        let owed = owed_on(segments, id);
        let rate = rates.accrual_on(id, day);
        accrue(&mut accruals[place], days, owed, rate);
    }
}

// Whether some segment is a deferred plan in its period on a day.
fn is_any_deferred(segments: &[RatedSegment], day: Day) -> bool
    ensures { result ≡ list_any (is_deferred_on day) segments.now }
{
    for g in segments {
        if is_deferred_on(g, day) {
            return true;
        }
    }
    false
}

// Whether some segment of an account accrues on a day. One without deferred plans isn't looked through.
fn accrues_on(rates: &RateBook, day: Day) -> bool
    ensures { result ≡ list_any (is_deferred_on day) rates.now.segments }
{
    if !rates.may_accrue() {
        return false;
    }
    is_any_deferred(rates.segments(), day)
}

// What all segments accrue on so many days, at the rates of one of them. Most often none does.
fn accrue_all(
    accruals: &mut Vec<Accrual>,
    segments: &Segments,
    rates: &RateBook,
    day: Day,
    days: u32,
)
    requires rated { AreRated segments.now.segments rates.now }
    requires equal { length accruals.old.items ≡ length rates.now.segments }
    requires small { AreWithin balance_limit segments.now.balances }
    requires few { All (λ (a : Accrued). a.days + days ≤ 40_000) accruals.old.items }
    ensures accruals { accruals.new.items ≡ with_accruals days rates.now segments.now.balances day accruals.old.items }
    ensures balances { length segments.now.balances ≡ length rates.now.segments + 2 }
{
    let _count = segments.len();
    if !accrues_on(rates, day) {
        return;
    }
    accrue_each(accruals, segments, rates, day, days);
}

/// The rows of a day, up to 2099-12-31, once its posts are folded: of each segment but Credit and Held what is owed at the
/// end of the day, in cents, with its rate in basis points under this index (12 CFR 1026.14(b)), which is kept as 0 where
/// nothing is owed.
/// A deferred plan in its period accrues the day (12 CFR 1026.55(b)(1), comment 55(b)(1)-3). If memory runs out, the rows are
/// of no use.
pub fn row_day(index: &IndexTable, day: Day, state: &mut State) -> Result<(), NoMemory>
    requires last { day ≤ last_request_day }
    requires amid { AwaitsRows day state.old }
    ensures posted { OnOk result ((g : Given) (t : Track) → g.shared.index ≡ index.now → IsSound g → opened_in g ≤ day → AreAmid g day (posts_of g day) state.old t → ArePosted g day state.new t) }
{
    add_rows(
        &mut state.rows,
        &state.segments,
        &state.rates,
        index,
        day,
        1,
    )?;
    accrue_all(&mut state.accruals, &state.segments, &state.rates, day, 1);
    Ok(())
}

/// The rows of so many days that are no break days, from a first one on: of each segment but Credit and Held what is owed, in
/// cents, with its rate in basis points (12 CFR 1026.14(b)), and what a deferred plan in its period accrues (12 CFR
/// 1026.55(b)(1), comment 55(b)(1)-3). The rates are those of the first of these days, since the day before may be a plan's
/// last. The day behind them is at most 2099-12-31. If memory runs out, the rows are of no use. It takes none for no days.
pub fn pass_quiet(
    index: &IndexTable,
    first: Day,
    days: u32,
    state: &mut State,
) -> Result<(), NoMemory>
    requires awaits { AwaitsBreak first days state.old }
    ensures passed { OnOk result ((g : Given) (t : Track) → g.shared.index ≡ index.now → IsQuietFrom g first days state.old t → AreBefore g (first + days) state.new t) }
    ensures none { days ≡ 0 → IsOk result }
{
    if days == 0 {
        return Ok(());
    }
    let at = first;
    add_rows(
        &mut state.rows,
        &state.segments,
        &state.rates,
        index,
        at,
        days,
    )?;
    accrue_all(
        &mut state.accruals,
        &state.segments,
        &state.rates,
        first,
        days,
    );
    Ok(())
}
