// Penalty fees, and the late fee for a due date that wasn't met.
ghost use Rattle.std.specs.Prelude.{◌≡◌, ◌+◌, ◌<◌, ◌≤◌, ◌≤ℤ◌, ℕ, List, min, option_copied, pos, unsigned_abs, Some};
ghost use Rattle.card_events.specs.Billing.{IsCloseDay, cycle_of};
ghost use Rattle.card_events.specs.Range.{last_reckoned_day};
ghost use Rattle.card_fees.specs.DueFee.{due_fee_by, late_by};
ghost use Rattle.card_fees.specs.Tallied.{IsTallyOf, StaysRight};
ghost use Rattle.card_model.specs.Fees as words;
ghost use Rattle.card_model.specs.Fees.{charged_by, fee_above, fee_cents, fees_for, row_on};
ghost use Rattle.card_model.specs.declared.fee.FeeKind.TheVariants as kind;
ghost use Rattle.card_posts.specs.Posted.{StandsFor};

use crate::{DueCycle, FeeTable, Tally, met_in_time};
use card_events::{Anchor, Cents, Day, cycle_of};
use card_model::{Cause, Fee, FeeKind};
use card_posts::Posts;

fn is_kind(a: FeeKind, b: FeeKind) -> bool
    ensures { result ≡ words.is_fee_kind a b }
{
    match (a, b) {
        (FeeKind::Late, FeeKind::Late) => true,
        (FeeKind::Returned, FeeKind::Returned) => true,
        _ => false,
    }
}

// whether a fee was of this kind, at the first amount, in this cycle or one of the six before
fn was_first(kind: FeeKind, cycle: u32, fee: &Fee) -> bool
    ensures { result ≡ words.was_first kind cycle fee.now }
{
    is_kind(kind, fee.kind)
        && !fee.repeat
        && cycle as u64 <= fee.cycle as u64 + 6
        && fee.cycle <= cycle
}

// whether the next fee of this kind is at the repeat amount
fn is_repeat(kind: FeeKind, cycle: u32, fees: &[Fee]) -> bool
    ensures { result ≡ words.is_repeat kind cycle fees.now }
{
    for fee in fees {
        if was_first(kind, cycle, fee) {
            return true;
        }
    }
    false
}

// whether a fee was charged for the due date
fn is_charged_for(due_cycle: u32, fees: &[Fee]) -> bool
    ensures { result ≡ words.is_charged_for due_cycle fees.now }
{
    for fee in fees {
        if fee.due_cycle == due_cycle {
            return true;
        }
    }
    false
}

// the table's amount for a tier
fn amount(table: &FeeTable, day: Day, repeat: bool) -> Cents
    ensures { result ≡ pos (words.tier_amount (row_on table.now day) repeat) }
{
    match table.on(day) {
        Some((first, again)) => { if repeat { again } else { first } }
        None => 0,
    }
}

// the least of three amounts
fn least(amount: Cents, minimum: u64, last_due: u64) -> u64
    ensures value { result ≡ min (unsigned_abs amount) (min minimum last_due) }
    ensures bound { result ≤ 9_223_372_036_854_775_808 }
{
    amount.unsigned_abs().min(minimum.min(last_due))
}

// the fee of a cause, where the table's amount is at most these minimum payments
#[tactic(auto, unfolding(card_model::specs::Fees::fee_by))]
fn charge(table: &FeeTable, fees: &[Fee], cause: &Cause, minimum: u64, last_due: u64) -> Option<Fee>
    ensures { result ≡ words.fee_by (row_on table.now cause.now.day) fees.now cause.now minimum last_due }
{
    let repeat = is_repeat(cause.kind, cause.cycle, fees);
    let cents = least(amount(table, cause.day, repeat), minimum, last_due);
    if is_charged_for(cause.due_cycle, fees) || cents == 0 {
        return None;
    }
    Some(Fee {
        due_cycle: cause.due_cycle,
        kind: cause.kind,
        repeat,
        cycle: cause.cycle,
        day: cause.day,
        cents: cents as i64,
    })
}

/// The late fee for a due date that wasn't met, charged on the day after it (12 CFR 1026.52(b)(1)(ii), (b)(2)(i)(A),
/// (b)(2)(ii)): the table's amount of that day, at most the minimum payment, in cents. It is at the repeat amount where a
/// late fee at the first amount is among the fees of its cycle or of one of the six before. The fees are those charged so
/// far. None comes exactly where the fee is 0 or one was charged for the due date before. The due date isn't before the
/// opening day, and before 2100-12-31. It doesn't allocate.
pub fn late_fee(table: &FeeTable, fees: &[Fee], a: &Anchor, c: &DueCycle) -> Option<Fee>
    requires close_day { IsCloseDay a.now.close_day }
    requires opened { a.now.opened ≤ c.now.due }
    requires last { c.now.due < last_reckoned_day }
    ensures { result ≡ late_by table.now fees.now a.now c.now }
{
    let day = c.due.next();
    let cause = Cause {
        kind: FeeKind::Late,
        due_cycle: c.cycle,
        cycle: cycle_of(*a, day),
        day,
    };
    charge(table, fees, &cause, c.minimum, c.minimum)
}

/// The fee for a payment that was meant for due date k and was returned, charged on a day (12 CFR 1026.52(b)(1)(ii),
/// (b)(2)(i)(A), (b)(2)(ii)): the table's amount of that day, at most the minimum payment of cycle k and that of the last
/// due date before the day, in cents. It is at the repeat amount where such a fee at the first amount is among the fees
/// of its cycle or of one of the six before. The fees are those charged so far. None comes exactly where the fee is 0 or
/// one was charged for the due date before. The day isn't before the opening day or after 2100-12-31. It doesn't allocate.
pub fn returned_fee(
    table: &FeeTable,
    fees: &[Fee],
    a: Anchor,
    k: u32,
    day: Day,
    minimum: u64,
    last_due: u64,
) -> Option<Fee>
    requires close_day { IsCloseDay a.close_day }
    requires opened { a.opened ≤ day }
    requires last { day ≤ last_reckoned_day }
    ensures { result ≡ words.fee_by (row_on table.now day) fees.now record { kind = kind.Returned; due_cycle = k; cycle = cycle_of a day; day = day } minimum last_due }
{
    let cause = Cause {
        kind: FeeKind::Returned,
        due_cycle: k,
        cycle: cycle_of(a, day),
        day,
    };
    charge(table, fees, &cause, minimum, last_due)
}

// the fees for a due date together
fn fee_sum(due_cycle: u32, fees: &[Fee]) -> u128
    ensures { result ≡ fees_for due_cycle fees.now }
{
    let mut total = 0;
    for fee in fees {
        if fee.due_cycle == due_cycle {
            total += cents_of(fee) as u128;
        }
    }
    total
}

// a fee's cents, which are at least 0
fn cents_of(fee: &Fee) -> u64
    ensures value { result ≡ fee_cents fee.now }
    ensures bound { result ≤ 9_223_372_036_854_775_807 }
{
    fee.cents.max(0) as u64
}

// a fee at other cents, none for 0
fn above(cents: u64, fee: &Fee) -> Option<Fee>
    requires { cents ≤ 9_223_372_036_854_775_807 }
    ensures { result ≡ fee_above cents fee.now }
{
    if cents == 0 {
        return None;
    }
    Some(Fee {
        cents: cents as i64,
        ..*fee
    })
}

// the cents of a fee, at most those of the fees for its due date among issued ones
fn lower(issued: &[Fee], fee: &Fee) -> u64
    ensures value { result ≡ min (fee_cents fee.now) (fees_for fee.now.due_cycle issued.now) }
    ensures bound { result ≤ 9_223_372_036_854_775_807 }
{
    let cents = cents_of(fee);
    fee_sum(fee.due_cycle, issued).min(cents as u128) as u64
}

/// A penalty fee, at most what the issued statement of its cycle has for its due date, in cents. None comes exactly where
/// that is 0. Without an issued statement it stays as it is. It doesn't allocate.
pub fn capped_fee(issued: Option<&[Fee]>, fee: &Fee) -> Option<Fee>
    ensures { result ≡ charged_by fees_for (option_copied issued.entry) (Some fee.now) }
{
    match issued {
        Some(fees) => above(lower(fees, fee), fee),
        None => above(cents_of(fee), fee),
    }
}

/// The late fee for the due date of a cycle, charged on the day after it where the payments up to it didn't reach the minimum
/// payment (12 CFR 1026.52(b)(1)(ii), (b)(2)): the table's amount of that day, at most the minimum payment, and at most what
/// the issued statement of the cycle that is charged has for this due date, in cents. The fees are those charged so far. None
/// comes exactly where the due date was met or the fee is 0, or where one was charged for the due date before. The cycle
/// closed before its due date, which isn't before the opening day, and before 2100-12-31. What the tally counted is right for
/// these posts, and stays so; where the cycle asks for something, it holds the sum up to the due date from then on. The
/// corrected list is that of the posts under some calendar. It doesn't allocate.
pub fn due_fee(
    table: &FeeTable,
    fees: &[Fee],
    posts: &Posts,
    a: &Anchor,
    c: &DueCycle,
    issued: Option<&[Fee]>,
    tally: &mut Tally,
) -> Option<Fee>
    requires close_day { IsCloseDay a.now.close_day }
    requires opened { a.now.opened ≤ c.now.due }
    requires closed { c.now.closing < c.now.due }
    requires last { c.now.due < last_reckoned_day }
    ensures value { (holidays : List ℕ) (last : ℕ) → StandsFor holidays posts.now → IsTallyOf posts.now.corrected last tally.old → result ≡ due_fee_by table.now (option_copied issued.entry) fees.now a.now posts.now.corrected c.now }
    ensures tally { StaysRight posts.now c.now.due tally.old tally.new }
{
    if met_in_time(posts, c, tally) {
        return None;
    }
    match late_fee(table, fees, a, c) {
        Some(fee) => capped_fee(issued, &fee),
        None => None,
    }
}
