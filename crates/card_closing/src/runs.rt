// Runs of equal days, and sums over their days.
ghost use Rattle.std.specs.Prelude.{◌≡◌, ℕ, ◌+◌, ◌-◌, ◌*◌, ◌<◌, ◌≤◌, ◌^◌, ◌&&◌, nat_le, nat_lt, true, false, List, ◌++◌, length};
ghost use Rattle.std.specs.List.{sum_by};
ghost use Rattle.card_events.specs.Money.{daily};
ghost use Rattle.card_model.specs.Limits.{balance_limit};
ghost use Rattle.card_model.specs.Interest.{half_up};
ghost use Rattle.card_closing.specs.Rows.{DayRow, bearing, equal_days, repaid_later};
ghost use Rattle.card_closing.specs.Runs.{AreRuns, days_behind, ends_with, run_days, spread};

use crate::rows::Repayment;
use card_events::{Bp, Day, daily};
use card_model::GraceCase;

/// Days in a row with the same balance in cents and the same rate.
#[derive(Clone, Copy)]
pub struct Run {
    pub days: u32,
    pub balance: u64,
    pub rate: Bp,
}

// Lengthens the last run, where its days are equal to these.
pub fn lengthen(runs: &mut Vec<Run>, more: &Run) -> bool
    requires runs { AreRuns runs.old.items }
    requires few { run_days runs.old.items + more.now.days ≤ 31 }
    ensures joins { result ≡ ends_with more.now.balance more.now.rate runs.old.items }
    ensures runs { AreRuns runs.new.items }
    ensures lengthened { result ≡ true → (first : ℕ) → spread first runs.new.items ≡ spread first runs.old.items ++ days_behind first runs.old.items more.now }
    ensures other { result ≡ false → runs.new.items ≡ runs.old.items }
{
    let count = runs.len();
    if count == 0 {
        return false;
    }
    let last = &mut runs[count - 1];
    if last.balance != more.balance || last.rate != more.rate {
        return false;
    }
    last.days += more.days;
    true
}

// A balance less what was repaid on the days after one, up to a due date.
fn lowered(balance: u64, repaid: &[Repayment], day: u32, due: Day) -> u64
    ensures { result ≡ balance - repaid_later repaid.now day due }
{
    let mut left = balance;
    for r in repaid {
        if day < r.day.number() as u32 && r.day <= due {
            left = left.saturating_sub(r.cents);
        }
    }
    left
}

// The sooner of a day and of the repayment's, where that is after one and counts for a due date.
fn sooner(r: &Repayment, day: u32, next: u32, due: Day) -> u32
    requires after { day < next }
    ensures after { day < result }
    ensures within { result ≤ next }
    ensures same { (d : ℕ) → day ≤ d → d < result → (nat_lt d r.now.day && nat_le r.now.day due) ≡ (nat_lt day r.now.day && nat_le r.now.day due) }
{
    let on = r.day.number() as u32;
    if day < on && on < next && r.day <= due {
        on
    } else {
        next
    }
}

// The first day after one, up to an end, from which on less is repaid later, up to a due date.
fn next_repaid(repaid: &[Repayment], day: u32, end: u32, due: Day) -> u32
    requires after { day < end }
    ensures after { day < result }
    ensures within { result ≤ end }
    ensures same { (d : ℕ) → day ≤ d → d < result → repaid_later repaid.now d due ≡ repaid_later repaid.now day due }
{
    let mut next = end;
    for r in repaid {
        next = sooner(r, day, next, due);
    }
    next
}

// The lowered balances of a run's days, together: those of one day for each piece in which nothing is repaid.
fn lowered_days(run: &Run, first: u32, due: Day, repaid: &[Repayment]) -> u64
    requires few { run.now.days ≤ 31 }
    requires balance { run.now.balance ≤ balance_limit }
    requires first { first ≤ 50_000 }
    ensures sum { result ≡ sum_by (λ (r : DayRow). r.balance - repaid_later repaid.now r.day due) (equal_days first run.now.days run.now.balance run.now.rate) }
    ensures bound { result ≤ run.now.days * balance_limit }
{
    let end = first + run.days;
    let mut sum = 0;
    let mut day = first;
    while day < end {
        let next = next_repaid(repaid, day, end, due);
        sum += (next - day) as u64 * lowered(run.balance, repaid, day, due);
        day = next;
    }
    sum
}

// The balances of a run's days that bear interest, together.
fn bearing(run: &Run, first: u32, case: &GraceCase, repaid: &[Repayment]) -> u64
    requires few { run.now.days ≤ 31 }
    requires balance { run.now.balance ≤ balance_limit }
    requires first { first ≤ 50_000 }
    ensures sum { result ≡ sum_by (bearing case.now repaid.now) (equal_days first run.now.days run.now.balance run.now.rate) }
    ensures bound { result ≤ run.now.days * balance_limit }
{
    match case {
        GraceCase::None => 0,
        GraceCase::Lowered(due) => lowered_days(run, first, *due, repaid),
        GraceCase::Plain => run.days as u64 * run.balance,
    }
}

// The sum of the balances that bear interest.
pub fn balances_sum(runs: &[Run], first: u32, case: &GraceCase, repaid: &[Repayment]) -> u64
    requires runs { AreRuns runs.now }
    requires first { first ≤ 49_000 }
    ensures sum { result ≡ sum_by (bearing case.now repaid.now) (spread first runs.now) }
    ensures bound { result ≤ run_days runs.now * balance_limit }
{
    let mut sum = 0;
    let mut day = first;
    for run in runs {
        sum += bearing(run, day, case, repaid);
        day += run.days;
    }
    sum
}

// The sum of the balances that bear interest, each times its day's rate.
pub fn rate_sum(runs: &[Run], first: u32, case: &GraceCase, repaid: &[Repayment]) -> u128
    requires runs { AreRuns runs.now }
    requires first { first ≤ 49_000 }
    ensures sum { result ≡ sum_by (λ (r : DayRow). bearing case.now repaid.now r * daily r.rate) (spread first runs.now) }
    ensures bound { result ≤ run_days runs.now * 2_739_452 * balance_limit }
{
    let mut sum = 0;
    let mut day = first;
    for run in runs {
        let balances = bearing(run, day, case, repaid);
        sum += balances as u128 * daily(run.rate) as u128;
        day += run.days;
    }
    sum
}

// How many days there are.
pub fn days(runs: &[Run]) -> u32
    requires { run_days runs.now ≤ 31 }
    ensures { result ≡ run_days runs.now }
{
    let mut count = 0;
    for run in runs {
        count += run.days;
    }
    count
}

// A sum divided by a count of days, half up, and 0 by none.
pub fn half_up(sum: u64, count: u32) -> u64
    requires count { count ≤ 31 }
    requires sum { sum ≤ count * balance_limit }
    ensures value { result ≡ half_up sum count }
    ensures bound { result ≤ 10 ^ 17 }
{
    if count == 0 {
        return 0;
    }
    let days = count as u64;
    (2 * sum + days) / (2 * days)
}
