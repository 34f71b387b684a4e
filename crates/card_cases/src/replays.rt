// The steps of an account: that of the cases with its opening alone, folded on from its opening day.
ghost use Rattle.std.specs.Prelude.{◌≡◌, ◌+◌, ◌≤◌, IfOk, OnOk};
ghost use Rattle.card_cases.specs.Alone.{HasOpeningAlone, charge, no_rows};
ghost use Rattle.card_replay.specs.Replays.{IsToday};
ghost use Rattle.card_events.specs.Blanks.{IsBlankOf};

use crate::account::opening;
use crate::values::{day, name, num};
use card_events::{NoMemory, Place, Post, Steps};
use card_fees::SharedRows;
use card_replay::Replay;
use std::alloc::Global;
use std::marker::Brand;
use std::process::Abort;
use std::sync::ledger::{Blank, Ledger};
use std::test::Fail;

// Nothing is folded when it is opened, and one step for the opening day, 2024-01-06.
fn opened<L: Ledger>(
    rt: &impl Abort,
    alloc: Global,
    shared: &SharedRows,
    steps: &mut Steps<L>,
) -> Result<Replay, Fail>
    requires nothing { shared.now ≡ no_rows }
    ensures alone { IfOk result (λ r. HasOpeningAlone r.lists) }
    ensures today { IfOk result (IsToday 19_728 shared.now) }
    ensures one { steps.new ≤ steps.old + 1 }
{
    let key = name(rt, "o");
    let opened = day(rt, 19_728);
    let mut account = Replay::start(alloc, &key, opened, &opening(rt), shared)?;
    account.to_day(alloc, opened, shared, steps)?;
    Ok(account)
}

// Four steps to 2024-03-10: for 2024-02-05 and 2024-03-05, which close cycles, 2024-03-02, the day after a due date, and the
// last day.
fn reach_march_10<L: Ledger>(
    rt: &impl Abort,
    alloc: Global,
    shared: &SharedRows,
    account: &mut Replay,
    steps: &mut Steps<L>,
) -> Result<(), NoMemory>
    requires nothing { shared.now ≡ no_rows }
    requires alone { HasOpeningAlone account.old.lists }
    requires today { IsToday 19_728 shared.now account.old }
    ensures alone { HasOpeningAlone account.new.lists }
    ensures today { OnOk result (IsToday 19_792 shared.now account.new) }
    ensures four { OnOk result (steps.new ≡ steps.old + 4) }
{
    account.to_day(alloc, day(rt, 19_792), shared, steps)
}

// One more to the next day.
fn reach_march_11<L: Ledger>(
    rt: &impl Abort,
    alloc: Global,
    shared: &SharedRows,
    account: &mut Replay,
    steps: &mut Steps<L>,
) -> Result<(), NoMemory>
    requires nothing { shared.now ≡ no_rows }
    requires alone { HasOpeningAlone account.old.lists }
    requires today { IsToday 19_792 shared.now account.old }
    ensures alone { HasOpeningAlone account.new.lists }
    ensures today { OnOk result (IsToday 19_793 shared.now account.new) }
    ensures one { OnOk result (steps.new ≡ steps.old + 1) }
{
    account.to_day(alloc, day(rt, 19_793), shared, steps)
}

// And none where it has reached that day.
fn stay_at_march_11<L: Ledger>(
    rt: &impl Abort,
    alloc: Global,
    shared: &SharedRows,
    account: &mut Replay,
    steps: &mut Steps<L>,
) -> Result<(), NoMemory>
    requires nothing { shared.now ≡ no_rows }
    requires alone { HasOpeningAlone account.old.lists }
    requires today { IsToday 19_793 shared.now account.old }
    ensures alone { HasOpeningAlone account.new.lists }
    ensures today { OnOk result (IsToday 19_793 shared.now account.new) }
    ensures none { OnOk result (steps.new ≡ steps.old) }
{
    account.to_day(alloc, day(rt, 19_793), shared, steps)
}

// A charge of 2024-03-12.
fn charge(rt: &impl Abort) -> Post
    ensures { result ≡ charge }
{
    Post::Charge {
        day: day(rt, 19_794),
        place: Place::Purchase,
        cents: num(rt, 5_000),
    }
}

// It is accepted on its day, and its number answered: one step to reach that day, at most two to fold its cycle again, and none
// to take it; no load put off any.
fn accept<L: Ledger, M: Ledger>(
    rt: &impl Abort,
    alloc: Global,
    shared: &SharedRows,
    account: &mut Replay,
    steps: &mut Steps<L>,
    put_off: &mut Steps<M>,
) -> Result<u32, Fail>
    requires nothing { shared.now ≡ no_rows }
    requires alone { HasOpeningAlone account.old.lists }
    requires today { IsToday 19_793 shared.now account.old }
    ensures three { OnOk result (steps.new ≤ steps.old + 3) }
    ensures both { OnOk result (steps.new + put_off.new ≤ steps.old + put_off.old + 3) }
{
    let key = name(rt, "c");
    assert!(rt; account.posts().with_key(&key).is_none());
    let today = day(rt, 19_794);
    let post = charge(rt);
    let from = account.first_change(&post, today, shared);
    let change = account.prepare(alloc, key, &post, today, from, shared, steps, put_off)?;
    Ok(account.commit(change, shared))
}

// All of these, with counters of its own: the number of the charge.
fn accept_alone<L: Ledger, M: Ledger>(
    rt: &impl Abort,
    alloc: Global,
    blank: Blank,
    other: Blank,
) -> Result<u32, Fail>
    requires own { IsBlankOf L.name L.parts blank.name blank.parts }
    requires other { IsBlankOf M.name M.parts other.name other.parts }
{
    let shared = SharedRows::new(alloc);
    let mut steps = Steps::<L>::new(blank);
    let mut put_off = Steps::<M>::new(other);
    let mut account = opened(rt, alloc, &shared, &mut steps)?;
    reach_march_10(rt, alloc, &shared, &mut account, &mut steps)?;
    reach_march_11(rt, alloc, &shared, &mut account, &mut steps)?;
    stay_at_march_11(rt, alloc, &shared, &mut account, &mut steps)?;
    accept(rt, alloc, &shared, &mut account, &mut steps, &mut put_off)
}

// With counters that count nothing.
fn accepted(rt: &impl Abort, alloc: Global) -> Result<u32, Fail> {
    accept_alone::<Brand, Brand>(rt, alloc, Blank::new(1), Blank::new(1))
}

#[test]
fn steps_of_an_account(rt: HostRuntime) -> Result<(), Fail> {
    assert_eq!(rt; accepted(&rt, rt.alloc())?, 2);
    Ok(())
}
