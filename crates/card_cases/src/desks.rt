// The steps of a desk: the account of the cases with its opening alone, four years on, when it takes a charge of today.
ghost use Rattle.std.specs.Prelude.{◌≡◌, ◌+◌, ◌≤◌, true, Some, [], ◌∷◌, IfOk, OnOk};
ghost use Rattle.card_cases.specs.Alone.{no_rows};
ghost use Rattle.card_book.specs.Stands.{steps_over};
ghost use Rattle.card_desk.specs.Kept.{Fits};
ghost use Rattle.card_desk.specs.Reached.{MovesToApply};
ghost use Rattle.card_desk.specs.Steps.{AreFewToApply};
ghost use Rattle.card_events.specs.Blanks.{IsBlankOf};
ghost use Rattle.card_events.specs.Dated.{is_dated};
ghost use Rattle.card_events.specs.Range.{last_request_day};
ghost use Rattle.card_model.specs.Machine.{step};
ghost use Rattle.card_replay.specs.Replays.{given_of};
ghost use Rattle.card_cases.specs.Aged.{HasReachedNear, account, charged, first_day, first_rolls, later_rolls, ledger, lists_of, opened, rolls};

use crate::account::opening;
use crate::values::{day, name, num};
use card_desk::{Desk, View};
use card_events::{Day, Place, Post, Request, Shared, Steps};
use card_ports::MemoryKeeper;
use std::alloc::Global;
use std::marker::Brand;
use std::process::Abort;
use std::sync::ledger::{Blank, Ledger};
use std::test::Fail;

// A request that is carried out.
fn carry<L: Ledger, M: Ledger>(
    alloc: Global,
    desk: &mut Desk,
    keeper: &mut MemoryKeeper,
    request: &Request,
    steps: &mut Steps<L>,
    put_off: &mut Steps<M>,
) -> Result<(), Fail>
    requires dated { is_dated request.now ≡ true }
    requires fits { Fits (Some keeper.old) desk.old.state }
    ensures state { OnOk result (desk.new.state ≡ (step desk.old.state request.now).0) }
    ensures fits { OnOk result (Fits (Some keeper.new) desk.new.state) }
    ensures reached { OnOk result (MovesToApply request.now result desk.old desk.new) }
    ensures most { AreFewToApply desk.old request.now steps.old steps.new }
{
    match desk.apply(alloc, keeper, request, steps, put_off) {
        Ok(_) => Ok(()),
        Err(_) => Err(Fail::from("a fault")),
    }
}

fn roll<L: Ledger, M: Ledger>(
    alloc: Global,
    desk: &mut Desk,
    keeper: &mut MemoryKeeper,
    day: Day,
    steps: &mut Steps<L>,
    put_off: &mut Steps<M>,
) -> Result<(), Fail>
    requires dated { day ≤ last_request_day }
    requires fits { Fits (Some keeper.old) desk.old.state }
    ensures state { OnOk result (desk.new.state ≡ (step desk.old.state (Request.Shared (Shared.Roll day))).0) }
    ensures fits { OnOk result (Fits (Some keeper.new) desk.new.state) }
    ensures reached { OnOk result (desk.new.reached ≡ desk.old.reached) }
{
    carry(
        alloc,
        desk,
        keeper,
        &Request::Shared(Shared::Roll(day)),
        steps,
        put_off,
    )
}

// A post on the account, under a key.
fn post_of(rt: &impl Abort, key: &str, post: Post) -> Request
    ensures { result ≡ Request.Post account key.now post }
{
    Request::Post {
        account: name(rt, "a"),
        key: name(rt, key),
        post,
    }
}

// It is opened on 2024-01-06, and has reached the day before.
fn open_account<L: Ledger, M: Ledger>(
    rt: &impl Abort,
    alloc: Global,
    desk: &mut Desk,
    keeper: &mut MemoryKeeper,
    steps: &mut Steps<L>,
    put_off: &mut Steps<M>,
) -> Result<(), Fail>
    requires state { desk.old.state ≡ first_day }
    requires reached { desk.old.reached ≡ [] }
    requires fits { Fits (Some keeper.old) desk.old.state }
    ensures state { OnOk result (desk.new.state ≡ ledger 19_728 first_rolls opened) }
    ensures fits { OnOk result (Fits (Some keeper.new) desk.new.state) }
    ensures reached { OnOk result (desk.new.reached ≡ 19_727 ∷ []) }
{
    let request = post_of(rt, "o", opening(rt));
    carry(alloc, desk, keeper, &request, steps, put_off)
}

// Four years go by, to 2028-01-03.
fn age<L: Ledger, M: Ledger>(
    rt: &impl Abort,
    alloc: Global,
    desk: &mut Desk,
    keeper: &mut MemoryKeeper,
    steps: &mut Steps<L>,
    put_off: &mut Steps<M>,
) -> Result<(), Fail>
    requires state { desk.old.state ≡ ledger 19_728 first_rolls opened }
    requires fits { Fits (Some keeper.old) desk.old.state }
    ensures state { OnOk result (desk.new.state ≡ ledger 21_186 rolls opened) }
    ensures fits { OnOk result (Fits (Some keeper.new) desk.new.state) }
    ensures reached { OnOk result (desk.new.reached ≡ desk.old.reached) }
{
    roll(alloc, desk, keeper, day(rt, 20_094), steps, put_off)?;
    roll(alloc, desk, keeper, day(rt, 20_460), steps, put_off)?;
    roll(alloc, desk, keeper, day(rt, 20_826), steps, put_off)?;
    roll(alloc, desk, keeper, day(rt, 21_186), steps, put_off)
}

// What is owed on it is asked, so that it reaches that day.
fn ask<L: Ledger>(
    rt: &impl Abort,
    alloc: Global,
    desk: &mut Desk,
    steps: &mut Steps<L>,
) -> Result<View, Fail>
    requires state { desk.old.state ≡ ledger 21_186 rolls opened }
    requires reached { desk.old.reached ≡ 19_727 ∷ [] }
    ensures state { desk.new.state ≡ desk.old.state }
    ensures reached { OnOk result (desk.new.reached ≡ 21_186 ∷ []) }
{
    let account = name(rt, "a");
    Ok(desk.show(alloc, &account, steps)?)
}

// On the next day it takes a charge of that day, in at most six steps: two of the days of its open cycle, 2028-01-02, the day
// after a due date, and 2028-01-04, are break days. Folded from its opening day on it takes 96. It isn't taken back behind the
// last closing, 2027-12-05.
fn charge<L: Ledger, M: Ledger>(
    rt: &impl Abort,
    alloc: Global,
    desk: &mut Desk,
    keeper: &mut MemoryKeeper,
    steps: &mut Steps<L>,
    put_off: &mut Steps<M>,
) -> Result<(), Fail>
    requires state { desk.old.state ≡ ledger 21_187 later_rolls opened }
    requires reached { desk.old.reached ≡ 21_186 ∷ [] }
    requires fits { Fits (Some keeper.old) desk.old.state }
    ensures state { OnOk result (desk.new.state ≡ ledger 21_187 later_rolls charged) }
    ensures near { OnOk result (HasReachedNear desk.new.reached) }
    ensures six { steps.new ≤ steps.old + 6 }
    ensures whole { steps_over (given_of (lists_of charged) no_rows) 21_187 19_728 ≡ 96 }
{
    let charge = Post::Charge {
        day: day(rt, 21_187),
        place: Place::Purchase,
        cents: num(rt, 5_000),
    };
    let request = post_of(rt, "c", charge);
    carry(alloc, desk, keeper, &request, steps, put_off)
}

// So what is owed after it is told in at most four steps: one for each break day from that closing on, and one more.
fn owed<L: Ledger>(
    rt: &impl Abort,
    alloc: Global,
    desk: &mut Desk,
    steps: &mut Steps<L>,
) -> Result<View, Fail>
    requires state { desk.old.state ≡ ledger 21_187 later_rolls charged }
    requires near { HasReachedNear desk.old.reached }
    ensures reached { OnOk result (desk.new.reached ≡ 21_187 ∷ []) }
    ensures four { steps.new ≤ steps.old + 4 }
{
    let account = name(rt, "a");
    Ok(desk.show(alloc, &account, steps)?)
}

// All of these, with counters of its own.
fn charge_and_ask<L: Ledger, M: Ledger>(
    rt: &impl Abort,
    alloc: Global,
    blank: Blank,
    other: Blank,
) -> Result<View, Fail>
    requires own { IsBlankOf L.name L.parts blank.name blank.parts }
    requires other { IsBlankOf M.name M.parts other.name other.parts }
{
    let mut desk = Desk::new(alloc);
    let mut keeper = MemoryKeeper::new(alloc);
    let mut steps = Steps::<L>::new(blank);
    let mut put_off = Steps::<M>::new(other);
    roll(
        alloc,
        &mut desk,
        &mut keeper,
        day(rt, 19_728),
        &mut steps,
        &mut put_off,
    )?;
    open_account(rt, alloc, &mut desk, &mut keeper, &mut steps, &mut put_off)?;
    age(rt, alloc, &mut desk, &mut keeper, &mut steps, &mut put_off)?;
    ask(rt, alloc, &mut desk, &mut steps)?;
    roll(
        alloc,
        &mut desk,
        &mut keeper,
        day(rt, 21_187),
        &mut steps,
        &mut put_off,
    )?;
    charge(rt, alloc, &mut desk, &mut keeper, &mut steps, &mut put_off)?;
    owed(rt, alloc, &mut desk, &mut steps)
}

// With counters that count nothing.
fn shown(rt: &impl Abort, alloc: Global) -> Result<View, Fail> {
    charge_and_ask::<Brand, Brand>(rt, alloc, Blank::new(1), Blank::new(1))
}

#[test]
fn steps_of_a_desk(rt: HostRuntime) -> Result<(), Fail> {
    assert!(rt; matches!(shown(&rt, rt.alloc())?, View::Show { owed: 5_000, .. }));
    Ok(())
}
