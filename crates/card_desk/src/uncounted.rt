//! Calls on a desk that is lent to who asks. Nobody counts the steps of these calls.
ghost use Rattle.std.specs.Prelude.{◌≡◌, ℕ, true, Err, IfOk, OnErr};
ghost use Rattle.card_desk.specs.Apart.{IsApart};
ghost use Rattle.card_desk.specs.Applied.{IsCounted};
ghost use Rattle.card_desk.specs.Applied as applied;
ghost use Rattle.card_desk.specs.Kept.{AreDamagedAt, Fits, IsLoadedOf};
ghost use Rattle.card_desk.specs.Reached.{MovesNamed, MovesToApply, MovesToSee};
ghost use Rattle.card_desk.specs.Views.{seen, shown};
ghost use Rattle.card_events.specs.Dated.{is_dated};
ghost use Rattle.card_ports.specs.Rows.{KeepsRows, SameRowsTold};
ghost use Rattle.card_model.specs.Machine.{lists_of};
ghost use Rattle.card_events.specs.Blanks.{IsBlankOf};

use crate::{Ask, Desk, Fault, LoadFault, View};
use card_events::{Name, NoMemory, Reply, Request, Steps};
use card_ports::Keeper;
use std::alloc::Global;
use std::marker::Brand;
use std::sync::ledger::{Blank, Ledger};

fn apply_counted<K: Keeper, L: Ledger, M: Ledger>(
    alloc: Global,
    desk: &mut Desk,
    keeper: &mut K,
    request: &Request,
    blank: Blank,
    other: Blank,
) -> Result<Reply, Fault>
    requires own { IsBlankOf L.name L.parts blank.name blank.parts }
    requires other { IsBlankOf M.name M.parts other.name other.parts }
    requires dated { is_dated request.now ≡ true }
    requires fits { Fits (K.rows keeper.old) desk.old.state }
    ensures ok { IfOk result (applied.Steps (K.rows keeper.old) (K.rows keeper.new) desk.old.state request.now desk.new.state) }
    ensures apart { IfOk result (IsApart desk.old.state request.now desk.new.state) }
    ensures err { OnErr result (desk.new.state ≡ desk.old.state) }
    ensures rows_stay { OnErr result (KeepsRows (K.rows keeper.old) (K.rows keeper.new)) }
    ensures told { SameRowsTold (K.rows keeper.old) (K.rows keeper.new) }
    ensures counts { IsCounted Fault.Keeper Fault.Memory (K.faults keeper.old) (K.faults keeper.new) result }
    ensures reached { MovesToApply request.now result desk.old desk.new }
{
    let mut steps = Steps::<L>::new(blank);
    let mut put_off = Steps::<M>::new(other);
    desk.apply(alloc, keeper, request, &mut steps, &mut put_off)
}

/// Carries out a request, as `Desk::apply` does: one step of the machine, and the row of a newly accepted request is kept. The
/// request has days of requests, and the keeper's rows continue the desk's state.
///
/// `Keeper`: the keeper failed, which alone raises its count. `Memory`: memory ran out. After either the
/// desk's state and the rows are as they were.
pub fn apply<K: Keeper>(
    alloc: Global,
    desk: &mut Desk,
    keeper: &mut K,
    request: &Request,
) -> Result<Reply, Fault>
    requires dated { is_dated request.now ≡ true }
    requires fits { Fits (K.rows keeper.old) desk.old.state }
    ensures ok { IfOk result (applied.Steps (K.rows keeper.old) (K.rows keeper.new) desk.old.state request.now desk.new.state) }
    ensures apart { IfOk result (IsApart desk.old.state request.now desk.new.state) }
    ensures err { OnErr result (desk.new.state ≡ desk.old.state) }
    ensures rows_stay { OnErr result (KeepsRows (K.rows keeper.old) (K.rows keeper.new)) }
    ensures told { SameRowsTold (K.rows keeper.old) (K.rows keeper.new) }
    ensures counts { IsCounted Fault.Keeper Fault.Memory (K.faults keeper.old) (K.faults keeper.new) result }
    ensures reached { MovesToApply request.now result desk.old desk.new }
{
    let (blank, other) = (Blank::new(1), Blank::new(1));
    apply_counted::<K, Brand, Brand>(alloc, desk, keeper, request, blank, other)
}

fn see_counted<L: Ledger, M: Ledger>(
    alloc: Global,
    desk: &mut Desk,
    ask: &Ask,
    blank: Blank,
    other: Blank,
) -> Result<View, NoMemory>
    requires own { IsBlankOf L.name L.parts blank.name blank.parts }
    requires other { IsBlankOf M.name M.parts other.name other.parts }
    ensures state { desk.new.state ≡ desk.old.state }
    ensures view { IfOk result (λ view. view ≡ seen desk.old.state ask.now) }
    ensures reached { MovesToSee ask.now result desk.old desk.new }
{
    let mut steps = Steps::<L>::new(blank);
    let mut put_off = Steps::<M>::new(other);
    desk.see(alloc, ask, &mut steps, &mut put_off)
}

/// The answer to what is asked, as `Desk::see` gives it, or that memory ran out. The state stays, whatever is answered.
pub fn see(alloc: Global, desk: &mut Desk, ask: &Ask) -> Result<View, NoMemory>
    ensures state { desk.new.state ≡ desk.old.state }
    ensures view { IfOk result (λ view. view ≡ seen desk.old.state ask.now) }
    ensures reached { MovesToSee ask.now result desk.old desk.new }
{
    see_counted::<Brand, Brand>(alloc, desk, ask, Blank::new(1), Blank::new(1))
}

fn show_counted<L: Ledger>(
    alloc: Global,
    desk: &mut Desk,
    account: &Name,
    blank: Blank,
) -> Result<View, NoMemory>
    requires own { IsBlankOf L.name L.parts blank.name blank.parts }
    ensures state { desk.new.state ≡ desk.old.state }
    ensures view { IfOk result (λ view. view ≡ shown desk.old.state (lists_of account.now desk.old.state.accounts)) }
    ensures reached { MovesNamed account.now result desk.old desk.new }
{
    let mut steps = Steps::<L>::new(blank);
    desk.show(alloc, account, &mut steps)
}

/// What is owed on an account today, in cents, or that it isn't there, as `Desk::show` gives it; or that memory ran out. The state
/// stays, whatever is answered.
pub fn show(alloc: Global, desk: &mut Desk, account: &Name) -> Result<View, NoMemory>
    ensures state { desk.new.state ≡ desk.old.state }
    ensures view { IfOk result (λ view. view ≡ shown desk.old.state (lists_of account.now desk.old.state.accounts)) }
    ensures reached { MovesNamed account.now result desk.old desk.new }
{
    show_counted::<Brand>(alloc, desk, account, Blank::new(1))
}

fn load_counted<K: Keeper, L: Ledger>(
    alloc: Global,
    keeper: &mut K,
    blank: Blank,
) -> Result<Desk, LoadFault>
    requires own { IsBlankOf L.name L.parts blank.name blank.parts }
    ensures ok { IfOk result (λ d. IsLoadedOf (K.rows keeper.old) d.state) }
    ensures fits { IfOk result (λ d. Fits (K.rows keeper.new) d.state) }
    ensures damaged { (n : ℕ) → result ≡ Err (LoadFault.Damaged n) → AreDamagedAt (K.rows keeper.old) n }
    ensures rows_stay { KeepsRows (K.rows keeper.old) (K.rows keeper.new) }
    ensures told { SameRowsTold (K.rows keeper.old) (K.rows keeper.new) }
    ensures counts { IsCounted LoadFault.Keeper LoadFault.Memory (K.faults keeper.old) (K.faults keeper.new) result }
    ensures damaged_count { (n : ℕ) → result ≡ Err (LoadFault.Damaged n) → K.faults keeper.new ≡ K.faults keeper.old }
{
    let mut steps = Steps::<L>::new(blank);
    Desk::load(alloc, keeper, &mut steps)
}

/// The desk that the kept rows give, as `Desk::load` gives it. The rows stay, whatever is answered.
///
/// `Damaged(n)`: row n, counted from 1, is the first whose number isn't n, whose body is no spelling, or whose request is
/// refused or a repeat in its place. `Keeper`: the keeper failed, which alone raises its count. `Memory`: memory ran out and
/// isn't there.
pub fn load<K: Keeper>(alloc: Global, keeper: &mut K) -> Result<Desk, LoadFault>
    ensures ok { IfOk result (λ d. IsLoadedOf (K.rows keeper.old) d.state) }
    ensures fits { IfOk result (λ d. Fits (K.rows keeper.new) d.state) }
    ensures damaged { (n : ℕ) → result ≡ Err (LoadFault.Damaged n) → AreDamagedAt (K.rows keeper.old) n }
    ensures rows_stay { KeepsRows (K.rows keeper.old) (K.rows keeper.new) }
    ensures told { SameRowsTold (K.rows keeper.old) (K.rows keeper.new) }
    ensures counts { IsCounted LoadFault.Keeper LoadFault.Memory (K.faults keeper.old) (K.faults keeper.new) result }
    ensures damaged_count { (n : ℕ) → result ≡ Err (LoadFault.Damaged n) → K.faults keeper.new ≡ K.faults keeper.old }
{
    load_counted::<K, Brand>(alloc, keeper, Blank::new(1))
}
