// A desk from kept rows.
ghost use Rattle.std.specs.Prelude.{◌≡◌, ◌≤◌, ◌+◌, ℕ, true, false, IfOk, OnOk, IsErrOf};
ghost use Rattle.card_events.specs.Dated.{is_dated};
ghost use Rattle.card_events.specs.declared.request.Request.{Request};
ghost use Rattle.card_ports.specs.Rows.{GivesRows, KeepsRows, SameRowsTold};
ghost use Rattle.card_model.specs.Machine.{is_new, step};
ghost use Rattle.card_desk.specs.Applied.{IsCounted};
ghost use Rattle.card_desk.specs.Kept.{AreDamaged, IsNewRow, IsRunOf, accepted_count};
ghost use Rattle.card_desk.specs.Loads.{GoesOn};
ghost use Rattle.card_rows.specs.Held.{is_request};

use crate::Desk;
use crate::fault::LoadFault;
use card_events::{NoMemory, Request, Steps};
use card_ports::{Keeper, KeeperFault, Rows};
use card_rows::decode;
use std::alloc::Global;
use std::sync::ledger::Ledger;

impl Desk {
    ghost use Rattle.std.specs.Prelude.{◌≡◌, ◌≤◌, ℕ, Err, IfOk, OnOk, IsErrOf};
    ghost use Rattle.card_ports.specs.Rows.{KeepsRows, SameRowsTold};
    ghost use Rattle.card_desk.specs.Applied.{IsCounted};
    ghost use Rattle.card_desk.specs.Kept.{AreDamagedAt, IsLoadedOf, Fits};

    /// The desk that the kept rows give: that of a run of their requests. The rows stay, whatever is answered. Nothing is said of the
    /// steps. No account is folded for a Bill: its statement is made when a fold passes its day, when it is asked for, or before a post is
    /// taken that changes a day up to its closing.
    ///
    /// `Damaged(n)`: row n, counted from 1, is the first whose number isn't n, whose body is no spelling, or whose request
    /// is refused or a repeat in its place; it never comes for rows that a desk wrote.
    /// `Keeper`: the keeper failed, which alone raises its count. `Memory`: memory ran out.
    pub fn load<K: Keeper, L: Ledger>(
        alloc: Global,
        keeper: &mut K,
        steps: &mut Steps<L>,
    ) -> Result<Desk, LoadFault>
        ensures ok { IfOk result (λ d. IsLoadedOf (K.rows keeper.old) d.state) }
        ensures fits { IfOk result (λ d. Fits (K.rows keeper.new) d.state) }
        ensures damaged { (n : ℕ) → result ≡ Err (LoadFault.Damaged n) → AreDamagedAt (K.rows keeper.old) n }
        ensures rows_stay { KeepsRows (K.rows keeper.old) (K.rows keeper.new) }
        ensures told { SameRowsTold (K.rows keeper.old) (K.rows keeper.new) }
        ensures counts { IsCounted LoadFault.Keeper LoadFault.Memory (K.faults keeper.old) (K.faults keeper.new) result }
        ensures damaged_count { (n : ℕ) → result ≡ Err (LoadFault.Damaged n) → K.faults keeper.new ≡ K.faults keeper.old }
    {
        let rows = kept_rows(alloc, keeper)?;
        run_rows(alloc, &rows, steps)
    }
}

// All rows that are kept.
fn kept_rows<K: Keeper>(alloc: Global, keeper: &mut K) -> Result<Rows, LoadFault>
    ensures given { IfOk result (λ all. GivesRows (K.rows keeper.old) all) }
    ensures damaged { (n : ℕ) → IsErrOf result (LoadFault.Damaged n) → ⊥ }
    ensures rows_stay { KeepsRows (K.rows keeper.old) (K.rows keeper.new) }
    ensures told { SameRowsTold (K.rows keeper.old) (K.rows keeper.new) }
    ensures counts { IsCounted LoadFault.Keeper LoadFault.Memory (K.faults keeper.old) (K.faults keeper.new) result }
{
    match keeper.load_packed(alloc) {
        Ok(rows) => Ok(rows),
        Err(KeeperFault::Failed) => Err(LoadFault::Keeper),
        Err(KeeperFault::Memory) => Err(LoadFault::Memory),
    }
}

// Carries out the requests of rows, from the first day on.
fn run_rows<L: Ledger>(alloc: Global, rows: &Rows, steps: &mut Steps<L>) -> Result<Desk, LoadFault>
    ensures ok { IfOk result (λ d. IsRunOf rows.now d.state) }
    ensures damaged { (n : ℕ) → IsErrOf result (LoadFault.Damaged n) → AreDamaged rows.now n }
    ensures never { IsErrOf result LoadFault.Keeper → ⊥ }
{
    let mut desk = Desk::new(alloc);
    for i in 0..rows.len() {
        let number = i as u64 + 1;
        if !run_row(alloc, &mut desk, number, rows.seq(i), rows.body(i), steps)? {
            return Err(LoadFault::Damaged(number));
        }
    }
    Ok(desk)
}

// Carries out the request of the row that has this place, and says whether it is one that is newly accepted.
fn run_row<L: Ledger>(
    alloc: Global,
    desk: &mut Desk,
    number: u64,
    seq: u64,
    body: &[u8],
    steps: &mut Steps<L>,
) -> Result<bool, NoMemory>
    ensures new { IfOk result (λ new. new ≡ true → GoesOn desk.old.state number (record { seq = seq; body = body.now }) desk.new.state) }
    ensures bad { IfOk result (λ new. new ≡ false → (r : Request) → IsNewRow desk.old.state number (record { seq = seq; body = body.now }) r → ⊥) }
{
    if seq != number {
        return Ok(false);
    }
    match decode(body) {
        Some(request) => run_request(alloc, desk, &request, steps),
        None => Ok(false),
    }
}

// Carries out a request, and says whether it was newly accepted.
fn run_request<L: Ledger>(
    alloc: Global,
    desk: &mut Desk,
    request: &Request,
    steps: &mut Steps<L>,
) -> Result<bool, NoMemory>
    requires dated { is_dated request.now ≡ true }
    requires taken { is_request request.now ≡ true }
    ensures new { IfOk result (λ new. new ≡ is_new desk.old.state request.now) }
    ensures step { OnOk result (desk.new.state ≡ (step desk.old.state request.now).0) }
{
    let count = desk.count();
    desk.carry_loaded(alloc, request, steps)?;
    // No desk keeps the row of a refusal or a repeat, so a row with one is damaged.
    Ok(desk.count() > count)
}
