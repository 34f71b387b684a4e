// A ledger whose rows are kept in memory of its own.
ghost use Rattle.std.specs.Prelude.{◌≡◌, ◌+◌, ◌^◌, ℕ, true, Some, IfOk, OnOk};
ghost use Rattle.card_demo.specs.Progress.{is_refusal};
ghost use Rattle.card_demo.specs.Sums as spec;
ghost use Rattle.card_desk.specs.Kept.{Fits};
ghost use Rattle.card_desk.specs.Views.{seen};
ghost use Rattle.card_events.specs.Dated.{is_dated};
ghost use Rattle.card_model.specs.Machine.{step};

use crate::names::account_name;
use crate::totals::{Totals, with_entries};
use card_desk::{Ask, Desk, Fault, View, uncounted};
use card_events::{NoMemory, Reply, Request};
use card_ports::MemoryKeeper;
use std::alloc::Global;
use std::marker::Model;

/// A desk, and its rows. Clauses see it as the machine's state.
#[derive(Drop)]
pub struct MemoryLedger {
    desk: Desk,
    keeper: MemoryKeeper,
}

impl Model for MemoryLedger {
    ghost use Rattle.std.specs.Prelude.{Some};
    ghost use Rattle.card_desk.specs.Kept as kept;
    ghost use Rattle.card_model.specs.Machine.{State};

    ghost Value = { State };

    ghost view = { λ l. l.desk.state };

    ghost invariant = { λ l. kept.Fits (Some l.keeper) l.desk.state };
}

fn is_refusal(reply: &Reply) -> bool
    ensures { result ≡ is_refusal reply.now }
{
    matches!(reply, Reply::Refused(_))
}

// Carries out a request, and says whether it was refused. If memory runs out, desk and rows are as they were.
#[tactic(auto, using(crate::proofs::LedgerLemmas::fits_stays))]
fn carry_out(
    alloc: Global,
    desk: &mut Desk,
    keeper: &mut MemoryKeeper,
    request: &Request,
) -> Result<bool, NoMemory>
    requires dated { is_dated request.now ≡ true }
    requires fits { Fits (Some keeper.old) desk.old.state }
    ensures refused { IfOk result (λ refused. refused ≡ is_refusal (step desk.old.state request.now).1) }
    ensures state { OnOk result (desk.new.state ≡ (step desk.old.state request.now).0) }
    ensures fits { Fits (Some keeper.new) desk.new.state }
{
    match uncounted::apply(alloc, desk, keeper, request) {
        Ok(reply) => Ok(is_refusal(&reply)),
        Err(Fault::Memory) => Err(NoMemory),
        Err(Fault::Keeper) => unreachable!(),
    }
}

// The sums with the entries that an answer lists.
#[tactic(auto, unfolding(crate::specs::Sums::with_entries))]
fn with_listed(view: &View, sums: &Totals) -> Totals
    requires room { spec.AreWithin (2 ^ 110) sums.now }
    ensures sums { result ≡ spec.with_entries (spec.entries_seen view.now) sums.now }
    ensures bound { (n : ℕ) → spec.AreWithin n sums.now → spec.AreWithin (n + 2 ^ 95) result }
{
    match view {
        View::Entries(list) => with_entries(sums, list.entries()),
        _ => *sums,
    }
}

// The sums with the entries that the answer to what is asked lists. The state stays.
fn with_answer(alloc: Global, desk: &mut Desk, ask: &Ask, sums: &Totals) -> Result<Totals, NoMemory>
    requires room { spec.AreWithin (2 ^ 110) sums.now }
    ensures state { desk.new.state ≡ desk.old.state }
    ensures sums { IfOk result (λ t. t ≡ spec.with_entries (spec.entries_seen (seen desk.old.state ask.now)) sums.now) }
    ensures bound { IfOk result (λ t. (n : ℕ) → spec.AreWithin n sums.now → spec.AreWithin (n + 2 ^ 95) t) }
{
    let view = uncounted::see(alloc, desk, ask)?;
    Ok(with_listed(&view, sums))
}

impl MemoryLedger {
    ghost use Rattle.std.specs.Prelude.{◌≡◌, ◌≤◌, ◌+◌, ◌^◌, ℕ, true, IfOk, OnOk};
    ghost use Rattle.card_demo.specs.Progress.{is_refusal};
    ghost use Rattle.card_demo.specs.Requests.{account};
    ghost use Rattle.card_demo.specs.Summary.{all_entries, entries_in};
    ghost use Rattle.card_demo.specs.Sums.{AreWithin, totals, with_entries};
    ghost use Rattle.card_events.specs.Dated.{is_dated};
    ghost use Rattle.card_model.specs.Machine.{lists_of, start, step};

    /// 2011-01-01 for today, and nothing else.
    pub fn new(alloc: Global) -> MemoryLedger
        ensures { result ≡ start }
    {
        MemoryLedger {
            desk: Desk::new(alloc),
            keeper: MemoryKeeper::new(alloc),
        }
    }

    /// Carries out a request, whose days are days of requests, and says whether it was refused.
    pub fn apply(&mut self, alloc: Global, request: &Request) -> Result<bool, NoMemory>
        requires dated { is_dated request.now ≡ true }
        ensures refused { IfOk result (λ refused. refused ≡ is_refusal (step self.old request.now).1) }
        ensures state { OnOk result (self.new ≡ (step self.old request.now).0) }
    {
        carry_out(alloc, &mut self.desk, &mut self.keeper, request)
    }

    // The sums with the entries of the i-th account.
    fn with_account(&mut self, alloc: Global, i: u32, sums: &Totals) -> Result<Totals, NoMemory>
        requires room { AreWithin (2 ^ 110) sums.now }
        ensures same { self.new ≡ self.old }
        ensures sums { IfOk result (λ t. t ≡ with_entries (entries_in self.old (lists_of (account i) self.old.accounts)) sums.now) }
        ensures bound { IfOk result (λ t. (n : ℕ) → AreWithin n sums.now → AreWithin (n + 2 ^ 95) t) }
    {
        let name = account_name(alloc, i)?;
        with_answer(alloc, &mut self.desk, &Ask::Entries(name), sums)
    }

    /// The sums over the first so many accounts, at most 1,000, up to the end of today.
    pub fn totals(&mut self, alloc: Global, accounts: u32) -> Result<Totals, NoMemory>
        requires accounts { accounts ≤ 1000 }
        ensures same { self.new ≡ self.old }
        ensures totals { IfOk result (λ t. t ≡ totals (all_entries self.old accounts)) }
    {
        let mut sums = Totals::none();
        for i in 0..accounts {
            sums = self.with_account(alloc, i + 1, &sums)?;
        }
        Ok(sums)
    }
}
