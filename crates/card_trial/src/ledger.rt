ghost use Rattle.std.specs.Prelude.{◌≡◌, ◌≤◌, drop, length};
ghost use Rattle.card_trial.specs.Totals.{AreNothing, AreTotals};

use crate::totals::Totals;
use card_desk::{Desk, Fault, View};
use card_events::{Day, Name, NoMemory, Reply, Request, Steps};
use card_model::{Entry, EntryKind};
use card_ports::Keeper;
use std::alloc::Global;
use std::marker::Model;
use std::sync::ledger::Ledger;

/// A desk with its totals: of all entries of all accounts, as far as each was reached.
#[derive(Drop)]
pub struct LedgerDesk {
    desk: Desk,
    totals: Totals,
}

impl Model for LedgerDesk {
    ghost use Rattle.card_trial.specs.Totals.{AreTotals, OpenLedger};

    ghost Value = { OpenLedger };

    ghost view = { λ l. record { desk = l.desk; totals = l.totals } };

    ghost invariant = { λ l. AreTotals l.desk.recorded l.totals };
}

// The entries except so many of the first.
fn behind(entries: &[Entry], count: usize) -> &[Entry]
    requires { count ≤ length entries.now }
    ensures { result.now ≡ drop count entries.now }
{
    &entries[count..]
}

// Enters what is recorded of all accounts.
fn fill(desk: &Desk, totals: &mut Totals)
    requires { AreNothing totals.old }
    ensures { AreTotals desk.now.recorded totals.new }
{
    let count = desk.accounts();
    for place in 0..count {
        totals.put_in(desk.recorded(place as usize));
    }
}

impl LedgerDesk {
    ghost use Rattle.std.specs.Prelude.{◌≡◌, ◌<◌, ◌≤◌, ◌+◌, ◌^◌, true, length, pos, IfOk, OnOk, OnErr};
    ghost use Rattle.std.specs.List.{All};
    ghost use Rattle.card_events.specs.Dated.{is_dated};
    ghost use Rattle.card_ports.specs.Rows.{KeepsRows, SameRowsTold};
    ghost use Rattle.card_model.specs.Machine.{lists_of};
    ghost use Rattle.card_desk.specs.Apart.{IsApart};
    ghost use Rattle.card_desk.specs.Applied.{IsCounted};
    ghost use Rattle.card_desk.specs.Applied as applied;
    ghost use Rattle.card_desk.specs.Desks.{IsRun, OpenDesk};
    ghost use Rattle.card_desk.specs.Kept.{Fits};
    ghost use Rattle.card_desk.specs.Places.{place_from};
    ghost use Rattle.card_desk.specs.Reached.{AllMove, MovesNamed, MovesToApply};
    ghost use Rattle.card_desk.specs.Recorded.{AppliedStays, MayChange, all_entries};
    ghost use Rattle.card_desk.specs.PutOff.{AreOwedToApply, MakesToApply};
    ghost use Rattle.card_desk.specs.Steps.{AreFewToApply, AreFewToTell, most_for_all, reached_of};
    ghost use Rattle.card_desk.specs.Views.{shown};
    ghost use Rattle.card_trial.specs.Sums.{all_between, of_all_kinds};
    ghost use Rattle.card_trial.specs.Totals.{AreSmall, AreTotals};
    ghost use Rattle.card_trial.specs.declared.side.Side.TheVariants as side;

    /// Takes the desk, and enters all that is recorded of its accounts. It wants 8.6 MB; if memory runs out, the desk is gone.
    pub fn of(alloc: Global, desk: Desk) -> Result<LedgerDesk, NoMemory>
        ensures { IfOk result (λ l. l.desk ≡ desk) }
    {
        let mut totals = Totals::new(alloc)?;
        fill(&desk, &mut totals);
        Ok(LedgerDesk { desk, totals })
    }

    /// The desk inside.
    pub fn desk(&self) -> &Desk
        ensures { result.now ≡ self.now.desk }
    {
        &self.desk
    }

    /// The totals, which are those of all that is recorded; and, where all accounts are at today, those of all that the ledger has. Its
    /// state is that of a run, so the laws of trial balances hold of it.
    pub fn totals(&self) -> &Totals
        ensures value { result.now ≡ self.now.totals }
        ensures all { AreTotals self.now.desk.recorded self.now.totals }
        ensures today { All (λ day. day ≡ self.now.desk.state.today) self.now.desk.reached → AreTotals (all_entries self.now.desk.state) self.now.totals }
        ensures small { AreSmall self.now.totals }
        ensures ran { IsRun self.now.desk.state }
    {
        let _count = self.desk.accounts();
        &self.totals
    }

    /// The debits of a kind from one day to another, in cents, of all that is recorded.
    pub fn debits(&self, from: Day, to: Day, kind: EntryKind) -> i128
        ensures { result ≡ pos (all_between side.Debits from to kind self.now.desk.recorded) }
    {
        self.totals().debits(from, to, kind)
    }

    /// The credits of a kind from one day to another, in cents, of all that is recorded.
    pub fn credits(&self, from: Day, to: Day, kind: EntryKind) -> i128
        ensures { result ≡ pos (all_between side.Credits from to kind self.now.desk.recorded) }
    {
        self.totals().credits(from, to, kind)
    }

    /// The debits of all kinds from one day to another, in cents, of all that is recorded.
    pub fn all_debits(&self, from: Day, to: Day) -> u128
        ensures value { result ≡ of_all_kinds side.Debits from to self.now.desk.recorded }
        ensures bound { result ≤ 2 ^ 123 }
    {
        self.totals().all_debits(from, to)
    }

    /// The credits of all kinds from one day to another, in cents, of all that is recorded.
    pub fn all_credits(&self, from: Day, to: Day) -> u128
        ensures value { result ≡ of_all_kinds side.Credits from to self.now.desk.recorded }
        ensures bound { result ≤ 2 ^ 123 }
    {
        self.totals().all_credits(from, to)
    }

    /// One step of the machine, as `Desk::apply` takes it. The totals are those of what is recorded then, whatever comes of the request:
    /// a refusal or a fault may have folded the account on.
    pub fn apply<K: Keeper, L: Ledger, M: Ledger>(
        &mut self,
        alloc: Global,
        keeper: &mut K,
        request: &Request,
        steps: &mut Steps<L>,
        put_off: &mut Steps<M>,
    ) -> Result<Reply, Fault>
        requires dated { is_dated request.now ≡ true }
        requires fits { Fits (K.rows keeper.old) self.old.desk.state }
        ensures ok { IfOk result (applied.Steps (K.rows keeper.old) (K.rows keeper.new) self.old.desk.state request.now self.new.desk.state) }
        ensures apart { IfOk result (IsApart self.old.desk.state request.now self.new.desk.state) }
        ensures err { OnErr result (self.new.desk.state ≡ self.old.desk.state) }
        ensures rows_stay { OnErr result (KeepsRows (K.rows keeper.old) (K.rows keeper.new)) }
        ensures told { SameRowsTold (K.rows keeper.old) (K.rows keeper.new) }
        ensures counts { IsCounted Fault.Keeper Fault.Memory (K.faults keeper.old) (K.faults keeper.new) result }
        ensures reached { MovesToApply request.now result self.old.desk self.new.desk }
        ensures most { AreFewToApply self.old.desk request.now steps.old steps.new }
        ensures both { AreFewToApply self.old.desk request.now (steps.old + put_off.old) (steps.new + put_off.new) }
        ensures recorded { AppliedStays self.old.desk request.now self.new.desk }
        ensures unmade { MakesToApply request.now self.old.desk self.new.desk }
        ensures put_off { AreOwedToApply request.now result self.old.desk self.new.desk put_off.old put_off.new }
    {
        match request {
            Request::Shared(_) => self.desk.apply(alloc, keeper, request, steps, put_off),
            Request::Post { account, post, .. } => match self.desk.place_of(account) {
                Some(at) => {
                    let _few = self.desk.accounts();
                    // What stays recorded, whatever the account is taken back to, stays entered.
                    let standing = self.desk.standing(at, post);
                    self.totals
                        .take_out(behind(self.desk.recorded(at), standing));
                    let result = self.desk.apply(alloc, keeper, request, steps, put_off);
                    self.totals.put_in(behind(self.desk.recorded(at), standing));
                    result
                }
                None => {
                    let before = self.desk.accounts();
                    let result = self.desk.apply(alloc, keeper, request, steps, put_off);
                    if self.desk.accounts() > before {
                        self.totals.put_in(self.desk.recorded(before as usize));
                    }
                    result
                }
            },
        }
    }

    /// What is owed on an account today, as `Desk::show` gives it. The account reaches today, and what is recorded of it since is
    /// entered; if memory runs out, it may be there or not, and the totals are those of what is recorded then.
    pub fn show<L: Ledger>(
        &mut self,
        alloc: Global,
        account: &Name,
        steps: &mut Steps<L>,
    ) -> Result<View, NoMemory>
        ensures state { self.new.desk.state ≡ self.old.desk.state }
        ensures view { IfOk result (λ view. view ≡ shown self.old.desk.state (lists_of account.now self.old.desk.state.accounts)) }
        ensures reached { MovesNamed account.now result self.old.desk self.new.desk }
        ensures most { AreFewToTell self.old.desk.state (reached_of account.now self.old.desk) steps.old steps.new }
        ensures recorded { MayChange (place_from account.now 0 self.old.desk.state.accounts) self.old.desk.recorded self.new.desk.recorded }
    {
        match self.desk.place_of(account) {
            Some(at) => {
                let _few = self.desk.accounts();
                let entered = self.desk.recorded(at).len();
                let result = self.desk.show(alloc, account, steps);
                self.totals.put_in(behind(self.desk.recorded(at), entered));
                result
            }
            None => self.desk.show(alloc, account, steps),
        }
    }

    /// Brings every account to today. If memory runs out, some may be there and others not.
    pub fn to_today<L: Ledger>(
        &mut self,
        alloc: Global,
        steps: &mut Steps<L>,
    ) -> Result<(), NoMemory>
        ensures state { self.new.desk.state ≡ self.old.desk.state }
        ensures reached { AllMove result self.old.desk self.new.desk }
        ensures most { steps.new ≤ steps.old + most_for_all self.old.desk }
    {
        let result = self.desk.reach_all(alloc, steps);
        self.totals.clear();
        fill(&self.desk, &mut self.totals);
        result
    }
}
