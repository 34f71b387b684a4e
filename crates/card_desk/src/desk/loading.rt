// Requests of rows that are loaded. Nothing is folded for a Bill: its account owes the statement.
use super::{Desk, Given};
use crate::Fault;
use card_account::Verdict;
use card_events::{NoMemory, Request, Shared, Steps};
use card_ports::{Keeper, KeeperFault, Row, Rows};
use std::alloc::Global;
use std::sync::ledger::Ledger;

// Keeps nothing, shows nothing and never fails: rows that are loaded aren't kept again.
#[derive(Drop)]
struct Untold {}

impl Keeper for Untold {
    ghost use Rattle.std.specs.Prelude.{None};

    ghost rows = { λ k. None };

    ghost faults = { λ k. 0 };

    fn load_packed(&mut self, alloc: Global) -> Result<Rows, KeeperFault> {
        Ok(Rows::new(alloc))
    }

    fn append(&mut self, _alloc: Global, _more: &[Row]) -> Result<(), KeeperFault> {
        Ok(())
    }
}

impl Desk {
    ghost use Rattle.std.specs.Prelude.{◌≡◌, true, None, OnOk, List, ℕ};
    ghost use Rattle.card_book.specs.Laws.{is_bill};
    ghost use Rattle.card_desk.specs.Desks.{now_at};
    ghost use Rattle.card_desk.specs.Places.{IsPlace, place_from};
    ghost use Rattle.card_events.specs.Dated.{is_dated};
    ghost use Rattle.card_events.specs.declared.post.Post.{Post};
    ghost use Rattle.card_model.specs.Machine.{Accepts, NamedAccount, accepted, outcome_in, step};
    ghost use Rattle.card_model.specs.Refusals.{reason_against};
    ghost use Rattle.card_rows.specs.Held.{is_request};

    // A request that all accounts share.
    fn share_loaded(
        &mut self,
        alloc: Global,
        request: &Request,
        shared: &Shared,
    ) -> Result<(), NoMemory>
        requires request { request.now ≡ Request.Shared shared.now }
        requires dated { is_dated request.now ≡ true }
        ensures { OnOk result (self.new.state ≡ (step self.old.state request.now).0) }
    {
        let mut keeper = Untold {};
        match self.share(alloc, &mut keeper, request, shared) {
            Ok(_) => Ok(()),
            Err(Fault::Memory) => Err(NoMemory),
            Err(Fault::Keeper) => unreachable!(),
        }
    }

    // A post of an account that isn't there.
    fn open_loaded(&mut self, alloc: Global, given: &Given<'_>) -> Result<(), NoMemory>
        requires request { given.now.request.now ≡ Request.Post given.now.account.now given.now.key.now given.now.post.now }
        requires dated { is_dated given.now.request.now ≡ true }
        requires absent { place_from given.now.account.now 0 self.old.state.accounts ≡ None }
        ensures { OnOk result (self.new.state ≡ (step self.old.state given.now.request.now).0) }
    {
        let mut keeper = Untold {};
        match self.post_unknown(alloc, &mut keeper, given) {
            Ok(_) => Ok(()),
            Err(Fault::Memory) => Err(NoMemory),
            Err(Fault::Keeper) => unreachable!(),
        }
    }

    // Adds a post to its account.
    fn add_loaded<L: Ledger>(
        &mut self,
        alloc: Global,
        at: usize,
        given: &Given<'_>,
        steps: &mut Steps<L>,
    ) -> Result<(), NoMemory>
        requires request { given.now.request.now ≡ Request.Post given.now.account.now given.now.key.now given.now.post.now }
        requires dated { is_dated given.now.request.now ≡ true }
        requires taken { is_request given.now.request.now ≡ true }
        requires place { IsPlace given.now.account.now self.old.state.accounts at }
        requires no_reason { (d : NamedAccount) → reason_against (now_at self.old.state at d) given.now.post.now ≡ None }
        requires accepted { (d : NamedAccount) → outcome_in self.old.state given.now.account.now given.now.key.now given.now.post.now ≡ Accepts (accepted (now_at self.old.state at d) given.now.key.now given.now.post.now) }
        ensures state { OnOk result (self.new.state ≡ (step self.old.state given.now.request.now).0) }
        ensures idle { is_bill given.now.post.now ≡ true → steps.new ≡ steps.old }
    {
        let key = given.key.copy();
        let account = &mut self.accounts[at];
        let change = account.prepare_loaded(
            alloc,
            key,
            self.today,
            given.post,
            &self.common,
            steps,
        )?;
        account.commit(change, &self.common);
        self.count += 1;
        Ok(())
    }

    // A post of the account at a place.
    fn take_loaded<L: Ledger>(
        &mut self,
        alloc: Global,
        at: usize,
        given: &Given<'_>,
        steps: &mut Steps<L>,
    ) -> Result<(), NoMemory>
        requires request { given.now.request.now ≡ Request.Post given.now.account.now given.now.key.now given.now.post.now }
        requires dated { is_dated given.now.request.now ≡ true }
        requires taken { is_request given.now.request.now ≡ true }
        requires place { IsPlace given.now.account.now self.old.state.accounts at }
        ensures state { OnOk result (self.new.state ≡ (step self.old.state given.now.request.now).0) }
        ensures idle { is_bill given.now.post.now ≡ true → steps.new ≡ steps.old }
    {
        match self.judge_at(alloc, at, given.key, given.post, steps) {
            Ok(Verdict::Refused(_)) => Ok(()),
            Ok(Verdict::Repeat(_)) => Ok(()),
            Ok(Verdict::New) => self.add_loaded(alloc, at, given, steps),
            Err(NoMemory) => Err(NoMemory),
        }
    }

    // A post of an account.
    fn post_loaded<L: Ledger>(
        &mut self,
        alloc: Global,
        given: &Given<'_>,
        steps: &mut Steps<L>,
    ) -> Result<(), NoMemory>
        requires request { given.now.request.now ≡ Request.Post given.now.account.now given.now.key.now given.now.post.now }
        requires dated { is_dated given.now.request.now ≡ true }
        requires taken { is_request given.now.request.now ≡ true }
        ensures state { OnOk result (self.new.state ≡ (step self.old.state given.now.request.now).0) }
        ensures idle { is_bill given.now.post.now ≡ true → steps.new ≡ steps.old }
    {
        match self.index.find(given.account.bytes()) {
            Some(at) => self.take_loaded(alloc, at as usize, given, steps),
            None => self.open_loaded(alloc, given),
        }
    }

    // One step of the machine for a request that a row spells, without keeping its row again; a refusal or a repeat changes nothing.
    // No step is taken for a Bill.
    pub(crate) fn carry_loaded<L: Ledger>(
        &mut self,
        alloc: Global,
        request: &Request,
        steps: &mut Steps<L>,
    ) -> Result<(), NoMemory>
        requires dated { is_dated request.now ≡ true }
        requires taken { is_request request.now ≡ true }
        ensures state { OnOk result (self.new.state ≡ (step self.old.state request.now).0) }
        ensures idle { (account key : List ℕ) (p : Post) → request.now ≡ Request.Post account key p → is_bill p ≡ true → steps.new ≡ steps.old }
    {
        match request {
            Request::Shared(shared) => self.share_loaded(alloc, request, shared),
            Request::Post { account, key, post } => {
                let given = Given {
                    request,
                    account,
                    key,
                    post,
                };
                self.post_loaded(alloc, &given, steps)
            }
        }
    }
}
