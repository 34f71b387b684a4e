// All accounts.
ghost use Rattle.std.specs.Prelude.{◌≡◌, ◌<◌, ◌≤◌, ◌++◌, [], ◌∷◌, IfOk, vec_len, vec_capacity};
ghost use Rattle.card_events.specs.Range.{first_calendar_day};
ghost use Rattle.card_account.specs.Accounts.{OpenAccount};
ghost use Rattle.card_desk.specs.Views.{stated};
ghost use Rattle.card_desk.specs.Kept as spec;

mod loading;

use crate::index::NameIndex;
use crate::keep::keep_row;
use crate::row::row_of;
use crate::share::{load, loaded, rolled, shared_reason};
use crate::{Ask, Fault, View};
use card_account::{
    Account, EntryList, Owing, Statement, Tasks, Verdict, is_open, open_reason, reach_today,
    work_today,
};
use card_events::{Day, Name, NoMemory, Num, Post, Refusal, Reply, Request, Shared, Steps};
use card_fees::SharedRows;
use card_model::Entry;
use card_ports::{Keeper, Row};
use std::alloc::Global;
use std::marker::Model;
use std::sync::ledger::Ledger;

/// Today, the accepted shared requests with the holidays, the fee rows and the index in them, and all accounts in the order of
/// their opening, each folded to the day that it has reached, if it has reached one. Clauses see it as a record of its state, these
/// days, what is recorded up to them, and how many statements of each a load put off; without a day, it is that before the opening.
#[derive(Drop)]
pub struct Desk {
    today: Day,
    shared: Vec<Shared>,
    accounts: Vec<Account>,
    index: NameIndex,
    common: SharedRows,
    count: u64,
}

impl Model for Desk {
    ghost use Rattle.card_desk.specs.Desks.{IsDesk, OpenDesk, open_desk};

    ghost Value = { OpenDesk };

    ghost view = { λ d. open_desk d.today d.shared.items d.accounts.items };

    ghost invariant = { λ d. IsDesk d.index d.common d.count d.today d.shared.items d.accounts.items };
}

// A request about an account, and its parts.
#[derive(Drop)]
struct Given<'a> {
    request: &'a Request,
    account: &'a Name,
    key: &'a Name,
    post: &'a Post,
}

impl Desk {
    ghost use Rattle.std.specs.Prelude.{◌≡◌, ◌≤◌, ◌<◌, ◌+◌, ◌^◌, ◌++◌, List, [], ◌∷◌, true, false, Some, None, length, slice_get, slice_index_or, IfOk, IfSome, OnOk, OnErr, IsErrOf, option_copied};
    ghost use Rattle.std.specs.List.{All};
    ghost use Rattle.std.specs.Option.{option_map};
    ghost use Rattle.card_model.specs.declared.entry.Entry.{Entry};
    ghost use Rattle.card_replay.specs.Needs.{needs_today};
    ghost use Rattle.card_replay.specs.Replays.{present_of};
    ghost use Rattle.card_replay.specs.Standing.{IsStandingCount};
    ghost use Rattle.card_desk.specs.Steps.{AreFewOn, AreFewToApply, AreFewToKeep, AreFewToSee, AreFewToTell, IsIdleToApply, IsIdleToJudge, IsIdleToPost, most_for_all, reached_at, reached_of, reached_there, steps_at};
    ghost use Rattle.card_account.specs.Accounts.{issued_statement, owing_in, restated_statement};
    ghost use Rattle.card_account.specs.Entries.{AreSmallEntries, entries_today};
    ghost use Rattle.card_account.specs.Verdicts.{verdict_of};
    ghost use Rattle.card_events.specs.Keys.{with_key};
    ghost use Rattle.card_events.specs.SharedRows.{SharedRows, shared_rows};
    ghost use Rattle.card_rows.specs.Held.{is_request};
    ghost use Rattle.card_desk.specs.Desks.{IsRun, now_at};
    ghost use Rattle.card_events.specs.Billing.{IsCloseDay};
    ghost use Rattle.card_events.specs.Dated.{is_dated, is_dated_post};
    ghost use Rattle.card_events.specs.History.{is_open, terms_in};
    ghost use Rattle.card_ports.specs.Rows.{KeepsRows, SameRowsTold};
    ghost use Rattle.card_model.specs.Machine.{NamedAccount, start, lists_of, outcome_in, Accepts, accepted, at_key, shared_reason, has_accounts};
    ghost use Rattle.card_model.specs.Refusals.{book_today, reason_against, reason_to_open};
    ghost use Rattle.card_model.specs.Work.{work};
    ghost use Rattle.card_desk.specs.Apart.{IsApart};
    ghost use Rattle.card_desk.specs.Applied.{Carried, IsAsked, IsCounted};
    ghost use Rattle.card_desk.specs.Applied as applied;
    ghost use Rattle.card_desk.specs.Kept.{Fits, accepted_count};
    ghost use Rattle.card_desk.specs.Places.{IsPlace, place_from};
    ghost use Rattle.card_desk.specs.Reached.{AllMove, MovesNamed, MovesOn, MovesToApply, MovesToSee, MovesToTell, NoneMoves, OneStays};
    ghost use Rattle.card_desk.specs.PutOff.{AreFewToIssue, AreOwedToApply, AreOwedToSee, AreTakenThere, MakesForAll, MakesNamed, MakesOn, MakesThere, MakesToApply, MakesToSee, MakesToTell, unmade_there};
    ghost use Rattle.card_desk.specs.Recorded.{AppliedStays, ChangesAt, MayChange, MayGrow, SeenStays, AreStanding, all_entries, entries_there};
    ghost use Rattle.card_desk.specs.Views.{issued, listed, restated, seen, shown};

    /// 2011-01-01 for today, and nothing else.
    pub fn new(alloc: Global) -> Desk
        ensures state { result.state ≡ start }
        ensures reached { result.reached ≡ [] }
        ensures recorded { result.recorded ≡ [] }
        ensures unmade { result.unmade ≡ [] }
    {
        Desk {
            today: Day::first(),
            shared: Vec::new(alloc),
            accounts: Vec::new(alloc),
            index: NameIndex::new(alloc),
            common: SharedRows::new(alloc),
            count: 0,
        }
    }

    /// The day that was rolled to last.
    pub fn today(&self) -> Day
        ensures { result ≡ self.now.state.today }
    {
        self.today
    }

    /// How many requests were accepted: as many as rows were kept.
    pub fn count(&self) -> u64
        ensures { result ≡ accepted_count self.now.state }
    {
        self.count
    }

    /// How many accounts there are. The state is that of a run. Where all accounts have reached today, what is recorded of them is all
    /// that the state has.
    pub fn accounts(&self) -> u32
        ensures value { result ≡ length self.now.state.accounts }
        ensures recorded { result ≡ length self.now.recorded }
        ensures few { result ≤ 1_000_000 }
        ensures ran { IsRun self.now.state }
        ensures today { All (λ day. day ≡ self.now.state.today) self.now.reached → self.now.recorded ≡ all_entries self.now.state }
    {
        self.accounts.len() as u32
    }

    /// The place of an account in the order of opening, from 0 on. None comes exactly where it isn't there.
    pub fn place_of(&self, account: &Name) -> Option<usize>
        ensures value { result ≡ place_from account.now 0 self.now.state.accounts }
        ensures within { IfSome result (λ at. at < length self.now.recorded) }
    {
        match self.index.find(account.bytes()) {
            Some(at) => Some(at as usize),
            None => None,
        }
    }

    /// The name of the account at a place in the order of opening. None comes exactly where there are no more accounts than that.
    pub fn name_at(&self, place: u32) -> Option<&Name>
        ensures { option_copied result ≡ option_map (λ a. a.name) (slice_get self.now.state.accounts place) }
    {
        match self.accounts.get(place as usize) {
            Some(account) => Some(account.name()),
            None => None,
        }
    }

    /// What is recorded of the account at a place in the order of opening: its entries up to the end of the day that it has reached,
    /// which isn't after today. Each is at most 10^15 cents in size.
    pub fn recorded(&self, place: usize) -> &[Entry]
        requires { place < length self.now.recorded }
        ensures value { (d : List Entry) → result.now ≡ slice_index_or self.now.recorded place d }
        ensures entries { result.now ≡ entries_there self.now place }
        ensures reached { (reached_there self.now place).reached ≤ self.now.state.today }
        ensures few { length result.now < 2 ^ 32 }
        ensures small { AreSmallEntries result.now }
    {
        self.accounts[place].recorded()
    }

    /// What is recorded of an account: its entries up to the end of the day that it has reached, each at most 10^15 cents in size. None
    /// comes exactly where it isn't there.
    pub fn entries_of(&self, account: &Name) -> Option<&[Entry]>
        ensures entries { option_copied result ≡ option_map (entries_there self.now) (place_from account.now 0 self.now.state.accounts) }
        ensures value { (d : List Entry) → option_copied result ≡ option_map (λ at. slice_index_or self.now.recorded at d) (place_from account.now 0 self.now.state.accounts) }
        ensures few { IfSome result (λ entries. length entries.now < 2 ^ 32) }
        ensures small { IfSome result (λ entries. AreSmallEntries entries.now) }
    {
        match self.place_of(account) {
            Some(at) => Some(self.recorded(at)),
            None => None,
        }
    }

    /// How many of the first entries that are recorded of the account at a place stay if it takes a post today, whatever it is then taken
    /// back to: those up to the last closing before the earlier of the first day that the post changes and the day last reached. They are
    /// 0 where it takes no more posts, where the post is about a later one than there is, for a payment at a minute above 1,439, and for
    /// a payment that came in, or an Amend that lies, before the opening day or after today. It doesn't allocate.
    pub fn standing(&self, place: usize, post: &Post) -> usize
        requires { place < length self.now.recorded }
        ensures stay { AreStanding result place post.now self.now }
        ensures count { IsStandingCount result self.now.state.today (shared_rows self.now.state.shared) post.now (reached_there self.now place).lists (reached_there self.now place).reached }
    {
        self.accounts[place].standing(post, self.today, &self.common)
    }

    /// Folds all accounts to the end of today. If memory runs out, some have reached it and others haven't. It takes at most one step
    /// more for each account than there are break days from the day last reached to today.
    pub fn reach_all<L: Ledger>(
        &mut self,
        alloc: Global,
        steps: &mut Steps<L>,
    ) -> Result<(), NoMemory>
        ensures state { self.new.state ≡ self.old.state }
        ensures reached { AllMove result self.old self.new }
        ensures most { steps.new ≤ steps.old + most_for_all self.old }
        ensures unmade { MakesForAll result self.old self.new }
    {
        reach_today(alloc, &mut self.accounts, self.today, &self.common, steps)
    }

    // The row of the next accepted request.
    fn next_row(&self, alloc: Global, request: &Request) -> Result<Row, NoMemory>
        requires { is_dated request.now ≡ true }
        ensures value { IfOk result (λ row. row ≡ spec.row_of (accepted_count self.now.state + 1) request.now) }
        ensures held { OnOk result (is_request request.now ≡ true) }
    {
        row_of(alloc, self.count + 1, request)
    }

    // Keeps the row of a shared request against which there is no reason, and takes what it brings.
    fn keep_shared<K: Keeper>(
        &mut self,
        alloc: Global,
        keeper: &mut K,
        request: &Request,
        shared: &Shared,
    ) -> Result<Reply, Fault>
        requires request { request.now ≡ Request.Shared shared.now }
        requires asked { IsAsked (K.rows keeper.old) self.old.state request.now }
        requires no_reason { shared_reason self.old.state.today (has_accounts self.old.state) shared.now ≡ None }
        ensures carried { Carried (K.rows keeper.old) (K.rows keeper.new) (K.faults keeper.old) (K.faults keeper.new) self.old.state request.now self.new.state result }
        ensures reached { NoneMoves self.old self.new }
        ensures recorded { self.new.recorded ≡ self.old.recorded }
        ensures unmade { self.new.unmade ≡ self.old.unmade }
    {
        // All that may fail comes before the row, so what was kept is always carried out.
        let row = self.next_row(alloc, request)?;
        self.shared.reserve(1)?;
        let common = loaded(alloc, &self.common, shared)?;
        keep_row(alloc, keeper, row)?;
        push_shared(&mut self.shared, *shared);
        self.today = rolled(self.today, shared);
        load(&mut self.common, common);
        self.count += 1;
        Ok(Reply::Done)
    }

    // A request that all accounts share.
    fn share<K: Keeper>(
        &mut self,
        alloc: Global,
        keeper: &mut K,
        request: &Request,
        shared: &Shared,
    ) -> Result<Reply, Fault>
        requires request { request.now ≡ Request.Shared shared.now }
        requires asked { IsAsked (K.rows keeper.old) self.old.state request.now }
        ensures carried { Carried (K.rows keeper.old) (K.rows keeper.new) (K.faults keeper.old) (K.faults keeper.new) self.old.state request.now self.new.state result }
        ensures reached { NoneMoves self.old self.new }
        ensures recorded { self.new.recorded ≡ self.old.recorded }
        ensures unmade { self.new.unmade ≡ self.old.unmade }
    {
        match shared_reason(self.today, self.accounts.len(), shared) {
            Some(refusal) => Ok(Reply::Refused(refusal)),
            None => self.keep_shared(alloc, keeper, request, shared),
        }
    }

    // Keeps the row of an opening, and opens the account.
    fn keep_open<K: Keeper>(
        &mut self,
        alloc: Global,
        keeper: &mut K,
        given: &Given<'_>,
    ) -> Result<Reply, Fault>
        requires request { given.now.request.now ≡ Request.Post given.now.account.now given.now.key.now given.now.post.now }
        requires open { is_open given.now.post.now ≡ true }
        requires close_day { IsCloseDay (terms_in given.now.post.now).close }
        requires asked { IsAsked (K.rows keeper.old) self.old.state given.now.request.now }
        requires absent { place_from given.now.account.now 0 self.old.state.accounts ≡ None }
        requires room { length self.old.state.accounts < 1_000_000 }
        requires no_reason { reason_to_open self.old.state.today (length self.old.state.accounts) (shared_rows self.old.state.shared) given.now.post.now ≡ None }
        ensures carried { Carried (K.rows keeper.old) (K.rows keeper.new) (K.faults keeper.old) (K.faults keeper.new) self.old.state given.now.request.now self.new.state result }
        ensures reached { MovesOn None (outcome_in self.old.state given.now.account.now given.now.key.now given.now.post.now) result self.old self.new }
        ensures recorded { MayGrow self.old.recorded self.new.recorded }
        ensures unmade { MakesOn None self.old self.new }
    {
        // All that may fail comes before the row, so what was kept is always carried out.
        let row = self.next_row(alloc, given.request)?;
        let name = given.account.copy();
        let made = Account::open(alloc, name, given.key, self.today, given.post, &self.common)?;
        self.accounts.reserve(1)?;
        let place = self.accounts.len() as u32;
        self.index.insert(given.account.bytes(), place)?;
        match keep_row(alloc, keeper, row) {
            Ok(()) => {
                push_account(&mut self.accounts, made);
                self.count += 1;
                Ok(Reply::Accepted(1))
            }
            Err(fault) => {
                drop(made);
                self.index.remove(given.account.bytes());
                Err(fault)
            }
        }
    }

    // A post of an account that isn't there.
    fn post_unknown<K: Keeper>(
        &mut self,
        alloc: Global,
        keeper: &mut K,
        given: &Given<'_>,
    ) -> Result<Reply, Fault>
        requires request { given.now.request.now ≡ Request.Post given.now.account.now given.now.key.now given.now.post.now }
        requires asked { IsAsked (K.rows keeper.old) self.old.state given.now.request.now }
        requires absent { place_from given.now.account.now 0 self.old.state.accounts ≡ None }
        ensures carried { Carried (K.rows keeper.old) (K.rows keeper.new) (K.faults keeper.old) (K.faults keeper.new) self.old.state given.now.request.now self.new.state result }
        ensures reached { MovesOn None (outcome_in self.old.state given.now.account.now given.now.key.now given.now.post.now) result self.old self.new }
        ensures recorded { MayGrow self.old.recorded self.new.recorded }
        ensures unmade { MakesOn None self.old self.new }
    {
        if !is_open(given.post) {
            return Ok(Reply::Refused(Refusal::UnknownAccount));
        }
        match open_reason(self.today, self.accounts.len(), &self.common, given.post) {
            Some(refusal) => Ok(Reply::Refused(refusal)),
            None => self.keep_open(alloc, keeper, given),
        }
    }

    // Keeps the row of a post, and adds the post to its account.
    fn keep_post<K: Keeper, L: Ledger, M: Ledger>(
        &mut self,
        alloc: Global,
        keeper: &mut K,
        at: usize,
        given: &Given<'_>,
        steps: &mut Steps<L>,
        put_off: &mut Steps<M>,
    ) -> Result<Reply, Fault>
        requires request { given.now.request.now ≡ Request.Post given.now.account.now given.now.key.now given.now.post.now }
        requires asked { IsAsked (K.rows keeper.old) self.old.state given.now.request.now }
        requires place { IsPlace given.now.account.now self.old.state.accounts at }
        requires no_reason { (d : NamedAccount) → reason_against (now_at self.old.state at d) given.now.post.now ≡ None }
        requires accepted { (d : NamedAccount) → outcome_in self.old.state given.now.account.now given.now.key.now given.now.post.now ≡ Accepts (accepted (now_at self.old.state at d) given.now.key.now given.now.post.now) }
        ensures carried { Carried (K.rows keeper.old) (K.rows keeper.new) (K.faults keeper.old) (K.faults keeper.new) self.old.state given.now.request.now self.new.state result }
        ensures reached { MovesOn (Some at) (outcome_in self.old.state given.now.account.now given.now.key.now given.now.post.now) result self.old self.new }
        ensures most { AreFewToKeep self.old.state (reached_at self.old (Some at)) (outcome_in self.old.state given.now.account.now given.now.key.now given.now.post.now) steps.old steps.new }
        ensures both { AreFewToKeep self.old.state (reached_at self.old (Some at)) (outcome_in self.old.state given.now.account.now given.now.key.now given.now.post.now) (steps.old + put_off.old) (steps.new + put_off.new) }
        ensures idle { needs_today given.now.post.now ≡ false → steps.new ≡ steps.old }
        ensures recorded { ChangesAt at self.old.recorded self.new.recorded }
        ensures unmade { MakesThere at self.old self.new }
        ensures put_off { AreTakenThere at given.now.post.now (outcome_in self.old.state given.now.account.now given.now.key.now given.now.post.now) result self.old self.new put_off.old put_off.new }
    {
        // All that may fail comes before the row, so what was kept is always carried out.
        let row = self.next_row(alloc, given.request)?;
        let key = given.key.copy();
        let account = &mut self.accounts[at];
        let change = account.prepare(
            alloc,
            key,
            self.today,
            given.post,
            &self.common,
            steps,
            put_off,
        )?;
        keep_row(alloc, keeper, row)?;
        let number = account.commit(change, &self.common);
        self.count += 1;
        Ok(Reply::Accepted(number))
    }

    // The result of a post on the account at a place.
    fn judge_at<L: Ledger>(
        &mut self,
        alloc: Global,
        at: usize,
        key: &Name,
        post: &Post,
        steps: &mut Steps<L>,
    ) -> Result<Verdict, NoMemory>
        requires dated { is_dated_post post.now ≡ true }
        requires place { at < length self.old.state.accounts }
        ensures state { self.new.state ≡ self.old.state }
        ensures value { IfOk result (λ v. (d : NamedAccount) → v ≡ verdict_of (at_key (now_at self.old.state at d) key.now post.now (with_key key.now (now_at self.old.state at d).lists.posts))) }
        ensures reached { OneStays (Some at) self.old self.new }
        ensures most { steps.new ≤ steps.old + steps_at self.old at }
        ensures recorded { ChangesAt at self.old.recorded self.new.recorded }
        ensures idle { IsIdleToJudge (reached_there self.old at) key.now post.now steps.old steps.new }
        ensures spent { OnOk result (steps.new + steps_at self.new at ≤ steps.old + steps_at self.old at) }
        ensures unmade { MakesThere at self.old self.new }
    {
        let account = &mut self.accounts[at];
        account.judge(alloc, self.today, key, post, &self.common, steps)
    }

    // A post of the account at a place.
    fn post_known<K: Keeper, L: Ledger, M: Ledger>(
        &mut self,
        alloc: Global,
        keeper: &mut K,
        at: usize,
        given: &Given<'_>,
        steps: &mut Steps<L>,
        put_off: &mut Steps<M>,
    ) -> Result<Reply, Fault>
        requires request { given.now.request.now ≡ Request.Post given.now.account.now given.now.key.now given.now.post.now }
        requires asked { IsAsked (K.rows keeper.old) self.old.state given.now.request.now }
        requires place { IsPlace given.now.account.now self.old.state.accounts at }
        ensures carried { Carried (K.rows keeper.old) (K.rows keeper.new) (K.faults keeper.old) (K.faults keeper.new) self.old.state given.now.request.now self.new.state result }
        ensures reached { MovesOn (Some at) (outcome_in self.old.state given.now.account.now given.now.key.now given.now.post.now) result self.old self.new }
        ensures most { AreFewOn self.old.state (reached_at self.old (Some at)) (outcome_in self.old.state given.now.account.now given.now.key.now given.now.post.now) steps.old steps.new }
        ensures both { AreFewOn self.old.state (reached_at self.old (Some at)) (outcome_in self.old.state given.now.account.now given.now.key.now given.now.post.now) (steps.old + put_off.old) (steps.new + put_off.new) }
        ensures idle { IsIdleToPost (reached_there self.old at) given.now.key.now given.now.post.now (outcome_in self.old.state given.now.account.now given.now.key.now given.now.post.now) steps.old steps.new }
        ensures recorded { ChangesAt at self.old.recorded self.new.recorded }
        ensures unmade { MakesThere at self.old self.new }
        ensures put_off { AreTakenThere at given.now.post.now (outcome_in self.old.state given.now.account.now given.now.key.now given.now.post.now) result self.old self.new put_off.old put_off.new }
    {
        match self.judge_at(alloc, at, given.key, given.post, steps) {
            Ok(Verdict::Refused(refusal)) => Ok(Reply::Refused(refusal)),
            Ok(Verdict::Repeat(number)) => Ok(Reply::Accepted(number)),
            Ok(Verdict::New) => self.keep_post(alloc, keeper, at, given, steps, put_off),
            Err(NoMemory) => Err(Fault::Memory),
        }
    }

    // A post of an account.
    fn post<K: Keeper, L: Ledger, M: Ledger>(
        &mut self,
        alloc: Global,
        keeper: &mut K,
        given: &Given<'_>,
        steps: &mut Steps<L>,
        put_off: &mut Steps<M>,
    ) -> Result<Reply, Fault>
        requires request { given.now.request.now ≡ Request.Post given.now.account.now given.now.key.now given.now.post.now }
        requires asked { IsAsked (K.rows keeper.old) self.old.state given.now.request.now }
        ensures carried { Carried (K.rows keeper.old) (K.rows keeper.new) (K.faults keeper.old) (K.faults keeper.new) self.old.state given.now.request.now self.new.state result }
        ensures reached { MovesToApply given.now.request.now result self.old self.new }
        ensures most { AreFewToApply self.old given.now.request.now steps.old steps.new }
        ensures both { AreFewToApply self.old given.now.request.now (steps.old + put_off.old) (steps.new + put_off.new) }
        ensures idle { IsIdleToApply self.old given.now.request.now steps.old steps.new }
        ensures recorded { AppliedStays self.old given.now.request.now self.new }
        ensures unmade { MakesToApply given.now.request.now self.old self.new }
        ensures put_off { AreOwedToApply given.now.request.now result self.old self.new put_off.old put_off.new }
    {
        match self.index.find(given.account.bytes()) {
            Some(at) => self.post_known(alloc, keeper, at as usize, given, steps, put_off),
            None => self.post_unknown(alloc, keeper, given),
        }
    }

    /// One step of the machine. The request has days of requests, and the keeper's rows continue the desk's state. A newly accepted
    /// request is prepared, then its row is kept, then it is carried out without memory; a refusal or a repeat changes nothing. No account
    /// except the one that the request names is touched, and the reply depends on no other. After a fault the state and the rows are as
    /// they were. It takes at most two steps more than twice the break days, before or after the request, from the first day of the cycle
    /// in which the first changed day lies, or from the day last reached where that is earlier, to today; of a request that isn't accepted,
    /// from the day last reached on. An opening and a shared request take none, nor does a post of an account that isn't there, or one under
    /// a key that its account has used. Of other posts only a Penalty and a Refund may take any, and a Bill, a Plan, a Notice and a Lower
    /// that is accepted. Where an accepted post changes a day up to the closing of a cycle whose statement a load put off, all that the load
    /// put off for its account is made first, once. The steps of that are counted as put off, and both counts together keep the same bound:
    /// none is taken where nothing is left to make, nor for a post that no fold reads or for which today is reached.
    ///
    /// `Keeper`: the keeper failed, which alone raises its count. `Memory`: memory ran out.
    #[tactic(auto, using(crate::proofs::Apart::apart_of_step), unfolding(crate::specs::Reached::MovesToApply, crate::specs::Recorded::AppliedStays, crate::specs::Steps::AreFewToApply, crate::specs::Steps::IsIdleToApply, crate::specs::PutOff::AreOwedToApply, crate::specs::PutOff::MakesToApply))]
    pub fn apply<K: Keeper, L: Ledger, M: Ledger>(
        &mut self,
        alloc: Global,
        keeper: &mut K,
        request: &Request,
        steps: &mut Steps<L>,
        put_off: &mut Steps<M>,
    ) -> Result<Reply, Fault>
        requires dated { is_dated request.now ≡ true }
        requires fits { Fits (K.rows keeper.old) self.old.state }
        ensures ok { IfOk result (applied.Steps (K.rows keeper.old) (K.rows keeper.new) self.old.state request.now self.new.state) }
        ensures apart { IfOk result (IsApart self.old.state request.now self.new.state) }
        ensures err { OnErr result (self.new.state ≡ self.old.state) }
        ensures rows_stay { OnErr result (KeepsRows (K.rows keeper.old) (K.rows keeper.new)) }
        ensures told { SameRowsTold (K.rows keeper.old) (K.rows keeper.new) }
        ensures counts { IsCounted Fault.Keeper Fault.Memory (K.faults keeper.old) (K.faults keeper.new) result }
        ensures reached { MovesToApply request.now result self.old self.new }
        ensures most { AreFewToApply self.old request.now steps.old steps.new }
        ensures both { AreFewToApply self.old request.now (steps.old + put_off.old) (steps.new + put_off.new) }
        ensures idle { IsIdleToApply self.old request.now steps.old steps.new }
        ensures recorded { AppliedStays self.old request.now self.new }
        ensures unmade { MakesToApply request.now self.old self.new }
        ensures put_off { AreOwedToApply request.now result self.old self.new put_off.old put_off.new }
    {
        match request {
            Request::Shared(shared) => self.share(alloc, keeper, request, shared),
            Request::Post { account, key, post } => {
                let given = Given {
                    request,
                    account,
                    key,
                    post,
                };
                self.post(alloc, keeper, &given, steps, put_off)
            }
        }
    }

    // What is owed on the account at a place. It reaches today.
    fn owing_at<L: Ledger>(
        &mut self,
        alloc: Global,
        at: usize,
        steps: &mut Steps<L>,
    ) -> Result<Owing, NoMemory>
        requires place { at < length self.old.state.accounts }
        ensures state { self.new.state ≡ self.old.state }
        ensures value { IfOk result (λ x. (d : NamedAccount) → x ≡ owing_in (book_today (now_at self.old.state at d))) }
        ensures reached { MovesToTell (Some at) result self.old self.new }
        ensures most { steps.new ≤ steps.old + steps_at self.old at }
        ensures recorded { ChangesAt at self.old.recorded self.new.recorded }
        ensures unmade { MakesToTell (Some at) result self.old self.new }
    {
        let account = &mut self.accounts[at];
        account.show(alloc, self.today, &self.common, steps)
    }

    // The statement of a cycle of the account at a place, as the book of today has it. It reaches today.
    fn restated_at<L: Ledger>(
        &mut self,
        alloc: Global,
        at: usize,
        cycle: Num,
        steps: &mut Steps<L>,
    ) -> Result<Option<Statement>, NoMemory>
        requires place { at < length self.old.state.accounts }
        ensures state { self.new.state ≡ self.old.state }
        ensures value { IfOk result (λ x. (d : NamedAccount) → x ≡ restated_statement (now_at self.old.state at d) cycle) }
        ensures reached { MovesToTell (Some at) result self.old self.new }
        ensures most { steps.new ≤ steps.old + steps_at self.old at }
        ensures recorded { ChangesAt at self.old.recorded self.new.recorded }
        ensures unmade { MakesToTell (Some at) result self.old self.new }
    {
        let account = &mut self.accounts[at];
        account.restated(alloc, self.today, cycle, &self.common, steps)
    }

    // The entries of the account at a place. It reaches today.
    fn entries_at<L: Ledger>(
        &mut self,
        alloc: Global,
        at: usize,
        steps: &mut Steps<L>,
    ) -> Result<EntryList, NoMemory>
        requires place { at < length self.old.state.accounts }
        ensures state { self.new.state ≡ self.old.state }
        ensures value { IfOk result (λ x. (d : NamedAccount) → x ≡ entries_today (now_at self.old.state at d)) }
        ensures reached { MovesToTell (Some at) result self.old self.new }
        ensures most { steps.new ≤ steps.old + steps_at self.old at }
        ensures recorded { ChangesAt at self.old.recorded self.new.recorded }
        ensures unmade { MakesToTell (Some at) result self.old self.new }
    {
        let account = &mut self.accounts[at];
        account.entries(alloc, self.today, &self.common, steps)
    }

    /// What is owed on an account today, in cents, or that it isn't there. The account reaches today.
    pub fn show<L: Ledger>(
        &mut self,
        alloc: Global,
        account: &Name,
        steps: &mut Steps<L>,
    ) -> Result<View, NoMemory>
        ensures state { self.new.state ≡ self.old.state }
        ensures view { IfOk result (λ view. view ≡ shown self.old.state (lists_of account.now self.old.state.accounts)) }
        ensures reached { MovesNamed account.now result self.old self.new }
        ensures most { AreFewToTell self.old.state (reached_of account.now self.old) steps.old steps.new }
        ensures recorded { MayChange (place_from account.now 0 self.old.state.accounts) self.old.recorded self.new.recorded }
        ensures unmade { MakesNamed account.now result self.old self.new }
    {
        let today = self.today();
        match self.index.find(account.bytes()) {
            None => Ok(View::NoAccount),
            Some(at) => {
                let owing = self.owing_at(alloc, at as usize, steps)?;
                Ok(shown(today, owing))
            }
        }
    }

    // The statement of a cycle of the account at a place as it was issued. What a load put off for the account is made for it.
    fn issued_at<L: Ledger>(
        &mut self,
        alloc: Global,
        at: usize,
        cycle: Num,
        put_off: &mut Steps<L>,
    ) -> Result<Option<Statement>, NoMemory>
        requires place { at < length self.old.state.accounts }
        ensures state { self.new.state ≡ self.old.state }
        ensures value { IfOk result (λ x. (d : NamedAccount) → x ≡ issued_statement cycle (now_at self.old.state at d).lists.issued) }
        ensures reached { NoneMoves self.old self.new }
        ensures most { put_off.new ≤ put_off.old + steps_at self.old at }
        ensures recorded { self.new.recorded ≡ self.old.recorded }
        ensures unmade { MakesToTell (Some at) result self.old self.new }
        ensures idle { unmade_there self.old at ≡ 0 → put_off.new ≡ put_off.old }
    {
        let account = &mut self.accounts[at];
        account.issued(alloc, self.today, cycle, &self.common, put_off)
    }

    // The statement of a cycle of an account as it was issued. The day that the account has reached stays.
    fn issued<L: Ledger>(
        &mut self,
        alloc: Global,
        account: &Name,
        cycle: Num,
        put_off: &mut Steps<L>,
    ) -> Result<View, NoMemory>
        ensures state { self.new.state ≡ self.old.state }
        ensures view { IfOk result (λ view. view ≡ issued cycle (lists_of account.now self.old.state.accounts)) }
        ensures reached { NoneMoves self.old self.new }
        ensures recorded { self.new.recorded ≡ self.old.recorded }
        ensures unmade { MakesNamed account.now result self.old self.new }
        ensures put_off { AreFewToIssue account.now self.old put_off.old put_off.new }
    {
        match self.index.find(account.bytes()) {
            None => Ok(View::NoAccount),
            Some(at) => {
                let statement = self.issued_at(alloc, at as usize, cycle, put_off)?;
                Ok(stated(statement))
            }
        }
    }

    // The statement of a cycle of an account as the book of today has it.
    fn restated<L: Ledger>(
        &mut self,
        alloc: Global,
        account: &Name,
        cycle: Num,
        steps: &mut Steps<L>,
    ) -> Result<View, NoMemory>
        ensures state { self.new.state ≡ self.old.state }
        ensures view { IfOk result (λ view. view ≡ restated self.old.state cycle (lists_of account.now self.old.state.accounts)) }
        ensures reached { MovesNamed account.now result self.old self.new }
        ensures most { AreFewToTell self.old.state (reached_of account.now self.old) steps.old steps.new }
        ensures recorded { MayChange (place_from account.now 0 self.old.state.accounts) self.old.recorded self.new.recorded }
        ensures unmade { MakesNamed account.now result self.old self.new }
    {
        match self.index.find(account.bytes()) {
            None => Ok(View::NoAccount),
            Some(at) => {
                let statement = self.restated_at(alloc, at as usize, cycle, steps)?;
                Ok(stated(statement))
            }
        }
    }

    // The entries of an account up to the end of today.
    fn entries<L: Ledger>(
        &mut self,
        alloc: Global,
        account: &Name,
        steps: &mut Steps<L>,
    ) -> Result<View, NoMemory>
        ensures state { self.new.state ≡ self.old.state }
        ensures view { IfOk result (λ view. view ≡ listed self.old.state (lists_of account.now self.old.state.accounts)) }
        ensures reached { MovesNamed account.now result self.old self.new }
        ensures most { AreFewToTell self.old.state (reached_of account.now self.old) steps.old steps.new }
        ensures recorded { MayChange (place_from account.now 0 self.old.state.accounts) self.old.recorded self.new.recorded }
        ensures unmade { MakesNamed account.now result self.old self.new }
    {
        match self.index.find(account.bytes()) {
            None => Ok(View::NoAccount),
            Some(at) => {
                let entries = self.entries_at(alloc, at as usize, steps)?;
                Ok(View::Entries(entries))
            }
        }
    }

    // The open tasks of all accounts. Each reaches today.
    fn all_tasks<L: Ledger>(
        &mut self,
        alloc: Global,
        steps: &mut Steps<L>,
    ) -> Result<Tasks, NoMemory>
        ensures state { self.new.state ≡ self.old.state }
        ensures tasks { IfOk result (λ tasks. tasks ≡ work self.old.state) }
        ensures reached { AllMove result self.old self.new }
        ensures most { steps.new ≤ steps.old + most_for_all self.old }
        ensures unmade { MakesForAll result self.old self.new }
    {
        work_today(alloc, &mut self.accounts, self.today, &self.common, steps)
    }

    // The open tasks of all accounts, to be shown.
    fn work<L: Ledger>(&mut self, alloc: Global, steps: &mut Steps<L>) -> Result<View, NoMemory>
        ensures state { self.new.state ≡ self.old.state }
        ensures view { IfOk result (λ view. view ≡ View.Work (work self.old.state)) }
        ensures reached { AllMove result self.old self.new }
        ensures most { steps.new ≤ steps.old + most_for_all self.old }
        ensures unmade { MakesForAll result self.old self.new }
    {
        let tasks = self.all_tasks(alloc, steps)?;
        Ok(View::Work(tasks))
    }

    /// The answer to what is asked, or that memory ran out. The state stays; the accounts that the answer is of reach today, and if memory
    /// runs out, some may have. It takes at most one step more than there are break days from the day last reached to today, none
    /// where the account isn't there or for what was issued, and for `Work` at most the sum of these over all accounts. Where an issued
    /// statement is asked for, what a load put off for its account is made first, once: the steps of that are counted as put off, and are at
    /// most as many as to tell of the account. Any other question makes it on its way, and takes none of these.
    #[tactic(auto, unfolding(crate::specs::Reached::MovesToSee, crate::specs::Recorded::SeenStays, crate::specs::Views::seen, crate::specs::Steps::AreFewToSee, crate::specs::PutOff::AreOwedToSee, crate::specs::PutOff::MakesToSee))]
    pub fn see<L: Ledger, M: Ledger>(
        &mut self,
        alloc: Global,
        ask: &Ask,
        steps: &mut Steps<L>,
        put_off: &mut Steps<M>,
    ) -> Result<View, NoMemory>
        ensures state { self.new.state ≡ self.old.state }
        ensures view { IfOk result (λ view. view ≡ seen self.old.state ask.now) }
        ensures reached { MovesToSee ask.now result self.old self.new }
        ensures most { AreFewToSee self.old ask.now steps.old steps.new }
        ensures recorded { SeenStays self.old ask.now self.new }
        ensures unmade { MakesToSee ask.now result self.old self.new }
        ensures put_off { AreOwedToSee self.old ask.now put_off.old put_off.new }
    {
        match ask {
            Ask::Show(account) => self.show(alloc, account, steps),
            Ask::Issued(account, cycle) => self.issued(alloc, account, *cycle, put_off),
            Ask::Restated(account, cycle) => self.restated(alloc, account, *cycle, steps),
            Ask::Entries(account) => self.entries(alloc, account, steps),
            Ask::Work => self.work(alloc, steps),
        }
    }
}

// What is shown of an account.
fn shown(day: Day, owing: Owing) -> View
    ensures { result ≡ View.Show day owing.owed owing.credit owing.held }
{
    View::Show {
        day,
        owed: owing.owed,
        credit: owing.credit,
        held: owing.held,
    }
}

// A statement, or that it isn't there.
fn stated(statement: Option<Statement>) -> View
    ensures { result ≡ stated statement }
{
    match statement {
        Some(statement) => View::Statement(statement),
        None => View::NoStatement,
    }
}

// One more, for which room was made.
fn push_shared(list: &mut Vec<Shared>, shared: Shared)
    requires { vec_len list.old < vec_capacity list.old }
    ensures { list.new.items ≡ list.old.items ++ shared ∷ [] }
{
    list.push_reserved(shared);
}

// One more, for which room was made.
fn push_account(list: &mut Vec<Account>, account: Account)
    requires { vec_len list.old < vec_capacity list.old }
    ensures { list.new.items ≡ list.old.items ++ account ∷ [] }
{
    list.push_reserved(account);
}
