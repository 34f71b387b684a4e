// One account.
ghost use Rattle.std.specs.Prelude.{◌≡◌, Some, None};
ghost use Rattle.card_events.specs.declared.reply.Refusal.{Refusal};
ghost use Rattle.card_events.specs.History.{is_open};

use crate::entry_list::{EntryList, entries_today};
use crate::judge::{reads_book, reason_by_book, reason_by_posts, refunds_no_amount};
use crate::owing::Owing;
use crate::statement::{issued_of, restated_issue};
use crate::verdict::Verdict;
use crate::work::tasks_today;
use card_book::{Folded, Present, Statement};
use card_disputes::Task;
use card_events::{Day, Name, NoMemory, Num, Post, Refusal, Steps};
use card_fees::SharedRows;
use card_model::Entry;
use card_replay::{Change, Replay};
use std::alloc::Global;
use std::marker::Model;
use std::sync::ledger::Ledger;

/// An account: its name, and its posts and issued statements with its book folded to the day last reached. One that was just opened has
/// reached none. Of the statements some may be owed where the account was loaded: all of them are made when it is folded to today, when an
/// issued statement is asked for, and before it takes a post that changes a day up to the closing of one of them. A call that is given
/// today and shared rows requires an account that stands under these rows, and a today that is at most 2099-12-31 and not before the
/// opening day, the day last reached or a day on which a post was accepted.
#[derive(Drop)]
pub struct Account {
    name: Name,
    replay: Replay,
}

impl Model for Account {
    ghost use Rattle.card_account.specs.Accounts.{OpenAccount};

    ghost Value = { OpenAccount };

    ghost view = { λ a. record { named = record { name = a.name; lists = a.replay.lists }; corrected = a.replay.corrected; has_room = a.replay.has_room; late = a.replay.late; folding = a.replay.folding } };
}

impl Account {
    ghost use Rattle.std.specs.Prelude.{◌≡◌, ◌≤◌, ◌+◌, true, false, [], length, IfOk, OnErr, OnOk, None, List, ℕ, if◌then◌else◌};
    ghost use Rattle.card_events.specs.Billing.{IsCloseDay};
    ghost use Rattle.card_events.specs.Range.{last_request_day};
    ghost use Rattle.card_account.specs.Accounts.{HasTold, IsAccount, IsFoldedToday, IsIssueOf, IsTold, issued_statement, owing_in, replay_of, restated_statement, steps_of};
    ghost use Rattle.card_account.specs.Entries.{AreSmallEntries, entries_today};
    ghost use Rattle.card_account.specs.Reached.{IsIdle, IsIdleToLoad, StaysNear};
    ghost use Rattle.card_account.specs.Verdicts.{verdict_of};
    ghost use Rattle.card_account.specs.Works.{tasks_of};
    ghost use Rattle.card_daily.specs.Given.{IsSound};
    ghost use Rattle.card_events.specs.Dated.{is_dated_post};
    ghost use Rattle.card_events.specs.History.{anchor_of, at_number, is_open, opening_in, terms_in};
    ghost use Rattle.card_events.specs.Keys.{with_key};
    ghost use Rattle.card_events.specs.SharedRows.{SharedRows};
    ghost use Rattle.card_model.specs.Machine.{accepted, at_key, is_repeat_of};
    ghost use Rattle.card_model.specs.Refusals.{book_today, reason_against};
    ghost use Rattle.card_reasons.specs.Reasons.{reads_book};
    ghost use Rattle.card_replay.specs.Changes.{FoldsIfNeeded, IsChangeOf, IsPrepared, IsReadyFor, OwesBill, late_with};
    ghost use Rattle.card_replay.specs.Needs.{makes_before};
    ghost use Rattle.card_replay.specs.Replays.{IsToday, MakesOnce, given_of, opened_lists, present_of};
    ghost use Rattle.card_replay.specs.Standing.{AreStanding, IsStandingCount};
    ghost use Rattle.card_replay.specs.Steps.{AreFewToPrepare};

    /// The account that this post begins today, at most 2099-12-31: an opening with a closing day from 1 to 28, and an opening day that
    /// isn't after today. It has reached no day: nothing is folded. What every run leaves holds of its lists.
    pub fn open(
        alloc: Global,
        name: Name,
        key: &Name,
        today: Day,
        post: &Post,
        shared: &SharedRows,
    ) -> Result<Account, NoMemory>
        requires opens { is_open post.now ≡ true }
        requires close_day { IsCloseDay (terms_in post.now).close }
        requires opened { opening_in post.now ≤ today }
        requires dated { today ≤ last_request_day }
        requires sound { IsSound (given_of (opened_lists key.now today post.now) shared.now) }
        ensures named { IfOk result (λ a. a.named ≡ record { name = name; lists = opened_lists key.now today post.now }) }
        ensures account { IfOk result (IsAccount today shared.now) }
        ensures reached { IfOk result (λ a. a.folding.reached + 1 ≡ opening_in post.now) }
        ensures none { IfOk result (λ a. a.late.owed ≡ []) }
    {
        Ok(Account {
            name,
            replay: Replay::start(alloc, key, today, post, shared)?,
        })
    }

    /// Its name.
    pub fn name(&self) -> &Name
        ensures { result.now ≡ self.now.named.name }
    {
        &self.name
    }

    /// What is recorded of it up to the day last reached. Of an account that stands under its shared rows, no entry is above 10^15 cents
    /// in size.
    pub fn recorded(&self) -> &[Entry]
        ensures entries { result.now ≡ self.now.folding.past.track.entries.items }
        ensures small { (today : ℕ) (shared : SharedRows) → IsAccount today shared self.now → AreSmallEntries result.now }
    {
        self.replay.recorded()
    }

    /// How many of the first entries that are recorded of it stay if it takes a post today, whatever it is then taken back to: those up to
    /// the last closing before the earlier of the first day that the post changes and the day last reached. They are 0 where it takes no
    /// more posts, where the post is about a later one than there is, for a payment at a minute above 1,439, and for a payment that came in,
    /// or an Amend that lies, before the opening day or after today. It doesn't allocate.
    pub fn standing(&self, post: &Post, today: Day, shared: &SharedRows) -> usize
        requires { IsAccount today shared.now self.now }
        ensures stay { AreStanding result today shared.now post.now (replay_of self.now) }
        ensures count { IsStandingCount result today shared.now post.now self.now.named.lists self.now.folding.reached }
    {
        self.replay.standing(post, today, shared)
    }

    // It as it is judged and shown today, which it has reached: so all its statements are made.
    fn present<'a>(&'a self, today: Day, shared: &'a SharedRows) -> Present<'a>
        requires account { IsAccount today shared.now self.now }
        requires today { self.now.folding.reached ≡ today }
        ensures { result ≡ present_of today shared.now self.now.named.lists }
    {
        Present::new(self.replay.posts(), self.replay.made(), shared, today)
    }

    // It as a post is judged today by the posts alone, with the statements that are made: others may be owed.
    fn present_by_posts<'a>(&'a self, today: Day, shared: &'a SharedRows) -> Present<'a>
        requires { IsAccount today shared.now self.now }
        ensures { result ≡ present_of today shared.now (record { posts = self.now.named.lists.posts; issued = self.now.late.made }) }
    {
        Present::new(self.replay.posts(), self.replay.made(), shared, today)
    }

    // Its book of today, which it has reached.
    fn folded<'a>(&'a self, today: Day, shared: &SharedRows) -> Folded<'a>
        requires { IsToday today shared.now (replay_of self.now) }
        ensures { IsFoldedToday today shared.now self.now.named.lists result }
    {
        self.replay.folded(today, shared)
    }

    /// Folds it to the end of today, and makes the statements that are owed on the way. If memory runs out, those that are made and those
    /// that are owed are as before.
    pub fn to_day<L: Ledger>(
        &mut self,
        alloc: Global,
        today: Day,
        shared: &SharedRows,
        steps: &mut Steps<L>,
    ) -> Result<(), NoMemory>
        requires account { IsAccount today shared.now self.old }
        ensures told { IsTold today shared.now self.old self.new }
        ensures today { OnOk result (HasTold today shared.now self.old self.new) }
        ensures most { steps.new ≤ steps.old + steps_of today shared.now self.old }
        ensures spent { OnOk result (steps.new + steps_of today shared.now self.new ≤ steps.old + steps_of today shared.now self.old) }
        ensures late { OnErr result (self.new.late ≡ self.old.late) }
    {
        self.replay.to_day(alloc, today, shared, steps)
    }

    /// What becomes of a post today, on this account. Its days are days of requests. Only for a Penalty or a Refund under a new key is
    /// anything folded, a step taken or memory wanted, since they are judged by the book of today.
    pub fn judge<L: Ledger>(
        &mut self,
        alloc: Global,
        today: Day,
        key: &Name,
        post: &Post,
        shared: &SharedRows,
        steps: &mut Steps<L>,
    ) -> Result<Verdict, NoMemory>
        requires dated { is_dated_post post.now ≡ true }
        requires account { IsAccount today shared.now self.old }
        ensures told { IsTold today shared.now self.old self.new }
        ensures value { IfOk result (λ v. v ≡ verdict_of (at_key (present_of today shared.now self.old.named.lists) key.now post.now (with_key key.now self.old.named.lists.posts))) }
        ensures memory { OnErr result (reads_book post.now ≡ true) }
        ensures new_key { OnErr result (with_key key.now self.old.named.lists.posts ≡ None) }
        ensures repeated { (with_key key.now self.old.named.lists.posts ≡ None → ⊥) → IsIdle self.old self.new steps.old steps.new }
        ensures idle { reads_book post.now ≡ false → IsIdle self.old self.new steps.old steps.new }
        ensures most { steps.new ≤ steps.old + steps_of today shared.now self.old }
        ensures spent { OnOk result (steps.new + steps_of today shared.now self.new ≤ steps.old + steps_of today shared.now self.old) }
    {
        match self.replay.posts().with_key(key) {
            Some(number) => Ok(self.compare(number, post)),
            None => self.judge_new(alloc, today, post, shared, steps),
        }
    }

    // The result of a post whose key is new.
    fn judge_new<L: Ledger>(
        &mut self,
        alloc: Global,
        today: Day,
        post: &Post,
        shared: &SharedRows,
        steps: &mut Steps<L>,
    ) -> Result<Verdict, NoMemory>
        requires dated { is_dated_post post.now ≡ true }
        requires account { IsAccount today shared.now self.old }
        ensures told { IsTold today shared.now self.old self.new }
        ensures value { IfOk result (λ v. (key : List ℕ) → v ≡ verdict_of (at_key (present_of today shared.now self.old.named.lists) key post.now None)) }
        ensures memory { OnErr result (reads_book post.now ≡ true) }
        ensures idle { reads_book post.now ≡ false → IsIdle self.old self.new steps.old steps.new }
        ensures most { steps.new ≤ steps.old + steps_of today shared.now self.old }
        ensures spent { OnOk result (steps.new + steps_of today shared.now self.new ≤ steps.old + steps_of today shared.now self.old) }
    {
        if is_open(post) {
            return Ok(Verdict::Refused(Refusal::AccountExists));
        }
        if refunds_no_amount(post) {
            return Ok(Verdict::Refused(Refusal::AmountRange));
        }
        if !reads_book(post) {
            return Ok(self.judge_by_posts(today, post, shared));
        }
        self.to_day(alloc, today, shared, steps)?;
        Ok(self.judge_by_book(today, post, shared))
    }

    // The result of a post whose key is new, and for which no book is read. No issued statement is read either: those that are owed stay so.
    fn judge_by_posts(&self, today: Day, post: &Post, shared: &SharedRows) -> Verdict
        requires dated { is_dated_post post.now ≡ true }
        requires account { IsAccount today shared.now self.now }
        requires not_open { is_open post.now ≡ false }
        requires no_book { reads_book post.now ≡ false }
        ensures { (key : List ℕ) → result ≡ verdict_of (at_key (present_of today shared.now self.now.named.lists) key post.now None) }
    {
        verdict(reason_by_posts(&self.present_by_posts(today, shared), post))
    }

    // The result of a Penalty or a Refund whose key is new, by the book of today.
    fn judge_by_book(&self, today: Day, post: &Post, shared: &SharedRows) -> Verdict
        requires account { IsAccount today shared.now self.now }
        requires today { self.now.folding.reached ≡ today }
        requires not_open { is_open post.now ≡ false }
        requires book { reads_book post.now ≡ true }
        ensures { (key : List ℕ) → result ≡ verdict_of (at_key (present_of today shared.now self.now.named.lists) key post.now None) }
    {
        let folded = self.folded(today, shared);
        verdict(reason_by_book(&self.present(today, shared), &folded, post))
    }

    // The result of a post whose key is that of the post of this number.
    fn compare(&self, number: u32, post: &Post) -> Verdict
        ensures { result ≡ (if is_repeat_of post.now (at_number number self.now.named.lists.posts) then Verdict.Repeat number else Verdict.Refused (Refusal.KeyReused number)) }
    {
        if self.repeats(number, post) {
            Verdict::Repeat(number)
        } else {
            Verdict::Refused(Refusal::KeyReused(number as u64))
        }
    }

    fn repeats(&self, number: u32, post: &Post) -> bool
        ensures { result ≡ is_repeat_of post.now (at_number number self.now.named.lists.posts) }
    {
        match self.replay.posts().get(number) {
            Some(kept) => post.is_same_as(&kept.post),
            None => false,
        }
    }

    /// Prepares a post that is no opening, against which there is no reason, under a new key; its days are days of requests. There is
    /// room for the post, and the Book is there that it takes the account back to. For a Bill and for what sets rates the account reaches
    /// today; else its folding stays, and no step is taken. Where the post changes a day up to the closing of a cycle whose statement is
    /// owed, all that is owed is made first: the steps of that are counted as put off, and both counts together keep the bound. Its posts
    /// and issued statements stay; with the post, they are as every run leaves them. If memory runs out, it is the same account too.
    pub fn prepare<L: Ledger, M: Ledger>(
        &mut self,
        alloc: Global,
        key: Name,
        today: Day,
        post: &Post,
        shared: &SharedRows,
        steps: &mut Steps<L>,
        put_off: &mut Steps<M>,
    ) -> Result<Change, NoMemory>
        requires account { IsAccount today shared.now self.old }
        requires dated { is_dated_post post.now ≡ true }
        requires not_open { is_open post.now ≡ false }
        requires fresh { with_key key self.old.named.lists.posts ≡ None }
        requires no_reason { reason_against (present_of today shared.now self.old.named.lists) post.now ≡ None }
        requires sound { IsSound (given_of (accepted (present_of today shared.now self.old.named.lists) key post.now) shared.now) }
        ensures told { IsTold today shared.now self.old self.new }
        ensures prepared { IfOk result (λ c. IsPrepared shared.now c (replay_of self.new)) }
        ensures post { IfOk result (λ c. IsChangeOf key today post.now c) }
        ensures ready { OnOk result (IsReadyFor today post.now (replay_of self.new)) }
        ensures made { IfOk result (λ c. c.owes ≡ None) }
        ensures idle { FoldsIfNeeded post.now self.old.folding self.new.folding steps.old steps.new }
        ensures most { AreFewToPrepare today shared.now self.old.named.lists self.old.folding.reached key post.now steps.old steps.new }
        ensures both { AreFewToPrepare today shared.now self.old.named.lists self.old.folding.reached key post.now (steps.old + put_off.old) (steps.new + put_off.new) }
        ensures once { MakesOnce result self.old.late self.new.late put_off.old put_off.new }
        ensures put_off { makes_before post.now ≡ false → put_off.new ≡ put_off.old }
    {
        let from = self.replay.first_change(post, today, shared);
        self.replay
            .prepare(alloc, key, post, today, from, shared, steps, put_off)
    }

    /// Prepares a post as `prepare` does, for rows that are loaded: the statement of a Bill is owed where today isn't reached, so that
    /// nothing is folded for it. For what sets rates, and for a post that changes a day up to the closing of a cycle whose statement is
    /// owed, the account reaches today. For any other post nothing is folded or made, and no step is taken. If memory runs out, it is the
    /// same account too.
    pub fn prepare_loaded<L: Ledger>(
        &mut self,
        alloc: Global,
        key: Name,
        today: Day,
        post: &Post,
        shared: &SharedRows,
        steps: &mut Steps<L>,
    ) -> Result<Change, NoMemory>
        requires account { IsAccount today shared.now self.old }
        requires dated { is_dated_post post.now ≡ true }
        requires not_open { is_open post.now ≡ false }
        requires fresh { with_key key self.old.named.lists.posts ≡ None }
        requires no_reason { reason_against (present_of today shared.now self.old.named.lists) post.now ≡ None }
        requires sound { IsSound (given_of (accepted (present_of today shared.now self.old.named.lists) key post.now) shared.now) }
        ensures told { IsTold today shared.now self.old self.new }
        ensures prepared { IfOk result (λ c. IsPrepared shared.now c (replay_of self.new)) }
        ensures post { IfOk result (λ c. IsChangeOf key today post.now c) }
        ensures owes { IfOk result (OwesBill today post.now self.old.folding.reached) }
        ensures idle { IsIdleToLoad shared.now today post.now (replay_of self.old) (replay_of self.new) steps.old steps.new }
    {
        let first = self.replay.first_change(post, today, shared);
        self.replay
            .prepare_loaded(alloc, key, post, today, first, shared, steps)
    }

    /// Takes a post that was prepared for this account, with the statement that it issues or owes, and answers its number. What it changes is
    /// folded when the account is next asked. The day that it has reached isn't after today, nor before the last closing before the
    /// first day that the post changes, or the day before the opening, or before the day that it had reached. It doesn't allocate and
    /// can't fail.
    #[tactic(auto, unfolding(card_model::specs::Machine::accepted))]
    pub fn commit(&mut self, change: Change, shared: &SharedRows) -> u32
        requires prepared { IsPrepared shared.now change (replay_of self.old) }
        ensures name { self.new.named.name ≡ self.old.named.name }
        ensures lists { self.new.named.lists ≡ accepted (present_of change.today shared.now self.old.named.lists) change.key change.post }
        ensures account { IsAccount change.today shared.now self.new }
        ensures reached { StaysNear change.today shared.now self.old.named.lists self.new.named.lists self.old.folding.reached self.new.folding.reached }
        ensures late { self.new.late ≡ late_with change self.old.late }
        ensures number { result ≡ length self.old.named.lists.posts + 1 }
    {
        self.replay.commit(change, shared)
    }

    /// What is owed on it today, which it reaches. If memory runs out, the statements that are made and those that are owed are as before.
    pub fn show<L: Ledger>(
        &mut self,
        alloc: Global,
        today: Day,
        shared: &SharedRows,
        steps: &mut Steps<L>,
    ) -> Result<Owing, NoMemory>
        requires { IsAccount today shared.now self.old }
        ensures told { IsTold today shared.now self.old self.new }
        ensures today { OnOk result (HasTold today shared.now self.old self.new) }
        ensures value { IfOk result (λ o. o ≡ owing_in (book_today (present_of today shared.now self.old.named.lists))) }
        ensures most { steps.new ≤ steps.old + steps_of today shared.now self.old }
        ensures spent { OnOk result (steps.new + steps_of today shared.now self.new ≤ steps.old + steps_of today shared.now self.old) }
        ensures late { OnErr result (self.new.late ≡ self.old.late) }
    {
        self.to_day(alloc, today, shared, steps)?;
        let folded = self.folded(today, shared);
        Ok(Owing {
            owed: folded.owed(),
            credit: folded.credit(),
            held: folded.held(),
        })
    }

    /// Its entries up to the end of today, which it reaches, in the order of the fold, with its segments.
    pub fn entries<L: Ledger>(
        &mut self,
        alloc: Global,
        today: Day,
        shared: &SharedRows,
        steps: &mut Steps<L>,
    ) -> Result<EntryList, NoMemory>
        requires { IsAccount today shared.now self.old }
        ensures told { IsTold today shared.now self.old self.new }
        ensures today { OnOk result (HasTold today shared.now self.old self.new) }
        ensures value { IfOk result (λ list. list ≡ entries_today (present_of today shared.now self.old.named.lists)) }
        ensures most { steps.new ≤ steps.old + steps_of today shared.now self.old }
        ensures spent { OnOk result (steps.new + steps_of today shared.now self.new ≤ steps.old + steps_of today shared.now self.old) }
    {
        self.to_day(alloc, today, shared, steps)?;
        let folded = self.folded(today, shared);
        entries_today(alloc, &self.present(today, shared), &folded)
    }

    /// The statement of a cycle as it was issued, none where no Bill has issued it (12 CFR 1026.5(b)(2), .7(b)). Statements that are owed
    /// are made first, since it may be one of them. The day last reached stays. No step is taken where none is owed, and else at most those
    /// that bring it to today. If memory runs out, all that were owed are made, or none is.
    pub fn issued<L: Ledger>(
        &mut self,
        alloc: Global,
        today: Day,
        cycle: Num,
        shared: &SharedRows,
        steps: &mut Steps<L>,
    ) -> Result<Option<Statement>, NoMemory>
        requires { IsAccount today shared.now self.old }
        ensures told { IsTold today shared.now self.old self.new }
        ensures folding { self.new.folding ≡ self.old.folding }
        ensures value { IfOk result (λ s. s ≡ issued_statement cycle self.old.named.lists.issued) }
        ensures none { OnOk result (self.new.late.owed ≡ []) }
        ensures idle { self.old.late.owed ≡ [] → steps.new ≡ steps.old }
        ensures most { steps.new ≤ steps.old + steps_of today shared.now self.old }
    {
        self.replay.make_owed(alloc, today, shared, steps)?;
        issued_of(alloc, self.replay.made(), cycle)
    }

    /// The statement of a cycle as the book of today has it, which the account reaches; none where the cycle isn't closed before today.
    /// Its day of issue is that of the Bill that issued it; without one it is the due date, so that no payment is due.
    pub fn restated<L: Ledger>(
        &mut self,
        alloc: Global,
        today: Day,
        cycle: Num,
        shared: &SharedRows,
        steps: &mut Steps<L>,
    ) -> Result<Option<Statement>, NoMemory>
        requires { IsAccount today shared.now self.old }
        ensures told { IsTold today shared.now self.old self.new }
        ensures today { OnOk result (HasTold today shared.now self.old self.new) }
        ensures value { IfOk result (λ s. s ≡ restated_statement (present_of today shared.now self.old.named.lists) cycle) }
        ensures most { steps.new ≤ steps.old + steps_of today shared.now self.old }
        ensures spent { OnOk result (steps.new + steps_of today shared.now self.new ≤ steps.old + steps_of today shared.now self.old) }
    {
        self.to_day(alloc, today, shared, steps)?;
        self.restated_today(alloc, today, cycle, shared)
    }

    // The same by its book of today, which it has reached.
    fn restated_today(
        &self,
        alloc: Global,
        today: Day,
        cycle: Num,
        shared: &SharedRows,
    ) -> Result<Option<Statement>, NoMemory>
        requires account { IsAccount today shared.now self.now }
        requires today { self.now.folding.reached ≡ today }
        ensures { IfOk result (λ s. s ≡ restated_statement (present_of today shared.now self.now.named.lists) cycle) }
    {
        match self.issue_today(today, cycle, shared) {
            Some(issue) => self.replay.statement(alloc, cycle, issue, today, shared),
            None => Ok(None),
        }
    }

    // The day of issue of such a statement, none where there is no statement.
    fn issue_today(&self, today: Day, cycle: Num, shared: &SharedRows) -> Option<Day>
        requires account { IsAccount today shared.now self.now }
        requires today { self.now.folding.reached ≡ today }
        ensures { IsIssueOf (present_of today shared.now self.now.named.lists) cycle result }
    {
        let folded = self.folded(today, shared);
        restated_issue(&self.present(today, shared), &folded, cycle)
    }

    /// Its open tasks today, which it reaches, by day, kind and post (12 CFR 1026.11(a), .13(c), .59).
    pub fn tasks<L: Ledger>(
        &mut self,
        alloc: Global,
        today: Day,
        shared: &SharedRows,
        steps: &mut Steps<L>,
    ) -> Result<Vec<Task>, NoMemory>
        requires { IsAccount today shared.now self.old }
        ensures told { IsTold today shared.now self.old self.new }
        ensures today { OnOk result (HasTold today shared.now self.old self.new) }
        ensures value { IfOk result (λ tasks. tasks.items ≡ tasks_of today shared.now self.old) }
        ensures most { steps.new ≤ steps.old + steps_of today shared.now self.old }
        ensures spent { OnOk result (steps.new + steps_of today shared.now self.new ≤ steps.old + steps_of today shared.now self.old) }
    {
        self.to_day(alloc, today, shared, steps)?;
        let folded = self.folded(today, shared);
        let now = self.present(today, shared);
        tasks_today(alloc, &self.name, &now, &folded)
    }
}

// The verdict on a post under a new key that is no opening.
fn verdict(reason: Option<Refusal>) -> Verdict
    ensures none { reason ≡ None → result ≡ Verdict.New }
    ensures some { (r : Refusal) → reason ≡ Some r → result ≡ Verdict.Refused r }
{
    match reason {
        Some(refusal) => Verdict::Refused(refusal),
        None => Verdict::New,
    }
}

/// Whether a post opens an account.
pub fn is_open(post: &Post) -> bool
    ensures { result ≡ is_open post.now }
{
    matches!(post, Post::Open { .. } | Post::OpenVariable { .. })
}
