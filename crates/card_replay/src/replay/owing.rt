// Statements that an account owes: how they are made, and how a Bill comes to owe one.
ghost use Rattle.std.specs.Prelude.{◌≡◌, ◌+◌, ◌<◌, ◌≤◌, true, false, [], None, Some, IfOk, IfSome, OnOk, OnErr, ◌⊎◌};
ghost use Rattle.std.specs.List.{All};
ghost use Rattle.card_book.specs.GoingOn as going;
ghost use Rattle.card_book.specs.Laws.{is_bill};
ghost use Rattle.card_daily.specs.Given.{IsSound};
ghost use Rattle.card_events.specs.Dated.{is_dated_post};
ghost use Rattle.card_events.specs.History.{is_open};
ghost use Rattle.card_events.specs.Keys.{with_key};
ghost use Rattle.card_model.specs.Machine.{accepted};
ghost use Rattle.card_model.specs.Refusals.{reason_against};
ghost use Rattle.card_model.specs.Unread as unread;
ghost use Rattle.card_posts.specs.Draft.{IsFirstWith};
ghost use Rattle.card_replay.specs.Changes.{IsChangeOf, IsOwedFor, IsPrepared, IsReadyFor, LeavesOwed, OwesBill, StaysUnfolded};
ghost use Rattle.card_replay.specs.Needs as needs;
ghost use Rattle.card_replay.specs.Steps.{steps_to};
ghost use Rattle.card_replay.specs.Replays.{IsReplay, MakesAllOrNone, MakesOnce, MayReach, SameLists, given_of, posted_of, present_of};

use super::Replay;
use crate::change::Change;
use crate::rewinding::{is_folded_to, is_unread, sets_rates};
use card_events::{Day, Name, NoMemory, Post, Steps};
use card_fees::SharedRows;
use card_past::{IssuedIfAny, Owed, is_reached, make_beside, owed_for};
use std::alloc::Global;
use std::sync::ledger::Ledger;

// Whether a load folds for a post, where this is the first day that it changes: one that sets rates, and one that a fold reads and that
// changes a day up to the closing of a cycle whose statement is owed.
fn folds_to_load(post: &Post, from: Day, owed: &[Owed]) -> bool
    ensures value { result ≡ needs.folds_to_load post.now from owed.now }
    ensures rates { result ≡ false → going.sets_rates post.now ≡ false }
    ensures leaves { result ≡ false → unread.is_unread post.now ≡ false → All (λ o. o.closing < from) owed.now }
{
    sets_rates(post) || (!is_unread(post) && is_reached(owed, from))
}

impl Replay {
    /// Makes the statements that are owed (12 CFR 1026.5(b)(2), .7(b)) on a copy of what is folded: the day last reached stays. It takes no
    /// step where none is owed, and else at most those that `to_day` takes. If memory runs out, they are owed as before.
    pub fn make_owed<L: Ledger>(
        &mut self,
        alloc: Global,
        today: Day,
        shared: &SharedRows,
        steps: &mut Steps<L>,
    ) -> Result<(), NoMemory>
        requires replay { IsReplay shared.now self.old }
        requires reach { MayReach today self.old }
        ensures same { SameLists self.old self.new }
        ensures replay { IsReplay shared.now self.new }
        ensures folding { self.new.folding ≡ self.old.folding }
        ensures none { OnOk result (self.new.late.owed ≡ []) }
        ensures made { OnOk result (self.new.late.made ≡ self.old.lists.issued) }
        ensures err { OnErr result (self.new.late ≡ self.old.late) }
        ensures idle { self.old.late.owed ≡ [] → steps.new ≡ steps.old }
        ensures most { steps.new ≤ steps.old + steps_to today shared.now self.old }
    {
        if self.owed.is_empty() {
            return Ok(());
        }
        make_beside(
            alloc,
            &self.told,
            &self.posts,
            &mut self.issued,
            &self.owed,
            today,
            &self.book,
            &self.past,
            shared,
            steps,
        )?;
        self.owed.clear();
        Ok(())
    }

    // Makes the statements that are owed where a post changes a day up to the closing of one of them, since they are of the posts before
    // it. The day last reached stays. The steps are those that a load put off.
    pub(super) fn make_for<L: Ledger>(
        &mut self,
        alloc: Global,
        post: &Post,
        today: Day,
        from: Day,
        shared: &SharedRows,
        put_off: &mut Steps<L>,
    ) -> Result<(), NoMemory>
        requires replay { IsReplay shared.now self.old }
        requires reach { MayReach today self.old }
        ensures same { SameLists self.old self.new }
        ensures replay { IsReplay shared.now self.new }
        ensures folding { self.new.folding ≡ self.old.folding }
        ensures leaves { OnOk result (LeavesOwed post.now from self.new) }
        ensures all { MakesAllOrNone self.old.late self.new.late }
        ensures once { MakesOnce result self.old.late self.new.late put_off.old put_off.new }
        ensures skips { unread.is_unread post.now ≡ true → put_off.new ≡ put_off.old }
        ensures most { put_off.new ≤ put_off.old + steps_to today shared.now self.old }
    {
        if is_unread(post) || !is_reached(&self.owed, from) {
            return Ok(());
        }
        self.make_owed(alloc, today, shared, put_off)
    }

    // The Bill whose statement can be made later, where a post is one and today isn't reached.
    fn owes(&self, post: &Post, today: Day, _shared: &SharedRows) -> Option<Owed>
        requires replay { IsReplay _shared.now self.now }
        requires reach { MayReach today self.now }
        requires no_reason { reason_against (present_of today _shared.now self.now.lists) post.now ≡ None }
        ensures bill { IfSome result (IsOwedFor today post.now self.now) }
        ensures none { result ≡ None → is_bill post.now ≡ true → self.now.folding.reached ≡ today }
    {
        if is_folded_to(&self.book, today) {
            None
        } else {
            owed_for(&self.posts, post)
        }
    }

    // A Bill whose statement is made later.
    fn owing(
        &mut self,
        alloc: Global,
        key: Name,
        post: &Post,
        today: Day,
        one: Owed,
        _shared: &SharedRows,
    ) -> Result<Change, NoMemory>
        requires replay { IsReplay _shared.now self.old }
        requires reach { MayReach today self.old }
        requires no_reason { reason_against (present_of today _shared.now self.old.lists) post.now ≡ None }
        requires sound { IsSound (given_of (accepted (present_of today _shared.now self.old.lists) key post.now) _shared.now) }
        requires owed { IsOwedFor today post.now self.old one }
        ensures same { SameLists self.old self.new }
        ensures replay { IsReplay _shared.now self.new }
        ensures folding { self.new.folding ≡ self.old.folding }
        ensures late { self.new.late ≡ self.old.late }
        ensures prepared { IfOk result (λ c. IsPrepared _shared.now c self.new) }
        ensures post { IfOk result (λ c. IsChangeOf key today post.now c) }
        ensures owes { IfOk result (λ c. c.owes ≡ Some one) }
    {
        self.make_room(alloc)?;
        Ok(Change {
            key,
            post: *post,
            today,
            issued: IssuedIfAny::none(),
            owes: Some(one),
            rewound: None,
        })
    }

    // Folds to the end of today for a post that sets rates, or that changes a day up to the closing of a cycle whose statement is owed. For a
    // Bill today is reached.
    fn reach_loaded<L: Ledger>(
        &mut self,
        alloc: Global,
        post: &Post,
        today: Day,
        from: Day,
        shared: &SharedRows,
        steps: &mut Steps<L>,
    ) -> Result<(), NoMemory>
        requires replay { IsReplay shared.now self.old }
        requires reach { MayReach today self.old }
        requires bill { is_bill post.now ≡ true → self.old.folding.reached ≡ today }
        ensures same { SameLists self.old self.new }
        ensures replay { IsReplay shared.now self.new }
        ensures reached { (self.new.folding.reached ≡ self.old.folding.reached) ⊎ (self.new.folding.reached ≡ today) }
        ensures ready { OnOk result (IsReadyFor today post.now self.new) }
        ensures leaves { OnOk result (LeavesOwed post.now from self.new) }
        ensures idle { needs.folds_to_load post.now from self.old.late.owed ≡ false → StaysUnfolded self.old self.new steps.old steps.new }
        ensures all { MakesAllOrNone self.old.late self.new.late }
    {
        if folds_to_load(post, from, &self.owed) {
            self.to_day(alloc, today, shared, steps)?;
        }
        Ok(())
    }

    /// Prepares a post as `prepare` does, for an account that is loaded: the statement of a Bill is owed where today isn't reached, so that
    /// nothing is folded for it. For what sets rates, and for a post that changes a day up to the closing of a cycle whose statement is
    /// owed, the account reaches today. For any other post nothing is folded or made, and no step is taken. If memory runs out, it is the
    /// same account too.
    pub fn prepare_loaded<L: Ledger>(
        &mut self,
        alloc: Global,
        key: Name,
        post: &Post,
        today: Day,
        from: Day,
        shared: &SharedRows,
        steps: &mut Steps<L>,
    ) -> Result<Change, NoMemory>
        requires replay { IsReplay shared.now self.old }
        requires reach { MayReach today self.old }
        requires dated { is_dated_post post.now ≡ true }
        requires not_open { is_open post.now ≡ false }
        requires fresh { with_key key self.old.lists.posts ≡ None }
        requires no_reason { reason_against (present_of today shared.now self.old.lists) post.now ≡ None }
        requires first { IsFirstWith shared.now.holidays today post.now (posted_of self.old) from }
        requires sound { IsSound (given_of (accepted (present_of today shared.now self.old.lists) key post.now) shared.now) }
        ensures same { SameLists self.old self.new }
        ensures replay { IsReplay shared.now self.new }
        ensures reached { (self.new.folding.reached ≡ self.old.folding.reached) ⊎ (self.new.folding.reached ≡ today) }
        ensures prepared { IfOk result (λ c. IsPrepared shared.now c self.new) }
        ensures post { IfOk result (λ c. IsChangeOf key today post.now c) }
        ensures owes { IfOk result (OwesBill today post.now self.old.folding.reached) }
        ensures idle { needs.folds_to_load post.now from self.old.late.owed ≡ false → StaysUnfolded self.old self.new steps.old steps.new }
        ensures all { MakesAllOrNone self.old.late self.new.late }
    {
        match self.owes(post, today, shared) {
            Some(one) => self.owing(alloc, key, post, today, one, shared),
            None => {
                self.reach_loaded(alloc, post, today, from, shared, steps)?;
                self.changed(alloc, key, post, today, from, shared)
            }
        }
    }
}
