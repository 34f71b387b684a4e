// An account with its book folded to the day last reached.
mod owing;

use crate::change::{Change, TakenBack};
use crate::foretold::may_come;
use crate::rewinding::{
    closed_before, cycles_before, folded_since, go_back, is_folded_to, is_unread, needs_today,
    rewind, sets_rates,
};
use crate::taking::take_if_any;
use card_book::{Folded, Inputs, Issued, Statement};
use card_dayend::make_cycle_room;
use card_events::{Day, Name, NoMemory, Num, POST_LIMIT, Post, Steps};
use card_fees::SharedRows;
use card_model::Entry;
use card_past::{
    BookIfAny, Eve, IssuedIfAny, Owed, Past, Told, closed_number, cut, ends_of, entries_up_to,
    eve_of, issued_by, nothing, push_issued, push_owed, reach, reach_with_all, statement_at, tell,
};
use card_posts::Posts;
use std::alloc::Global;
use std::marker::Model;
use std::mem::replace;
use std::sync::ledger::Ledger;

/// The posts and the issued statements of an account, with its book folded to the day last reached, what is recorded up to then,
/// and what has to be kept of each closing to go back to it; and, where there is one, the Book of an earlier day. Where no day is reached
/// nothing is folded, and there is no Book. Of the issued statements some may be owed: their Bills were accepted behind the day last
/// reached, and they are made on the way when a fold passes their days. Clauses see it as a record of these, and of the day last reached,
/// which is the day before the opening where none is; and all that were issued, whether made or owed.
#[derive(Drop)]
pub struct Replay {
    posts: Posts,
    told: Told,
    issued: Vec<Issued>,
    owed: Vec<Owed>,
    book: BookIfAny,
    past: Past,
    eve: Option<Eve>,
    has_room: bool,
}

impl Model for Replay {
    ghost use Rattle.std.specs.Prelude.{◌≡◌, ◌<◌, true, vec_len, vec_capacity};
    ghost use Rattle.card_events.specs.History.{anchor_of};
    ghost use Rattle.card_replay.specs.Replays.{Replay, day_of, day_reached};

    ghost Value = { Replay };

    ghost view = { λ r. record { lists = record { posts = r.posts.history; issued = r.told.rows }; corrected = r.posts.corrected; has_room = r.has_room; late = record { made = r.issued.items; owed = r.owed.items }; folding = record { reached = day_reached (anchor_of r.posts.history).opened (day_of r.book); book = r.book; past = r.past; eve = r.eve } } };

    ghost invariant = { λ r. r.has_room ≡ true → (r.posts.has_room ≡ true) × (vec_len r.issued < vec_capacity r.issued) × (vec_len r.owed < vec_capacity r.owed) };
}

impl Replay {
    ghost use Rattle.std.specs.Prelude.{◌≡◌, ◌+◌, ◌≤◌, ◌<◌, ◌++◌, ℕ, [], ◌∷◌, true, false, length, None, IfOk, IfSome, OnOk, OnErr, ◌⊎◌};
    ghost use Rattle.card_events.specs.Billing.{IsCloseDay};
    ghost use Rattle.card_events.specs.Range.{last_calendar_day, last_request_day};
    ghost use Rattle.card_events.specs.Dated.{is_dated_post};
    ghost use Rattle.card_events.specs.History.{anchor_of, is_open, opening_in, terms_in};
    ghost use Rattle.card_events.specs.Keys.{with_key};
    ghost use Rattle.card_model.specs.Machine.{accepted, issues};
    ghost use Rattle.card_model.specs.Folds.{cycle_at};
    ghost use Rattle.std.specs.Option.{option_map};
    ghost use Rattle.card_book.specs.Statements.{statement_on};
    ghost use Rattle.card_model.specs.Refusals.{book_today, reason_against};
    ghost use Rattle.card_model.specs.Deadlines.{credit_since};
    ghost use Rattle.card_rates.specs.Segments.{account_segments};
    ghost use Rattle.card_daily.specs.Given.{IsSound};
    ghost use Rattle.card_book.specs.GoingOn as rates;
    ghost use Rattle.card_replay.specs.Changes.{FoldsIfNeeded, IsChangeOf, IsCommitted, IsPrepared, IsReadyFor, IsRewoundBy, LeavesOwed, MayPrepare, issued_as};
    ghost use Rattle.card_posts.specs.Draft.{IsFirstWith};
    ghost use Rattle.card_replay.specs.Needs.{makes_before};
    ghost use Rattle.card_replay.specs.Replays.{IsReplay, IsToday, KeepsEve, MakesAllOrNone, MakesOnce, MayReach, SameLists, day_of, given_of, opened_lists, posted_of, present_of};
    ghost use Rattle.card_replay.specs.Standing.{AreStanding, IsForetold, IsStandingCount, MayCome};
    ghost use Rattle.card_replay.specs.Steps.{AreFewToPrepare, IsNear, steps_to};

    /// The account that a post opens today, at most 2099-12-31: an opening with a closing day from 1 to 28, and an opening day that isn't
    /// after today. It has reached no day: nothing is folded, and it has no Book. What every run leaves holds of its
    /// lists.
    pub fn start(
        alloc: Global,
        key: &Name,
        today: Day,
        post: &Post,
        _shared: &SharedRows,
    ) -> Result<Replay, NoMemory>
        requires opens { is_open post.now ≡ true }
        requires close_day { IsCloseDay (terms_in post.now).close }
        requires opened { opening_in post.now ≤ today }
        requires dated { today ≤ last_request_day }
        requires sound { IsSound (given_of (opened_lists key.now today post.now) _shared.now) }
        ensures lists { IfOk result (λ r. r.lists ≡ opened_lists key.now today post.now) }
        ensures replay { IfOk result (IsReplay _shared.now) }
        ensures reached { IfOk result (λ r. r.folding.reached + 1 ≡ opening_in post.now) }
        ensures reach { IfOk result (MayReach today) }
        ensures room { IfOk result (λ r. r.has_room ≡ false) }
        ensures none { IfOk result (λ r. r.late.owed ≡ []) }
    {
        Ok(Replay {
            posts: Posts::start(alloc, key, today, post)?,
            told: Told::none(),
            issued: Vec::new(alloc),
            owed: Vec::new(alloc),
            book: BookIfAny::none(),
            past: nothing(alloc),
            eve: None,
            has_room: false,
        })
    }

    /// Folds to the end of today, which isn't before the opening day, the day last reached or a day on which a post was accepted, and is
    /// at most 2099-12-31. The posts and the issued statements stay, and those that are owed are made on the way. It takes one step a break
    /// day after the day last reached, and one more where today is later and none. The Book of the day that was last reached is kept, where
    /// a later one is. If memory runs out, the day last reached is as before, and so are the statements that are made and those that are
    /// owed.
    pub fn to_day<L: Ledger>(
        &mut self,
        alloc: Global,
        today: Day,
        shared: &SharedRows,
        steps: &mut Steps<L>,
    ) -> Result<(), NoMemory>
        requires replay { IsReplay shared.now self.old }
        requires reach { MayReach today self.old }
        ensures same { SameLists self.old self.new }
        ensures replay { IsReplay shared.now self.new }
        ensures reached { OnOk result (self.new.folding.reached ≡ today) }
        ensures eve { OnOk result (KeepsEve today self.old.folding self.new.folding) }
        ensures err { OnErr result (self.new.folding.reached ≡ self.old.folding.reached) }
        ensures late { OnErr result (self.new.late ≡ self.old.late) }
        ensures steps { OnOk result (steps.new ≡ steps.old + steps_to today shared.now self.old) }
        ensures most { steps.new ≤ steps.old + steps_to today shared.now self.old }
    {
        if is_folded_to(&self.book, today) {
            return Ok(());
        }
        if self.owed.is_empty() {
            self.fold_to(alloc, today, shared, steps)
        } else {
            self.make_to(alloc, today, shared, steps)
        }
    }

    // The same where today isn't reached and no statement is owed.
    fn fold_to<L: Ledger>(
        &mut self,
        alloc: Global,
        today: Day,
        shared: &SharedRows,
        steps: &mut Steps<L>,
    ) -> Result<(), NoMemory>
        requires replay { IsReplay shared.now self.old }
        requires reach { MayReach today self.old }
        requires behind { day_of self.old.folding.book ≡ Some today → ⊥ }
        requires none { self.old.late.owed ≡ [] }
        ensures same { SameLists self.old self.new }
        ensures replay { IsReplay shared.now self.new }
        ensures reached { OnOk result (self.new.folding.reached ≡ today) }
        ensures eve { OnOk result (KeepsEve today self.old.folding self.new.folding) }
        ensures err { OnErr result (self.new.folding.reached ≡ self.old.folding.reached) }
        ensures late { OnErr result (self.new.late ≡ self.old.late) }
        ensures steps { OnOk result (steps.new ≡ steps.old + steps_to today shared.now self.old) }
        ensures most { steps.new ≤ steps.old + steps_to today shared.now self.old }
    {
        let ends = ends_of(&self.past);
        let inputs = Inputs::new(&self.posts, &self.issued, shared);
        let later = reach(alloc, &inputs, &self.book, &mut self.past, today, steps)?;
        let book = replace(&mut self.book, later);
        self.eve = eve_of(book, ends);
        Ok(())
    }

    // The same where today isn't reached: the statements that are owed are made on the way.
    fn make_to<L: Ledger>(
        &mut self,
        alloc: Global,
        today: Day,
        shared: &SharedRows,
        steps: &mut Steps<L>,
    ) -> Result<(), NoMemory>
        requires replay { IsReplay shared.now self.old }
        requires reach { MayReach today self.old }
        requires behind { day_of self.old.folding.book ≡ Some today → ⊥ }
        ensures same { SameLists self.old self.new }
        ensures replay { IsReplay shared.now self.new }
        ensures reached { OnOk result (self.new.folding.reached ≡ today) }
        ensures eve { OnOk result (KeepsEve today self.old.folding self.new.folding) }
        ensures err { OnErr result (self.new.folding.reached ≡ self.old.folding.reached) }
        ensures late { OnErr result (self.new.late ≡ self.old.late) }
        ensures steps { OnOk result (steps.new ≡ steps.old + steps_to today shared.now self.old) }
        ensures most { steps.new ≤ steps.old + steps_to today shared.now self.old }
    {
        let ends = ends_of(&self.past);
        let later = reach_with_all(
            alloc,
            &self.told,
            &self.posts,
            &mut self.issued,
            &self.owed,
            today,
            &self.book,
            &mut self.past,
            shared,
            steps,
        )?;
        self.owed.clear();
        let book = replace(&mut self.book, later);
        self.eve = eve_of(book, ends);
        Ok(())
    }

    // Makes room for one more post with its statement.
    fn make_room(&mut self, alloc: Global) -> Result<(), NoMemory>
        ensures same { SameLists self.old self.new }
        ensures folding { self.new.folding ≡ self.old.folding }
        ensures late { self.new.late ≡ self.old.late }
        ensures room { OnOk result (self.new.has_room ≡ true) }
    {
        self.posts.make_room(alloc)?;
        make_cycle_room(&mut self.issued)?;
        make_cycle_room(&mut self.owed)?;
        self.has_room = true;
        Ok(())
    }

    // Folds to the end of today for a post that asks for it.
    fn reach_for<L: Ledger>(
        &mut self,
        alloc: Global,
        post: &Post,
        today: Day,
        shared: &SharedRows,
        steps: &mut Steps<L>,
    ) -> Result<(), NoMemory>
        requires replay { IsReplay shared.now self.old }
        requires reach { MayReach today self.old }
        ensures same { SameLists self.old self.new }
        ensures replay { IsReplay shared.now self.new }
        ensures ready { OnOk result (IsReadyFor today post.now self.new) }
        ensures reached { (self.new.folding.reached ≡ self.old.folding.reached) ⊎ (self.new.folding.reached ≡ today) }
        ensures idle { FoldsIfNeeded post.now self.old.folding self.new.folding steps.old steps.new }
        ensures most { steps.new ≤ steps.old + steps_to today shared.now self.old }
        ensures all { MakesAllOrNone self.old.late self.new.late }
    {
        if !needs_today(post) {
            return Ok(());
        }
        self.to_day(alloc, today, shared, steps)?;
        Ok(())
    }

    // The row that a post issues today, where it is a Bill, for which the account has reached today.
    fn issued_today(
        &self,
        alloc: Global,
        post: &Post,
        today: Day,
        shared: &SharedRows,
    ) -> Result<IssuedIfAny, NoMemory>
        requires replay { IsReplay shared.now self.now }
        requires reach { MayReach today self.now }
        requires ready { IsReadyFor today post.now self.now }
        requires no_reason { reason_against (present_of today shared.now self.now.lists) post.now ≡ None }
        ensures { IfOk result (λ made. issued_as made ≡ issues (present_of today shared.now self.now.lists) post.now) }
    {
        if !needs_today(post) {
            return Ok(IssuedIfAny::none());
        }
        let number = self.posts.len() + 1;
        let inputs = Inputs::new(&self.posts, &self.issued, shared);
        let made = issued_by(alloc, &inputs, &self.book, &self.past, post, number, today)?;
        Ok(made)
    }

    // What a post that sets rates takes the account back to, found with the post among the others for a while.
    fn drafted(
        &mut self,
        alloc: Global,
        key: &Name,
        post: &Post,
        today: Day,
        from: Day,
        reached: Day,
        shared: &SharedRows,
    ) -> Result<TakenBack, NoMemory>
        requires may { MayPrepare shared.now today key.now post.now self.old }
        requires first { IsFirstWith shared.now.holidays today post.now (posted_of self.old) from }
        requires reached { self.old.folding.reached ≡ reached }
        requires within { from ≤ reached }
        requires there { self.old.folding.book ≡ None → ⊥ }
        requires sets { rates.sets_rates post.now ≡ true }
        ensures same { SameLists self.old self.new }
        ensures folding { self.new.folding ≡ self.old.folding }
        ensures late { self.new.late ≡ self.old.late }
        ensures rewound { IfOk result (λ made. IsRewoundBy shared.now today key.now post.now (Some made) self.old) }
    {
        let key = key.copy();
        // So the Book is made over all posts, and no history is copied.
        let draft = self
            .posts
            .draft(alloc, key, today, post, shared.calendar())?;
        let inputs = Inputs::new(&self.posts, &self.issued, shared);
        let book = self.book.lent();
        let made = rewind(alloc, &inputs, post, from, reached, book, &self.past);
        self.posts.withdraw(draft);
        made
    }

    // What a post that sets no rate takes the account back to, for which it isn't entered.
    fn gone_back(
        &self,
        alloc: Global,
        _key: &Name,
        _post: &Post,
        _today: Day,
        from: Day,
        _reached: Day,
        _shared: &SharedRows,
    ) -> Result<TakenBack, NoMemory>
        requires may { MayPrepare _shared.now _today _key.now _post.now self.now }
        requires first { IsFirstWith _shared.now.holidays _today _post.now (posted_of self.now) from }
        requires reached { self.now.folding.reached ≡ _reached }
        requires within { from ≤ _reached }
        requires there { self.now.folding.book ≡ None → ⊥ }
        requires plain { rates.sets_rates _post.now ≡ false }
        ensures { IfOk result (λ made. IsRewoundBy _shared.now _today _key.now _post.now (Some made) self.now) }
    {
        let cycle = cycles_before(&self.posts.anchor(), from);
        let book = self.book.lent();
        let made = go_back(alloc, from, cycle, book, &self.past, &self.eve)?;
        Ok(made)
    }

    // What a post that a fold reads takes the account back to, where it changes a day up to the one reached.
    fn rewound_to(
        &mut self,
        alloc: Global,
        key: &Name,
        post: &Post,
        today: Day,
        from: Day,
        reached: Day,
        shared: &SharedRows,
    ) -> Result<TakenBack, NoMemory>
        requires may { MayPrepare shared.now today key.now post.now self.old }
        requires first { IsFirstWith shared.now.holidays today post.now (posted_of self.old) from }
        requires reached { self.old.folding.reached ≡ reached }
        requires within { from ≤ reached }
        requires there { self.old.folding.book ≡ None → ⊥ }
        ensures same { SameLists self.old self.new }
        ensures folding { self.new.folding ≡ self.old.folding }
        ensures late { self.new.late ≡ self.old.late }
        ensures rewound { IfOk result (λ made. IsRewoundBy shared.now today key.now post.now (Some made) self.old) }
    {
        if sets_rates(post) {
            self.drafted(alloc, key, post, today, from, reached, shared)
        } else {
            self.gone_back(alloc, key, post, today, from, reached, shared)
        }
    }

    // What a post that a fold reads takes the account back to, where the first day is known that it changes: to nothing where it changes
    // only days that aren't folded.
    fn rewound_from(
        &mut self,
        alloc: Global,
        key: &Name,
        post: &Post,
        today: Day,
        from: Day,
        shared: &SharedRows,
    ) -> Result<Option<TakenBack>, NoMemory>
        requires may { MayPrepare shared.now today key.now post.now self.old }
        requires first { IsFirstWith shared.now.holidays today post.now (posted_of self.old) from }
        ensures same { SameLists self.old self.new }
        ensures folding { self.new.folding ≡ self.old.folding }
        ensures late { self.new.late ≡ self.old.late }
        ensures rewound { IfOk result (λ made. IsRewoundBy shared.now today key.now post.now made self.old) }
    {
        match folded_since(&self.book, from) {
            Some(reached) => {
                let made = self.rewound_to(alloc, key, post, today, from, reached, shared)?;
                Ok(Some(made))
            }
            None => Ok(None),
        }
    }

    // What a post takes the account back to, where it changes something up to the day reached. The account stays as it is.
    fn rewound(
        &mut self,
        alloc: Global,
        key: &Name,
        post: &Post,
        today: Day,
        from: Day,
        shared: &SharedRows,
    ) -> Result<Option<TakenBack>, NoMemory>
        requires replay { IsReplay shared.now self.old }
        requires reach { MayReach today self.old }
        requires ready { IsReadyFor today post.now self.old }
        requires room { self.old.has_room ≡ true }
        requires fresh { with_key key.now self.old.lists.posts ≡ None }
        requires no_reason { reason_against (present_of today shared.now self.old.lists) post.now ≡ None }
        requires first { IsFirstWith shared.now.holidays today post.now (posted_of self.old) from }
        requires sound { IsSound (given_of (accepted (present_of today shared.now self.old.lists) key.now post.now) shared.now) }
        ensures same { SameLists self.old self.new }
        ensures folding { self.new.folding ≡ self.old.folding }
        ensures late { self.new.late ≡ self.old.late }
        ensures rewound { IfOk result (λ made. IsRewoundBy shared.now today key.now post.now made self.old) }
    {
        if is_unread(post) {
            return Ok(None);
        }
        self.rewound_from(alloc, key, post, today, from, shared)
    }

    /// The first day that a post changes against which there is no reason, found without entering it. It doesn't allocate.
    pub fn first_change(&self, post: &Post, today: Day, shared: &SharedRows) -> Day
        requires replay { IsReplay shared.now self.now }
        requires reach { MayReach today self.now }
        requires no_reason { reason_against (present_of today shared.now self.now.lists) post.now ≡ None }
        ensures { IsFirstWith shared.now.holidays today post.now (posted_of self.now) result }
    {
        self.posts.first_change(today, post, shared.calendar())
    }

    /// Prepares a post that is no opening, against which there is no reason, under a new key, with the first day that it changes; its
    /// days are days of requests. There is room for it, and the Book is there that it takes the account back to, where that day isn't after
    /// the one last reached: that of the eve, of the closing before the cycle in which the day lies, or, in the first cycle, none. The
    /// account reaches today for a Bill, whose row is read off the book of today, and for a Plan, a Notice or a Lower; for any other post
    /// its folding stays, and no step is taken. Where such a post changes a day up to the closing of a cycle whose statement is owed, all
    /// that is owed is made first: the steps of that are counted as put off, and both counts together keep the bound. The posts and the
    /// issued statements stay as they are; with the post, they are as every run leaves them. The day last reached is as before, or today. If memory runs out, all that was owed is made,
    /// or none is.
    pub fn prepare<L: Ledger, M: Ledger>(
        &mut self,
        alloc: Global,
        key: Name,
        post: &Post,
        today: Day,
        from: Day,
        shared: &SharedRows,
        steps: &mut Steps<L>,
        put_off: &mut Steps<M>,
    ) -> Result<Change, NoMemory>
        requires replay { IsReplay shared.now self.old }
        requires reach { MayReach today self.old }
        requires dated { is_dated_post post.now ≡ true }
        requires not_open { is_open post.now ≡ false }
        requires fresh { with_key key self.old.lists.posts ≡ None }
        requires no_reason { reason_against (present_of today shared.now self.old.lists) post.now ≡ None }
        requires first { IsFirstWith shared.now.holidays today post.now (posted_of self.old) from }
        requires sound { IsSound (given_of (accepted (present_of today shared.now self.old.lists) key post.now) shared.now) }
        ensures same { SameLists self.old self.new }
        ensures replay { IsReplay shared.now self.new }
        ensures reached { (self.new.folding.reached ≡ self.old.folding.reached) ⊎ (self.new.folding.reached ≡ today) }
        ensures prepared { IfOk result (λ c. IsPrepared shared.now c self.new) }
        ensures post { IfOk result (λ c. IsChangeOf key today post.now c) }
        ensures ready { OnOk result (IsReadyFor today post.now self.new) }
        ensures made { IfOk result (λ c. c.owes ≡ None) }
        ensures idle { FoldsIfNeeded post.now self.old.folding self.new.folding steps.old steps.new }
        ensures most { AreFewToPrepare today shared.now self.old.lists self.old.folding.reached key post.now steps.old steps.new }
        ensures both { AreFewToPrepare today shared.now self.old.lists self.old.folding.reached key post.now (steps.old + put_off.old) (steps.new + put_off.new) }
        ensures all { MakesAllOrNone self.old.late self.new.late }
        ensures once { MakesOnce result self.old.late self.new.late put_off.old put_off.new }
        ensures put_off { makes_before post.now ≡ false → put_off.new ≡ put_off.old }
    {
        self.reach_for(alloc, post, today, shared, steps)?;
        self.make_for(alloc, post, today, from, shared, put_off)?;
        self.changed(alloc, key, post, today, from, shared)
    }

    // What a post changes, for which today is reached where it asks for that, and which leaves each statement that is owed.
    fn changed(
        &mut self,
        alloc: Global,
        key: Name,
        post: &Post,
        today: Day,
        from: Day,
        shared: &SharedRows,
    ) -> Result<Change, NoMemory>
        requires replay { IsReplay shared.now self.old }
        requires reach { MayReach today self.old }
        requires ready { IsReadyFor today post.now self.old }
        requires leaves { LeavesOwed post.now from self.old }
        requires fresh { with_key key self.old.lists.posts ≡ None }
        requires no_reason { reason_against (present_of today shared.now self.old.lists) post.now ≡ None }
        requires first { IsFirstWith shared.now.holidays today post.now (posted_of self.old) from }
        requires sound { IsSound (given_of (accepted (present_of today shared.now self.old.lists) key post.now) shared.now) }
        ensures same { SameLists self.old self.new }
        ensures replay { IsReplay shared.now self.new }
        ensures folding { self.new.folding ≡ self.old.folding }
        ensures late { self.new.late ≡ self.old.late }
        ensures prepared { IfOk result (λ c. IsPrepared shared.now c self.new) }
        ensures post { IfOk result (λ c. IsChangeOf key today post.now c) }
        ensures made { IfOk result (λ c. c.owes ≡ None) }
    {
        let issued = self.issued_today(alloc, post, today, shared)?;
        self.make_room(alloc)?;
        let rewound = self.rewound(alloc, &key, post, today, from, shared)?;
        Ok(Change {
            key,
            post: *post,
            today,
            issued,
            owes: None,
            rewound,
        })
    }

    /// Takes a post that was prepared for this account, and answers its number. Where it changes a day up to the one last reached, the
    /// account is taken back to a day before that, and folded on when it is next asked. It doesn't allocate and can't fail.
    pub fn commit(&mut self, change: Change, shared: &SharedRows) -> u32
        requires prepared { IsPrepared shared.now change self.old }
        ensures committed { IsCommitted shared.now change self.old self.new }
        ensures replay { IsReplay shared.now self.new }
        ensures reach { MayReach change.today self.new }
        ensures near { IsNear shared.now self.old.lists self.new.lists self.old.folding.reached self.new.folding.reached }
        ensures room { self.new.has_room ≡ false }
        ensures number { result ≡ length self.old.lists.posts + 1 }
    {
        tell(
            &mut self.told,
            &self.posts,
            shared,
            &change.post,
            change.today,
        );
        push_issued(&mut self.issued, change.issued);
        push_owed(&mut self.owed, change.owes);
        self.has_room = false;
        // Nothing is folded here, so a hundred corrections and then a question fold once.
        take_if_any(
            &mut self.book,
            &mut self.past,
            &mut self.eve,
            change.rewound,
        );
        let pushed = self
            .posts
            .add(change.key, change.today, &change.post, shared.calendar());
        pushed.number
    }

    /// The accepted posts.
    pub fn posts(&self) -> &Posts
        ensures history { result.now.history ≡ self.now.lists.posts }
        ensures corrected { result.now.corrected ≡ self.now.corrected }
    {
        &self.posts
    }

    /// The statements that are made. They are all that were issued where none is owed.
    pub fn made(&self) -> &[Issued]
        ensures value { result.now ≡ self.now.late.made }
        ensures all { (shared : SharedRows) → IsReplay shared self.now → self.now.late.owed ≡ [] → result.now ≡ self.now.lists.issued }
        ensures today { (shared : SharedRows) (today : ℕ) → IsReplay shared self.now → MayReach today self.now → self.now.folding.reached ≡ today → result.now ≡ self.now.lists.issued }
    {
        &self.issued
    }

    /// What is recorded of the account up to the day last reached.
    pub fn recorded(&self) -> &[Entry]
        ensures { result.now ≡ self.now.folding.past.track.entries.items }
    {
        &self.past.track.entries
    }

    // The first day that a post changes, found without entering it. None comes where the account takes no more posts, or where the post
    // would be refused by what it names or gives.
    fn foretold(&self, post: &Post, today: Day, shared: &SharedRows) -> Option<Day>
        requires replay { IsReplay shared.now self.now }
        requires reach { MayReach today self.now }
        ensures some { IfSome result (IsForetold shared.now today post.now self.now) }
        ensures none { result ≡ None → MayCome today post.now self.now.lists.posts → ⊥ }
    {
        let count = self.posts.len();
        if count < POST_LIMIT && may_come(post, self.posts.anchor().opened, today, count) {
            Some(self.posts.first_change(today, post, shared.calendar()))
        } else {
            None
        }
    }

    /// How many of the first entries that are recorded stay if the account takes a post today, whatever it is then taken back to: those up
    /// to the last closing before the earlier of the first day that the post changes and the day last reached. They are 0 where the account
    /// takes no more posts, where the post is about a later one than there is, for a payment at a minute above 1,439, and for a payment
    /// that came in, or an Amend that lies, before the opening day or after today. It doesn't allocate.
    pub fn standing(&self, post: &Post, today: Day, shared: &SharedRows) -> usize
        requires replay { IsReplay shared.now self.now }
        requires reach { MayReach today self.now }
        ensures stay { AreStanding result today shared.now post.now self.now }
        ensures count { IsStandingCount result today shared.now post.now self.now.lists self.now.folding.reached }
    {
        match self.foretold(post, today, shared) {
            Some(from) => {
                let cycle = closed_before(&self.posts.anchor(), &self.book, from);
                entries_up_to(&self.past, cycle)
            }
            None => 0,
        }
    }

    /// What was folded, to be asked: the book at the end of today, which the account has reached.
    pub fn folded<'a>(&'a self, _today: Day, _shared: &SharedRows) -> Folded<'a>
        requires { IsToday _today _shared.now self.now }
        ensures book { result.book ≡ book_today (present_of _today _shared.now self.now.lists) }
        ensures since { result.since ≡ credit_since (book_today (present_of _today _shared.now self.now.lists)).entries (anchor_of self.now.lists.posts).opened _today }
        ensures segments { result.segments ≡ account_segments _shared.now.holidays self.now.lists.posts }
    {
        Folded::of(self.book.lent(), &self.past.track)
    }

    /// The statement of a cycle, as if it were issued on a day (12 CFR 1026.5(b)(2), .7(b)), by the book at the end of today, which the
    /// account has reached; none where the cycle, numbered up to 48,576, isn't closed. It costs what the entries behind its closing cost. It
    /// needs no statement that is owed: one of a cycle that is closed by then says of it what the book says.
    pub fn statement(
        &self,
        alloc: Global,
        cycle: Num,
        issue: Day,
        _today: Day,
        shared: &SharedRows,
    ) -> Result<Option<Statement>, NoMemory>
        requires today { IsToday _today shared.now self.now }
        requires small { cycle ≤ last_calendar_day }
        ensures { IfOk result (λ s. s ≡ option_map (statement_on (given_of self.now.lists shared.now) issue) (cycle_at cycle (book_today (present_of _today shared.now self.now.lists)).cycles)) }
    {
        let inputs = Inputs::new(&self.posts, &self.issued, shared);
        match closed_number(&self.past.track.cycles, cycle) {
            Some(number) => Ok(Some(statement_at(
                alloc, &inputs, &self.book, &self.past, number, issue,
            )?)),
            None => Ok(None),
        }
    }
}
