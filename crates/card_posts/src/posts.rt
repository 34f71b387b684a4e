use crate::correction_table::CorrectionTable;
use crate::draft::{Draft, beside_if_corrected, put_back, take_last};
use crate::effect::{Effect, no_cents};
use crate::enter::enter;
use crate::foretold::first_with;
use crate::make::{copy_history, make_room_in, one, opening, waits_of};
use crate::order::{slot, slot_with};
use crate::rated::rated_with;
use card_events::{Anchor, Calendar, Day, Kept, Name, NoMemory, Post, Slot, numbered};
use card_keys::{KeyTable, enter_key, find, rebuilt};
use card_waits::WaitTable;
use std::alloc::Global;
use std::marker::Model;

// How many buckets the keys of a new account lie in.
const FIRST_BUCKETS: usize = 4;

// For how many posts more there is room at least where a list grows that holds each.
const LEAST_GROWTH: usize = 4;

/// The accepted posts of an account, in order of acceptance, at most 200,000, of which the first opened it; and the
/// corrected list, which says what counts of each post now.
#[derive(Drop)]
pub struct Posts {
    history: Vec<Kept>,
    index: KeyTable,
    waits: WaitTable,
    corrections: CorrectionTable,
    effects: Vec<Effect>,
    order: Vec<Slot>,
    anchor: Anchor,
    has_room: bool,
    // no post behind so many sets rates
    rated: u32,
}

impl Model for Posts {
    ghost use Rattle.card_posts.specs.Effect.{corrected_with};
    ghost use Rattle.card_posts.specs.Posted.{Posted};
    ghost use Rattle.card_posts.specs.Stored.{AreStored};

    ghost Value = { Posted };

    ghost view = { λ p. record { history = p.history.items; corrected = corrected_with 1 5 p.history.items p.effects.items; has_room = p.has_room } };

    ghost invariant = { λ p. AreStored p.anchor p.history p.index p.waits p.corrections p.effects p.order p.has_room p.rated };
}

/// What became of a post: its number, and the earliest day on which the corrected list differs from what it was.
#[derive(Clone, Copy)]
pub struct Pushed {
    pub number: u32,
    pub from: Day,
}

impl Posts {
    ghost use Rattle.std.specs.Prelude.{◌≡◌, ℕ, ◌+◌, ◌<◌, ◌≤◌, ◌++◌, List, [], ◌∷◌, true, false, drop, length, IsOk, IfOk, OnOk, OnErr, None, option_copied};
    ghost use Rattle.card_events.specs.Limits.{post_limit};
    ghost use Rattle.card_events.specs.Range.{last_request_day};
    ghost use Rattle.card_events.specs.Billing.{IsCloseDay};
    ghost use Rattle.card_events.specs.History.{anchor_of, at_number, is_open, terms_in};
    ghost use Rattle.card_events.specs.Keys.{with_key};
    ghost use Rattle.card_events.specs.declared.kept.Kept.{Kept};
    ghost use Rattle.card_waits.specs.Waits.{first_by, if_any, waiting};
    ghost use Rattle.card_posts.specs.Change.{IsFirstChange};
    ghost use Rattle.card_posts.specs.Corrections.{corrects};
    ghost use Rattle.card_posts.specs.Draft.{AwaitsReturn, IsDraft, IsFirstWith};
    ghost use Rattle.card_posts.specs.Posted.{Posted, AreBounded, AreNumbered, IsReceived, SetNoRates, StandsFor, folding_order, slot_with, target_of};
    ghost use Rattle.card_posts.specs.Stored.{AreTimely};

    /// The post that opens an account, which has number 1. Its terms close cycles on day 1 to 28 of a month. The
    /// corrected list is that of the post under any calendar.
    pub fn start(alloc: Global, key: &Name, accepted: Day, post: &Post) -> Result<Posts, NoMemory>
        requires opens { is_open post.now ≡ true }
        requires close_day { IsCloseDay (terms_in post.now).close }
        requires dated { accepted ≤ last_request_day }
        ensures history { IfOk result (λ posts. posts.history ≡ record { number = 1; key = key.now; accepted = accepted; post = post.now } ∷ []) }
        ensures stands { IfOk result (λ posts. (holidays : List ℕ) → StandsFor holidays posts) }
        ensures room { IfOk result (λ posts. posts.has_room ≡ false) }
    {
        let anchor = opening(post);
        let kept = Kept {
            number: 1,
            key: key.copy(),
            accepted,
            post: *post,
        };
        let effect = Effect {
            day: anchor.opened,
            cents: no_cents(),
        };
        let history = one(alloc, kept)?;
        Ok(Posts {
            index: rebuilt(alloc, &history, FIRST_BUCKETS, 0)?,
            waits: waits_of(alloc, post)?,
            corrections: CorrectionTable::of_one(alloc)?,
            order: one(alloc, slot(1, &effect))?,
            effects: one(alloc, effect)?,
            history,
            anchor,
            has_room: false,
            rated: 1,
        })
    }

    /// How many there are. They are numbered from 1 on.
    pub fn len(&self) -> u32
        ensures value { result ≡ length self.now.history }
        ensures bound { result ≤ post_limit }
        ensures numbered { AreNumbered 1 self.now.history }
    {
        self.history.len() as u32
    }

    /// The post with this number. None comes exactly where no post has it.
    pub fn get(&self, number: u32) -> Option<&Kept>
        ensures { option_copied result ≡ at_number number self.now.history }
    {
        numbered(&self.history, number as u64)
    }

    /// The slot of the post with this number: its effective day, and its corrected cents, 0 for kinds without cents. None comes
    /// exactly where no post has the number. It doesn't allocate.
    pub fn slot(&self, number: u64) -> Option<Slot>
        ensures { result ≡ slot_with number self.now.corrected }
    {
        slot_with(&self.effects, number)
    }

    /// So many posts behind which none sets rates: no Plan, no Notice and no Lower. It doesn't allocate.
    pub fn rated(&self) -> u32
        ensures bound { result ≤ length self.now.history }
        ensures none { SetNoRates (drop result self.now.history) }
    {
        self.rated.min(self.history.len() as u32)
    }

    /// The number of the post with this key, the first where several have it. None comes exactly where no post has it.
    pub fn with_key(&self, key: &Name) -> Option<u32>
        ensures { result ≡ with_key key.now self.now.history }
    {
        find(&self.history, &self.index, key)
    }

    /// The number of the first post that waits for the one with this number: a Return for a payment, a Dispute for a charge, a
    /// Resolve for a Dispute. None comes exactly where none does.
    pub fn by(&self, number: u32) -> Option<u32>
        requires some { 0 < number }
        ensures { result ≡ if_any (first_by number self.now.history) }
    {
        self.waits.by(number)
    }

    /// The numbers of the Returns, Disputes and Resolves, ascending.
    pub fn waiting(&self) -> &[u32]
        ensures { result.now ≡ waiting self.now.history }
    {
        self.waits.waiting()
    }

    /// The corrected list as it is folded: by effective day, then by number. There are at most 200,000 slots. Each has 0 to
    /// 999,999,999,999 cents, and 0 for kinds without cents.
    pub fn in_order(&self) -> &[Slot]
        ensures order { result.now ≡ folding_order self.now.corrected }
        ensures bounded { AreBounded result.now }
    {
        &self.order
    }

    /// Makes room for one more post. Where there is room already it can't fail. If memory runs out, the posts are as they
    /// were.
    pub fn make_room(&mut self, alloc: Global) -> Result<(), NoMemory>
        ensures ok { OnOk result (self.new ≡ record self.old { has_room = true }) }
        ensures roomy { self.old.has_room ≡ true → IsOk result }
        ensures err { OnErr result (self.new ≡ self.old) }
    {
        if self.has_room {
            return Ok(());
        }
        make_room_in(&mut self.history, LEAST_GROWTH)?;
        card_keys::make_room(alloc, &self.history, &mut self.index)?;
        self.waits.make_room()?;
        self.corrections.make_room()?;
        make_room_in(&mut self.effects, LEAST_GROWTH)?;
        make_room_in(&mut self.order, LEAST_GROWTH)?;
        self.has_room = true;
        Ok(())
    }

    /// One more post, with room made for it. It doesn't allocate and can't fail. The corrected list must be that of the
    /// posts under this calendar, and is so afterwards. The post is about no later one. A payment came in by the day of
    /// acceptance, and an Amend gives no later day.
    pub fn add(&mut self, key: Name, accepted: Day, post: &Post, calendar: &Calendar) -> Pushed
        requires room { self.old.has_room ≡ true }
        requires few { length self.old.history < post_limit }
        requires stands { StandsFor calendar.now self.old }
        requires target { target_of post.now ≤ length self.old.history }
        requires dated { accepted ≤ last_request_day }
        requires received { IsReceived (anchor_of self.old.history).opened accepted post.now }
        ensures history { self.new.history ≡ self.old.history ++ record { number = length self.old.history + 1; key = key; accepted = accepted; post = post.now } ∷ [] }
        ensures stands { StandsFor calendar.now self.new }
        ensures room { self.new.has_room ≡ false }
        ensures number { result.number ≡ length self.old.history + 1 }
        ensures from { IsFirstChange result.from self.old.corrected self.new.corrected }
    {
        let number = self.len() + 1;
        enter_key(&self.history, &mut self.index, &key);
        let kept = Kept {
            number,
            key,
            accepted,
            post: *post,
        };
        let from = enter(
            &mut self.history,
            &mut self.corrections,
            &mut self.effects,
            &mut self.order,
            &self.anchor,
            calendar,
            kept,
            self.waits.waiting(),
        );
        self.waits.enter(post);
        self.has_room = false;
        self.rated = rated_with(self.rated, number, post);
        Pushed { number, from }
    }

    /// The first day on which the corrected list differs once this post stands behind the others, accepted on this day under any
    /// key; found without entering it, and without allocating. The corrected list must be that of the posts under this calendar. The
    /// post is about no later one. A payment came in by the day of acceptance, and an Amend gives no later day.
    pub fn first_change(&self, accepted: Day, post: &Post, calendar: &Calendar) -> Day
        requires few { length self.now.history < post_limit }
        requires stands { StandsFor calendar.now self.now }
        requires target { target_of post.now ≤ length self.now.history }
        requires dated { accepted ≤ last_request_day }
        requires received { IsReceived (anchor_of self.now.history).opened accepted post.now }
        ensures { IsFirstWith calendar.now accepted post.now self.now result }
    {
        first_with(
            &self.history,
            &self.corrections,
            &self.effects,
            accepted,
            post,
            &self.anchor,
            calendar,
        )
    }

    /// Enters a post behind the others for a while, with room made for it: as `add` does, but so that `withdraw` takes it back.
    /// Its key is new. A post that corrects others takes memory for what counted before it; another one takes none. After want
    /// of memory the posts are as they were.
    pub fn draft(
        &mut self,
        alloc: Global,
        key: Name,
        accepted: Day,
        post: &Post,
        calendar: &Calendar,
    ) -> Result<Draft, NoMemory>
        requires room { self.old.has_room ≡ true }
        requires few { length self.old.history < post_limit }
        requires stands { StandsFor calendar.now self.old }
        requires fresh { with_key key self.old.history ≡ None }
        requires target { target_of post.now ≤ length self.old.history }
        requires dated { accepted ≤ last_request_day }
        requires received { IsReceived (anchor_of self.old.history).opened accepted post.now }
        ensures draft { IfOk result (IsDraft (record { number = length self.old.history + 1; key = key; accepted = accepted; post = post.now }) self.old self.new) }
        ensures stands { OnOk result (StandsFor calendar.now self.new) }
        ensures alone { corrects post.now ≡ false → IsOk result }
        ensures err { OnErr result (self.new ≡ self.old) }
    {
        let kept = beside_if_corrected(alloc, post, &self.corrections, &self.effects, &self.order)?;
        let pushed = self.add(key, accepted, post, calendar);
        Ok(Draft {
            from: pushed.from,
            before: kept,
        })
    }

    /// Takes the last post back, which was entered for a while. The posts are as they were before it, with room for one more.
    /// It doesn't allocate and can't fail.
    pub fn withdraw(&mut self, draft: Draft)
        requires draft { AwaitsReturn self.old draft }
        ensures { (kept : Kept) (before : Posted) → IsDraft kept before self.old draft → self.new ≡ before }
    {
        put_back(
            draft.before,
            &mut self.corrections,
            &mut self.effects,
            &mut self.order,
        );
        take_last(&mut self.history, &mut self.index, &mut self.waits);
        self.has_room = true;
    }

    /// One more post: `make_room` and `add`. Where there is room already it can't fail. If memory runs out, the posts are
    /// as they were.
    pub fn push(
        &mut self,
        alloc: Global,
        key: Name,
        accepted: Day,
        post: &Post,
        calendar: &Calendar,
    ) -> Result<Pushed, NoMemory>
        requires few { length self.old.history < post_limit }
        requires stands { StandsFor calendar.now self.old }
        requires target { target_of post.now ≤ length self.old.history }
        requires dated { accepted ≤ last_request_day }
        requires received { IsReceived (anchor_of self.old.history).opened accepted post.now }
        ensures history { OnOk result (self.new.history ≡ self.old.history ++ record { number = length self.old.history + 1; key = key; accepted = accepted; post = post.now } ∷ []) }
        ensures stands { OnOk result (StandsFor calendar.now self.new) }
        ensures room { OnOk result (self.new.has_room ≡ false) }
        ensures number { IfOk result (λ pushed. pushed.number ≡ length self.old.history + 1) }
        ensures from { IfOk result (λ pushed. IsFirstChange pushed.from self.old.corrected self.new.corrected) }
        ensures roomy { self.old.has_room ≡ true → IsOk result }
        ensures err { OnErr result (self.new ≡ self.old) }
    {
        self.make_room(alloc)?;
        Ok(self.add(key, accepted, post, calendar))
    }

    /// The same posts in memory of their own, without room for one more.
    pub fn copy(&self, alloc: Global) -> Result<Posts, NoMemory>
        ensures { IfOk result (λ posts. posts ≡ record self.now { has_room = false }) }
    {
        Ok(Posts {
            history: copy_history(alloc, &self.history)?,
            index: self.index.copy(alloc)?,
            waits: self.waits.copy(alloc)?,
            corrections: self.corrections.copy(alloc)?,
            effects: Vec::from_slice(alloc, &self.effects)?,
            order: Vec::from_slice(alloc, &self.order)?,
            anchor: self.anchor,
            has_room: false,
            rated: self.rated,
        })
    }

    /// What fixes the cycles of the account: its opening day, and the day of the month on which they close, 1 to 28.
    pub fn anchor(&self) -> Anchor
        ensures value { result ≡ anchor_of self.now.history }
        ensures close_day { IsCloseDay result.close_day }
    {
        self.anchor
    }

    // The opening day, with what every history keeps.
    pub(crate) fn opened(&self) -> Day
        ensures value { result ≡ (anchor_of self.now.history).opened }
        ensures timely { AreTimely (anchor_of self.now.history).opened self.now.history }
    {
        self.anchor.opened
    }
}
