use crate::change::{next_row, penalties_change, segments_change};
use crate::make::{add_all, first_segments, penalty_rate_in, post_of};
use crate::past::penalties_at;
use crate::rate::{
    BegunRate, bears_its_own, capped_as, is_running, is_to_come, least_of, newest_of, no_rate,
    raised, rate_in_period, rate_with, vintage_rate,
};
use crate::segment::{RateCap, RatedSegment, accrues, after_end, is_plan_sort, number_of, sort_of};
use crate::settled::{has_deferred, settled_from};
use card_events::{Bp, Category, Day, NoMemory};
use card_model::Interval;
use card_posts::Posts;
use card_shared::IndexTable;
use std::alloc::Global;
use std::marker::Model;

/// What the rates of all segments on a day share: the index in basis points that the opening rates follow, where they do
/// (12 CFR 1026.55(b)(2)), and whether each segment bears its own rate, with that index, as nothing else changes it.
#[derive(Clone, Copy)]
pub struct DayIndex {
    pub(crate) index: Option<Bp>,
    pub(crate) settled: bool,
}

/// The rates of an account: the segments that its posts add, with the rates that they give them, the lowered rates, the
/// penalties that began, and whether the opening rates follow the index (12 CFR 1026.55(b)), which is no part of it. Segments
/// are numbered from 0 on; 0 is Credit and 1 is Held.
#[derive(Drop)]
pub struct RateBook {
    variable: bool,
    penalty_rate: Bp,
    segments: Vec<RatedSegment>,
    caps: Vec<RateCap>,
    penalties: Vec<Interval>,
    // the number of the day from which on nothing but the index changes a rate
    settled: Option<u32>,
    may_accrue: bool,
}

impl Model for RateBook {
    ghost use Rattle.card_rates.specs.RateBooks.{Rates};
    ghost use Rattle.card_rates.specs.Settled.{AreKept};

    ghost Value = { Rates };

    ghost view = { λ r. record { variable = r.variable; penalty = r.penalty_rate; segments = r.segments.items; lowerings = r.caps.items; penalties = r.penalties.items } };

    ghost invariant = { λ r. AreKept r.segments.items r.caps.items r.penalties.items r.settled r.may_accrue };
}

impl RateBook {
    ghost use Rattle.std.specs.Prelude.{◌≡◌, ℕ, true, false, ◌+◌, ◌<◌, ◌≤◌, ◌++◌, List, [], ◌∷◌, Some, None, length, slice_index_or, slice_set, option_copied, IfOk, OnOk, OnErr};
    ghost use Rattle.std.specs.List.{All, Contains, fold};
    ghost use Rattle.card_events.specs.History.{terms_of};
    ghost use Rattle.card_events.specs.SharedRows.{IndexRow};
    ghost use Rattle.card_model.specs.Accepted.{AreInRange, HasFewRates, HasFewSegments};
    ghost use Rattle.card_model.specs.Cuts.{penalties_at};
    ghost use Rattle.card_model.specs.Rates.{accrual_rate, bears_as, capped, index_for, own, starts, with_penalty};
    ghost use Rattle.card_model.specs.Segments.{SegmentTerms, newest, sort_of_category};
    ghost use Rattle.card_model.specs.declared.segment.Interval.{Interval};
    ghost use Rattle.card_rates.specs.Next.{IsNext, changes, index_changes};
    ghost use Rattle.card_rates.specs.RateBooks.{lasting_rate, rate_of, rates_of, with_penalties};
    ghost use Rattle.card_rates.specs.Settled.{BearOwnRates, IsOfDay, has_deferred};

    /// The rates of an account's posts, where no penalty has begun. The terms are in their ranges, no rate of a post is above
    /// 9,999 basis points, and there are at most 64 segments.
    pub fn of(alloc: Global, posts: &Posts) -> Result<RateBook, NoMemory>
        requires terms { AreInRange (terms_of posts.now.history) }
        requires rates { All HasFewRates posts.now.history }
        requires few { HasFewSegments posts.now.history }
        ensures { IfOk result (λ book. (holidays : List ℕ) → book ≡ rates_of holidays posts.now.history []) }
    {
        RateBook::raised_by(alloc, posts, Vec::new(alloc))
    }

    // the rates of an account's posts, with these penalties
    fn raised_by(
        alloc: Global,
        posts: &Posts,
        penalties: Vec<Interval>,
    ) -> Result<RateBook, NoMemory>
        requires terms { AreInRange (terms_of posts.now.history) }
        requires rates { All HasFewRates posts.now.history }
        requires few { HasFewSegments posts.now.history }
        ensures { IfOk result (λ book. (holidays : List ℕ) → book ≡ rates_of holidays posts.now.history penalties.items) }
    {
        let opening = &post_of(posts, 1).post;
        let mut segments = first_segments(alloc, opening)?;
        let mut caps = Vec::new(alloc);
        add_all(&mut segments, &mut caps, posts)?;
        let settled = settled_from(&segments, &caps, &penalties);
        let may_accrue = has_deferred(&segments);
        Ok(RateBook {
            variable: opening.opens_variable(),
            penalty_rate: penalty_rate_in(opening),
            segments,
            caps,
            penalties,
            settled,
            may_accrue,
        })
    }

    /// A penalty begins on a day (12 CFR 1026.55(b)(4)). If memory runs out, the rates are as they were.
    pub fn begin_penalty(&mut self, begins: Day) -> Result<(), NoMemory>
        ensures ok { OnOk result (self.new ≡ with_penalties (self.old.penalties ++ record { begins = begins; last = None } ∷ []) self.old) }
        ensures err { OnErr result (self.new ≡ self.old) }
    {
        self.penalties.push(Interval { begins, last: None })?;
        self.settled = None;
        Ok(())
    }

    /// The penalty at a place in the order of their beginnings, counted from 0, has this day as its last. The place is below
    /// the number of penalties begun.
    pub fn end_penalty(&mut self, which: usize, last: Day)
        requires begun { which < length self.old.penalties }
        ensures { (i : Interval) → self.new ≡ with_penalties (slice_set self.old.penalties which (record { begins = (slice_index_or self.old.penalties which i).begins; last = Some last })) self.old }
    {
        self.penalties[which].last = Some(last);
    }

    /// The segments except Credit and Held, by number. It doesn't allocate.
    pub fn segments(&self) -> &[RatedSegment]
        ensures { result.now ≡ self.now.segments }
    {
        &self.segments
    }

    /// The rate of penalties by the account's terms, in basis points (12 CFR 1026.55(b)(4)). It doesn't allocate.
    pub fn penalty_rate(&self) -> Bp
        ensures { result ≡ self.now.penalty }
    {
        self.penalty_rate
    }

    /// The penalties that began, in the order of their beginnings. It doesn't allocate.
    pub fn penalties(&self) -> &[Interval]
        ensures { result.now ≡ self.now.penalties }
    {
        &self.penalties
    }

    /// The same rates in memory of their own.
    pub fn copy(&self, alloc: Global) -> Result<RateBook, NoMemory>
        ensures { IfOk result (λ book. book ≡ self.now) }
    {
        Ok(RateBook {
            variable: self.variable,
            penalty_rate: self.penalty_rate,
            segments: Vec::from_slice(alloc, &self.segments)?,
            caps: Vec::from_slice(alloc, &self.caps)?,
            penalties: Vec::from_slice(alloc, &self.penalties)?,
            settled: self.settled,
            may_accrue: self.may_accrue,
        })
    }

    /// The same rates in memory of their own, with the penalties as they stood at the end of a day: without those of later
    /// posts, which begin 45 days after them, and without the ends that came later (12 CFR 1026.55(b)(4)).
    pub fn as_of(&self, alloc: Global, day: Day) -> Result<RateBook, NoMemory>
        ensures { IfOk result (λ book. book ≡ with_penalties (penalties_at day self.now.penalties) self.now) }
    {
        Ok(RateBook {
            variable: self.variable,
            penalty_rate: self.penalty_rate,
            segments: Vec::from_slice(alloc, &self.segments)?,
            caps: Vec::from_slice(alloc, &self.caps)?,
            penalties: penalties_at(alloc, &self.penalties, day)?,
            settled: self.settled,
            may_accrue: self.may_accrue,
        })
    }

    /// The rates of an account's posts, with the penalties begun so far. What `of` asks of the posts is asked here.
    pub fn renewed(&self, alloc: Global, posts: &Posts) -> Result<RateBook, NoMemory>
        requires terms { AreInRange (terms_of posts.now.history) }
        requires rates { All HasFewRates posts.now.history }
        requires few { HasFewSegments posts.now.history }
        ensures { IfOk result (λ book. (holidays : List ℕ) → book ≡ rates_of holidays posts.now.history self.now.penalties) }
    {
        RateBook::raised_by(alloc, posts, Vec::from_slice(alloc, &self.penalties)?)
    }

    /// The rate of a segment on a day under this index, in basis points (12 CFR 1026.55(b)(1) to (b)(4)). It doesn't allocate.
    /// Credit and Held bear 0. The segment is there.
    pub fn rate_on(&self, index: &IndexTable, segment: u8, day: Day) -> Bp
        requires there { segment < length self.now.segments + 2 }
        ensures rate { (g : SegmentTerms) → Contains self.now.segments g → g.id ≡ segment → result ≡ rate_of index.now self.now day g }
        ensures unbilled { segment < 2 → result ≡ 0 }
    {
        self.rate_by(&self.of_day(index, day), index, segment, day)
    }

    /// What the rates of all segments on a day share, under this index. It doesn't allocate.
    pub fn of_day(&self, index: &IndexTable, day: Day) -> DayIndex
        ensures { IsOfDay index.now self.now day result }
    {
        DayIndex {
            index: self.index_of(index, day),
            settled: self.is_settled(day),
        }
    }

    /// The same rate as `rate_on`, where what the rates of the day share was read before (`of_day`). It doesn't allocate. The
    /// segment is there.
    pub fn rate_by(&self, of_day: &DayIndex, index: &IndexTable, segment: u8, day: Day) -> Bp
        requires read { IsOfDay index.now self.now day of_day.now }
        requires there { segment < length self.now.segments + 2 }
        ensures rate { (g : SegmentTerms) → Contains self.now.segments g → g.id ≡ segment → result ≡ rate_of index.now self.now day g }
        ensures unbilled { segment < 2 → result ≡ 0 }
    {
        match self.segment_with(segment) {
            Some(g) => self.rate_of_its(of_day, index, g, day),
            None => no_rate(),
        }
    }

    /// Whether there is a deferred plan, so that interest may accrue (12 CFR 1026.55(b)(1)). It doesn't allocate.
    pub fn may_accrue(&self) -> bool
        ensures { result ≡ has_deferred self.now.segments }
    {
        self.may_accrue
    }

    /// The rate in basis points at which a deferred plan accrues interest on a day of its period, and None for any other
    /// segment and day. It doesn't allocate. The segment is there.
    pub fn accrual_on(&self, segment: u8, day: Day) -> Option<Bp>
        requires there { segment < length self.now.segments + 2 }
        ensures rate { (g : SegmentTerms) → Contains self.now.segments g → g.id ≡ segment → result ≡ accrual_rate day g }
        ensures unbilled { segment < 2 → result ≡ None }
    {
        match self.segment_with(segment) {
            Some(g) => accrues(g, day),
            None => None,
        }
    }

    /// The number of the newest vintage of a category that has begun by a day: where a charge of that day goes.
    pub fn vintage(&self, category: Category, day: Day) -> u8
        ensures { result ≡ newest (sort_of_category category) day self.now.segments }
    {
        newest_of(&self.segments, sort_of(category), day)
    }

    /// The first day from one on, and before an end, on which a plan ends, a vintage, its rate or a penalty begins, or that
    /// comes after a penalty's last (12 CFR 1026.55(b)); the end where there is none. Over the days before it no rate changes
    /// but on the day after a plan's end or, where the opening rates follow the index, on that of an index row (`next_index`). It
    /// doesn't allocate.
    pub fn next_change(&self, first: Day, end: Day) -> Day
        requires { first ≤ end }
        ensures { IsNext (changes self.now) first end result }
    {
        if self.changes_no_more(first) {
            return end;
        }
        let next = segments_change(&self.segments, first, end);
        penalties_change(&self.penalties, first, next)
    }

    /// The first day from one on, before an end and after the opening day, that has an index row, where the opening rates follow
    /// the index; the end where there is none (12 CFR 1026.55(b)(2)). It doesn't allocate.
    pub fn next_index(&self, index: &IndexTable, opened: Day, first: Day, end: Day) -> Day
        requires { first ≤ end }
        ensures { IsNext (index_changes opened index.now self.now) first end result }
    {
        if !self.variable {
            return end;
        }
        next_row(index, opened, first, end)
    }

    // the segment with a number, other than Credit and Held
    fn segment_with(&self, number: u8) -> Option<&RatedSegment>
        requires there { number < length self.now.segments + 2 }
        ensures some { (g : SegmentTerms) → Contains self.now.segments g → g.id ≡ number → option_copied result ≡ Some g }
        ensures none { number < 2 → option_copied result ≡ None }
    {
        let segments = &self.segments;
        if number < 2 {
            return None;
        }
        Some(&segments[number as usize - 2])
    }

    // the index that the opening rates follow on a day, if they do; a day before its first row has 0
    fn index_of(&self, index: &IndexTable, day: Day) -> Option<Bp>
        ensures { result ≡ index_for self.now.variable index.now day }
    {
        if !self.variable {
            return None;
        }
        // 0 before the first row, so no call has to require one; no run meets such a day.
        match index.on(day) {
            Some(rate) => Some(rate),
            None => Some(no_rate()),
        }
    }

    // the own rate of a vintage, or of a plan past its end
    fn own_of(&self, index: &IndexTable, g: &RatedSegment, day: Day) -> BegunRate
        ensures { result ≡ own (index_for self.now.variable index.now day) self.now.segments day g.now }
    {
        if is_plan_sort(g.sort) {
            BegunRate {
                rate: g.after,
                from: after_end(&g.ends),
            }
        } else {
            let index = self.index_of(index, day);
            vintage_rate(&self.segments, g.sort, g.id, day, &index)
        }
    }

    // the rate of a segment that is no plan in its period
    fn lasting(&self, index: &IndexTable, g: &RatedSegment, day: Day) -> Bp
        ensures { result ≡ lasting_rate index.now self.now day g.now }
    {
        let sort = capped_as(g.sort);
        let base = least_of(&self.caps, sort, day, self.own_of(index, g, day));
        raised(
            &self.penalties,
            &self.caps,
            self.penalty_rate,
            sort,
            day,
            base,
        )
    }

    // whether each segment bears its own rate on a day, with the index where it follows that
    fn is_settled(&self, day: Day) -> bool
        ensures { result ≡ true → BearOwnRates self.now day }
    {
        match self.settled {
            Some(from) => from <= number_of(day),
            None => false,
        }
    }

    // whether no rate changes on a day or behind it but by the index
    fn changes_no_more(&self, day: Day) -> bool
        ensures { (x : ℕ) → result ≡ true → day ≤ x → changes self.now x ≡ false }
    {
        match self.settled {
            Some(from) => from < number_of(day),
            None => false,
        }
    }

    // whether a vintage bears its own rate, with no index, no Lower and no penalty to change it
    fn bears_unchanged(&self, g: &RatedSegment, day: Day) -> bool
        ensures { (rows : List IndexRow) → result ≡ true → Contains self.now.segments g.now → rate_of rows self.now day g.now ≡ g.now.rate }
    {
        if self.variable {
            return false;
        }
        if !self.caps.is_empty() || !self.penalties.is_empty() {
            return false;
        }
        bears_its_own(g, day)
    }

    // the rate of one of its segments, which most often is its own
    fn rate_of_its(&self, of_day: &DayIndex, index: &IndexTable, g: &RatedSegment, day: Day) -> Bp
        requires read { IsOfDay index.now self.now day of_day.now }
        ensures { Contains self.now.segments g.now → result ≡ rate_of index.now self.now day g.now }
    {
        if of_day.settled {
            rate_with(g, &of_day.index)
        } else if self.bears_unchanged(g, day) {
            g.rate
        } else {
            self.rate_for(index, g, day)
        }
    }

    /// The rate of one of its segments on a day under this index, in basis points (12 CFR 1026.55(b)(1) to (b)(4)). It takes no
    /// memory.
    #[tactic(auto, unfolding(card_model::specs::Rates::rate_on))]
    pub fn rate_for(&self, index: &IndexTable, g: &RatedSegment, day: Day) -> Bp
        ensures { result ≡ rate_of index.now self.now day g.now }
    {
        if is_to_come(g, day) {
            no_rate()
        } else if is_running(g, day) {
            rate_in_period(g)
        } else {
            self.lasting(index, g, day)
        }
    }
}
