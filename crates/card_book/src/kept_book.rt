ghost use Rattle.std.specs.Prelude.{◌≡◌, ◌-◌, ◌≤◌, ◌==◌, ℕ, length, not, pos, slice_index_or};
ghost use Rattle.card_events.specs.Range.{last_calendar_day};
ghost use Rattle.card_model.specs.Entries.{credit_in};
ghost use Rattle.card_book.specs.Stands.{since_after};

use crate::copies::copy_state;
use crate::earlier::{renewed_state, state_at};
use crate::marks::{Accruing, push_accruing};
use crate::statement::cycle_in;
use card_closing::Accrual;
use card_daily::{Inputs, State, Track};
use card_dayend::{Cursor, next_span, opening_day, span_end, start};
use card_events::{Day, NoMemory, Steps};
use card_fees::Tally;
use card_rates::RateBook;
use card_segments::Segments;
use std::alloc::Global;
use std::marker::Model;
use std::sync::ledger::Ledger;

// Whether there is a credit balance.
fn has_credit(segments: &Segments) -> bool
    ensures { result ≡ not (credit_in segments.now.balances == 0) }
{
    let _five = segments.len();
    segments.balance(0) < 0
}

// Since when there is a credit balance, after a day that ends with one or without.
fn since_after(has_credit: bool, day: Day, since: Option<Day>) -> Option<Day>
    ensures { (credit : ℕ) → has_credit ≡ not (credit == 0) → result ≡ since_after credit day since }
{
    if has_credit {
        Some(since.unwrap_or(day))
    } else {
        None
    }
}

/// The book of an account at the end of a day: balances, rates and the rows of the open cycle, with the day since
/// which there is a credit balance and what was counted of payments by then. Its entries, closed cycles and fees lie in
/// a track beside it. Only `advance` moves it. Clauses see it as a summary, which with a track stands for the account's book.
#[derive(Drop)]
pub struct Book {
    state: State,
    tally: Tally,
    day: Option<Day>,
    credit_since: Option<Day>,
    whole: bool,
}

impl Model for Book {
    ghost use Rattle.card_book.specs.Stands.{IsRequestDay, Summary};

    ghost Value = { Summary };

    ghost view = { λ b. record { day = b.day; state = b.state; tally = b.tally; credit_since = b.credit_since; whole = b.whole } };

    ghost invariant = { λ b. IsRequestDay b.day };
}

impl Book {
    ghost use Rattle.std.specs.Prelude.{◌≡◌, ◌+◌, ◌-◌, ◌≤◌, ◌<◌, ◌++◌, ℕ, [], true, false, length, take, vec_capacity, IfOk, OnOk, OnErr, Some, None};
    ghost use Rattle.card_events.specs.Range.{last_request_day, last_calendar_day};
    ghost use Rattle.card_book.specs.Marks.{accruing_on};
    ghost use Rattle.card_book.specs.Renewed.{AwaitsPosts, HasNewPosts};
    ghost use Rattle.card_book.specs.Rewound.{AreFolded, GoesBack};
    ghost use Rattle.card_book.specs.Stands.{IsRequestDay, StandsFor, book_through, day_to_fold, days_through, since_after, steps_over};
    ghost use Rattle.card_daily.specs.Given.{Given, opened_in};
    ghost use Rattle.card_daily.specs.Stands.{AreBefore, Begins, IsBlank, KeepsRoom};
    ghost use Rattle.card_model.specs.Cycles.{Cycle};
    ghost use Rattle.card_daily.specs.declared.track.Track.{Track};
    ghost use Rattle.card_model.specs.Entries.{AreBalances, credit_in};
    ghost use Rattle.card_model.specs.Folds.{cycle_at};
    ghost use Rattle.card_rates.specs.Laws.{AreQuiet};
    ghost use Rattle.card_rates.specs.Segments.{account_segments};

    /// The book before the opening day. It goes with a track without entries, cycles and fees.
    pub fn start(alloc: Global, inputs: &Inputs) -> Result<Book, NoMemory>
        ensures stands { IfOk result (λ b. (t : Track) → IsBlank t → StandsFor inputs.now b t) }
        ensures day { IfOk result (λ b. b.day ≡ None) }
        ensures whole { IfOk result (λ b. b.whole ≡ true) }
    {
        Ok(Book {
            state: start(alloc, inputs)?,
            tally: Tally::start(opening_day(inputs)),
            day: None,
            credit_since: None,
            whole: true,
        })
    }

    /// Folds to the end of a day, one step a break day and one more where the last day is none: the days before a break day are
    /// folded with it, as one row a segment. The Book is whole, and with the track it stands for the book of these
    /// inputs; the day isn't before the last one folded or the opening day, and at most 2099-12-31. If memory runs out, the
    /// Book isn't whole and is only dropped, and the track begins with what it held. No list of the track loses room.
    pub fn advance<L: Ledger>(
        &mut self,
        alloc: Global,
        inputs: &Inputs,
        track: &mut Track,
        to: Day,
        steps: &mut Steps<L>,
    ) -> Result<(), NoMemory>
        requires whole { self.old.whole ≡ true }
        requires stands { StandsFor inputs.now self.old track.old }
        requires opened { opened_in inputs.now ≤ to }
        requires later { day_to_fold inputs.now self.old.day ≤ to + 1 }
        requires last { to ≤ last_request_day }
        ensures stands { OnOk result (StandsFor inputs.now self.new track.new) }
        ensures day { OnOk result (self.new.day ≡ Some to) }
        ensures whole { OnOk result (self.new.whole ≡ true) }
        ensures broken_off { OnErr result (self.new.whole ≡ false) }
        ensures steps { OnOk result (steps.new ≡ steps.old + steps_over inputs.now to (day_to_fold inputs.now self.old.day)) }
        ensures most_spans { steps.new ≤ steps.old + steps_over inputs.now to (day_to_fold inputs.now self.old.day) }
        ensures most_steps { steps.new ≤ steps.old + days_through inputs.now self.old.day to }
        ensures begins { Begins track.old track.new }
        ensures room { KeepsRoom track.old track.new }
    {
        let _opening = opening_day(inputs);
        // It is whole again only at the end, so one for which memory ran out on the way isn't.
        self.whole = false;
        let mut first = self.day_to_fold(inputs);
        let mut cursor = Cursor {
            posts: 0,
            issues: 0,
            cycle: None,
        };
        while first <= to {
            let end = span_end(inputs, &self.state.rates, first, to, &mut cursor);
            steps.tick();
            self.fold_span(alloc, inputs, track, first, end, cursor.posts)?;
            first = end.next();
        }
        self.whole = true;
        Ok(())
    }

    /// The same Book in memory of its own: it stands for what this one stands for.
    pub fn copy(&self, alloc: Global) -> Result<Book, NoMemory>
        ensures stands { IfOk result (λ b. (g : Given) (t : Track) → StandsFor g self.now t → StandsFor g b t) }
        ensures day { IfOk result (λ b. b.day ≡ self.now.day) }
        ensures credit_since { IfOk result (λ b. b.credit_since ≡ self.now.credit_since) }
        ensures whole { IfOk result (λ b. b.whole ≡ self.now.whole) }
    {
        Ok(Book {
            state: copy_state(&self.state, alloc)?,
            tally: self.tally,
            day: self.day,
            credit_since: self.credit_since,
            whole: self.whole,
        })
    }

    /// Adds what each deferred plan that is in its period on the last day folded has accrued (12 CFR 1026.55(b)(1), comment
    /// 55(b)(1)-3), as of the closing of a cycle. The Book and the track stand for the book of these inputs. After want of
    /// memory the list begins with what it held.
    pub fn mark(
        &self,
        _inputs: &Inputs,
        _track: &Track,
        cycle: u32,
        list: &mut Vec<Accruing>,
    ) -> Result<(), NoMemory>
        requires stands { StandsFor _inputs.now self.now _track.now }
        ensures items { OnOk result ((day : ℕ) → self.now.day ≡ Some day → list.new.items ≡ list.old.items ++ accruing_on cycle day self.now.state) }
        ensures begins { take (length list.old.items) list.new.items ≡ list.old.items }
        ensures capacity { vec_capacity list.old ≤ vec_capacity list.new }
    {
        let _count = self.state.segments.len();
        match self.day {
            Some(day) => push_accruing(list, &self.state, cycle, day),
            None => Ok(()),
        }
    }

    /// The Book at the end of the day on which a closed cycle closed, in memory of its own, by what was kept of that closing:
    /// since when there was a credit balance, and what deferred plans had accrued. Payments are counted anew from there on. It
    /// costs what the entries behind the closing cost. It goes with the track cut behind that cycle.
    pub fn rewound(
        &self,
        alloc: Global,
        track: &Track,
        number: u32,
        since: Option<Day>,
        accrued: &[Accruing],
    ) -> Result<Book, NoMemory>
        requires folded { AreFolded self.now track.now }
        requires first { 1 ≤ number }
        requires closed { number ≤ length track.now.cycles.items }
        ensures stands { IfOk result (GoesBack number self.now track.now since accrued.now) }
        ensures day { IfOk result (λ b. (c : Cycle) → cycle_at number track.now.cycles.items ≡ Some c → b.day ≡ Some c.closing) }
        ensures whole { IfOk result (λ b. b.whole ≡ true) }
    {
        let _count = self.state.segments.len();
        let cycle = cycle_in(track, number);
        let behind = &track.entries[cycle.entries..];
        // What was counted of payments isn't kept: a later post may change those payments.
        let uncounted = Tally::start(cycle.closing);
        Ok(Book {
            state: state_at(alloc, &self.state, behind, cycle.closing, number, accrued)?,
            tally: uncounted,
            day: Some(cycle.closing),
            credit_since: since,
            whole: true,
        })
    }

    /// The same Book, at a closing, over inputs whose posts are more: with their segments and rates, in memory of its own. Up to
    /// that day nothing that is folded has changed.
    pub fn renewed(&self, alloc: Global, inputs: &Inputs) -> Result<Book, NoMemory>
        requires posts { AwaitsPosts inputs.now self.now }
        ensures stands { IfOk result (λ b. (old : Given) (day : ℕ) (t : Track) → HasNewPosts old inputs.now day self.now t → StandsFor inputs.now b t) }
        ensures day { IfOk result (λ b. b.day ≡ self.now.day) }
        ensures whole { IfOk result (λ b. b.whole ≡ true) }
    {
        let _count = self.state.segments.len();
        match self.day {
            Some(day) => Ok(Book {
                state: renewed_state(alloc, inputs, &self.state, day.next())?,
                tally: self.tally,
                day: self.day,
                credit_since: self.credit_since,
                whole: true,
            }),
            None => unreachable!(),
        }
    }

    /// Whether no `advance` of it wanted memory.
    pub fn whole(&self) -> bool
        ensures { result ≡ self.now.whole }
    {
        self.whole
    }

    /// The last day folded, at most 2099-12-31; None where none was.
    pub fn day(&self) -> Option<Day>
        ensures value { result ≡ self.now.day }
        ensures last { IsRequestDay result }
    {
        self.day
    }

    /// The first day of the present run of days that end with a credit balance (12 CFR 1026.11(a)), None where there is no
    /// credit balance.
    pub fn credit_since(&self) -> Option<Day>
        ensures { result ≡ self.now.credit_since }
    {
        self.credit_since
    }

    /// The segments of the account's posts, with their balances.
    pub fn segments(&self) -> &Segments
        ensures kept { result.now ≡ self.now.state.segments }
        ensures segments { (g : Given) (t : Track) → StandsFor g self.now t → result.now.segments ≡ account_segments g.shared.holidays g.history }
        ensures balances { (g : Given) (t : Track) → StandsFor g self.now t → AreBalances (book_through g self.now.day).entries result.now.balances }
    {
        &self.state.segments
    }

    // The rates of the account's posts, with the penalties begun so far.
    pub(crate) fn rates(&self) -> &RateBook
        ensures { result.now ≡ self.now.state.rates }
    {
        &self.state.rates
    }

    // What each segment but Credit and Held has accrued, in order of number.
    pub(crate) fn accruals(&self) -> &[Accrual]
        ensures { result.now ≡ self.now.state.accruals.items }
    {
        &self.state.accruals
    }

    // The first day that isn't folded.
    fn day_to_fold(&self, inputs: &Inputs) -> Day
        requires { day_to_fold inputs.now self.now.day ≤ last_calendar_day }
        ensures { result ≡ day_to_fold inputs.now self.now.day }
    {
        match self.day {
            Some(day) => day.next(),
            None => opening_day(inputs),
        }
    }

    // Folds quiet days, from the first that isn't folded, and the day behind them, whose posts are looked for from a place on.
    fn fold_span(
        &mut self,
        alloc: Global,
        inputs: &Inputs,
        track: &mut Track,
        first: Day,
        end: Day,
        near: usize,
    ) -> Result<(), NoMemory>
        requires stands { StandsFor inputs.now self.old track.old }
        requires first { first ≡ day_to_fold inputs.now self.old.day }
        requires order { first ≤ end }
        requires last { end ≤ last_request_day }
        requires quiet { AreQuiet inputs.now.history inputs.now.issued inputs.now.shared self.old.state.rates.penalties first (end - first) }
        ensures stands { OnOk result (StandsFor inputs.now self.new track.new) }
        ensures day { OnOk result (self.new.day ≡ Some end) }
        ensures whole { self.new.whole ≡ self.old.whole }
        ensures begins { Begins track.old track.new }
        ensures room { KeepsRoom track.old track.new }
    {
        let _opening = opening_day(inputs);
        next_span(
            alloc,
            inputs,
            first,
            end,
            near,
            &mut self.state,
            track,
            &mut self.tally,
        )?;
        self.credit_since = since_after(has_credit(&self.state.segments), end, self.credit_since);
        self.day = Some(end);
        Ok(())
    }
}
