// What is counted of payments and credits, kept from one question to the next.
ghost use Rattle.std.specs.Prelude.{◌≡◌, ℕ, ◌≤◌, IfSome, List, drop, length, min, nat_lt, true, unsigned_abs};
ghost use Rattle.std.specs.List.{sum_by};
ghost use Rattle.card_events.specs.History.{CorrectedPost, at_number};
ghost use Rattle.card_fees.specs.declared.returning.Until.TheVariants as variants;
ghost use Rattle.card_fees.specs.Counting.{is_credit_at, is_payment_at, reaches};
ghost use Rattle.card_fees.specs.Tallied.{IsSumOf, credited_since, is_return_at, not_before, paid_since, return_read};
ghost use Rattle.card_posts.specs.Order.{IsAscending};
ghost use Rattle.card_posts.specs.Posted.{AreBounded};

use crate::counting::counted_in_front;
use crate::returning::{Until, is_returned, reaches};
use card_events::{Day, Post, Slot};
use card_posts::Posts;

/// What was paid from one day to another, in cents: payments, without those returned by then, and merchants' credits.
#[derive(Clone, Copy)]
pub struct Sum {
    pub from: Day,
    pub to: Day,
    pub paid: u64,
    pub credited: u64,
}

/// What was paid so far, in cents: the payments with effective days from one on that are folded before the post with a day and a
/// number, without those that a Return before it takes back, and the merchants' credits. Beside it the last two sums that were held
/// of whole days. The place is where the next slot is looked for, for speed alone.
#[derive(Clone, Copy)]
pub struct Tally {
    pub from: Day,
    pub day: Day,
    pub number: u32,
    pub near: usize,
    pub paid: u64,
    pub credited: u64,
    pub due: Option<Sum>,
    pub before: Option<Sum>,
}

// What some slots bring, how many of them are Returns, and how many were read.
#[derive(Clone, Copy)]
struct Brought {
    paid: u64,
    credited: u64,
    returns: u64,
    read: usize,
}

// Which of the kinds that are counted a post is.
#[derive(Clone, Copy)]
struct Kinds {
    is_payment: bool,
    is_credit: bool,
    is_return: bool,
}

// that of the post with a number
fn kinds_of(posts: &Posts, number: u32) -> Kinds
    ensures payment { result.is_payment ≡ is_payment_at (at_number number posts.now.history) }
    ensures credit { result.is_credit ≡ is_credit_at (at_number number posts.now.history) }
    ensures returns { result.is_return ≡ is_return_at (at_number number posts.now.history) }
{
    match posts.get(number) {
        Some(kept) => Kinds {
            is_payment: matches!(kept.post, Post::Payment { .. }),
            is_credit: matches!(kept.post, Post::Credit { .. }),
            is_return: matches!(kept.post, Post::Return { .. }),
        },
        None => Kinds {
            is_payment: false,
            is_credit: false,
            is_return: false,
        },
    }
}

// what a slot that is read counts from a day on
fn paid_since(posts: &Posts, until: &Until, from: Day, slot: &Slot, is_payment: bool) -> u64
    requires read { reaches until.now slot.now.day slot.now.number ≡ true }
    requires payment { is_payment ≡ is_payment_at (at_number slot.now.number posts.now.history) }
    ensures value { result ≡ paid_since until.now posts.now.history posts.now.corrected from slot.now }
    ensures bound { result ≤ unsigned_abs slot.now.cents }
{
    if !is_payment || slot.day < from || is_returned(posts, slot.number, until) {
        0
    } else {
        slot.cents.unsigned_abs()
    }
}

// the cents of a credit from a day on, where it is read
fn credited_since(_posts: &Posts, _until: &Until, from: Day, slot: &Slot, is_credit: bool) -> u64
    requires read { reaches _until.now slot.now.day slot.now.number ≡ true }
    requires credit { is_credit ≡ is_credit_at (at_number slot.now.number _posts.now.history) }
    ensures value { result ≡ credited_since _until.now _posts.now.history from slot.now }
    ensures bound { result ≤ unsigned_abs slot.now.cents }
{
    if !is_credit || slot.day < from {
        0
    } else {
        slot.cents.unsigned_abs()
    }
}

// 1 for a Return that is read
fn return_read(_posts: &Posts, _until: &Until, _slot: &Slot, is_return: bool) -> u64
    requires read { reaches _until.now _slot.now.day _slot.now.number ≡ true }
    requires returns { is_return ≡ is_return_at (at_number _slot.now.number _posts.now.history) }
    ensures value { result ≡ return_read _until.now _posts.now.history _slot.now }
    ensures bound { result ≤ 1 }
{
    is_return as u64
}

// What the slots that are read bring from a day on. It looks at no slot behind the first that isn't read.
fn bring(posts: &Posts, slots: &[Slot], from: Day, until: &Until) -> Brought
    requires order { IsAscending slots.now }
    requires bounded { AreBounded slots.now }
    ensures paid { result.paid ≡ sum_by (paid_since until.now posts.now.history posts.now.corrected from) slots.now }
    ensures credited { result.credited ≡ sum_by (credited_since until.now posts.now.history from) slots.now }
    ensures returns { result.returns ≡ sum_by (return_read until.now posts.now.history) slots.now }
    ensures read { result.read ≤ length slots.now }
{
    let mut brought = Brought {
        paid: 0,
        credited: 0,
        returns: 0,
        read: 0,
    };
    for slot in slots {
        if !reaches(until, slot) {
            return brought;
        }
        let kinds = kinds_of(posts, slot.number);
        brought.paid += paid_since(posts, until, from, slot, kinds.is_payment);
        brought.credited += credited_since(posts, until, from, slot, kinds.is_credit);
        brought.returns += return_read(posts, until, slot, kinds.is_return);
        brought.read += 1;
    }
    brought
}

// Whether the slot in front of a place, where there is one, is read, and the one at it isn't.
fn is_cut(slots: &[Slot], place: usize, until: &Until) -> bool
    requires { IsAscending slots.now }
    ensures within { result ≡ true → place ≤ length slots.now }
    ensures rest { (day number : ℕ) → result ≡ true → until.now ≡ variants.Post day number → drop place slots.now ≡ not_before day number slots.now }
{
    if place == 0 || slots.len() < place {
        return false;
    }
    if !reaches(until, &slots[place - 1]) {
        return false;
    }
    place == slots.len() || !reaches(until, &slots[place])
}

// The first place that isn't in front of a post, which may be near another one.
fn place_of(slots: &[Slot], near: usize, day: Day, number: u32) -> usize
    requires { IsAscending slots.now }
    ensures rest { drop result slots.now ≡ not_before day number slots.now }
    ensures within { result ≤ length slots.now }
{
    let until = Until::Post(day, number);
    if is_cut(slots, near, &until) {
        return near;
    }
    slots.partition_point(|slot| reaches(&until, slot))
}

// The sum of these days, where it is one.
fn of_days(sum: &Option<Sum>, from: Day, to: Day) -> Option<Sum>
    ensures days { IfSome result (λ s. (s.from ≡ from) × (s.to ≡ to)) }
    ensures sums { (posts : List CorrectedPost) (last : ℕ) → IfSome sum.now (IsSumOf posts last) → IfSome result (IsSumOf posts last) }
{
    match sum {
        Some(sum) => {
            if sum.from == from && sum.to == to {
                Some(*sum)
            } else {
                None
            }
        }
        None => None,
    }
}

// The earlier of two days.
fn sooner(a: Day, b: Day) -> Day
    ensures { result ≡ min a b }
{
    if b < a { b } else { a }
}

impl Tally {
    ghost use Rattle.std.specs.Prelude.{◌≡◌, ◌<◌, ◌≤◌, ◌+◌, ℕ, true, IfSome, List};
    ghost use Rattle.card_events.specs.Range.{last_calendar_day};
    ghost use Rattle.card_events.specs.History.{CorrectedPost};
    ghost use Rattle.card_fees.specs.Tallied.{IsBy, IsSumOf, IsTallyOf, Leads, StaysRight};
    ghost use Rattle.card_posts.specs.Posted.{StandsFor};

    /// Nothing paid from a day on, up to that day: it is right for all posts, and looks at none of a later day.
    pub fn start(from: Day) -> Tally
        ensures { (posts : List CorrectedPost) (last : ℕ) → from ≤ last + 1 → IsTallyOf posts last result }
    {
        Tally {
            from,
            day: from,
            number: 0,
            near: 0,
            paid: 0,
            credited: 0,
            due: None,
            before: None,
        }
    }

    // The same with nothing paid from another day on, before this one. What is held stays.
    fn restarted(&self, from: Day, day: Day) -> Tally
        ensures right { (posts : List CorrectedPost) (last : ℕ) → day ≤ last + 1 → IsTallyOf posts last self.now → IsTallyOf posts last result }
        ensures from { result.from ≡ from }
        ensures day { result.day ≤ day }
        ensures number { result.number ≡ 0 }
    {
        Tally {
            from,
            day: sooner(from, day),
            number: 0,
            near: self.near,
            paid: 0,
            credited: 0,
            due: self.due,
            before: self.before,
        }
    }

    // Whether it has counted from that day on, and not beyond a post.
    fn leads_to(&self, from: Day, day: Day, number: u32) -> bool
        ensures from { result ≡ true → self.now.from ≡ from }
        ensures leads { result ≡ true → Leads self.now.day self.now.number day number }
    {
        self.from == from && (self.day < day || self.day == day && self.number <= number)
    }

    // Brings it to the post with a day and a number: what the slots since bring, and all anew where one of them is a Return.
    fn count_on(&mut self, posts: &Posts, day: Day, number: u32)
        requires leads { Leads self.old.day self.old.number day number }
        ensures right { (holidays : List ℕ) (last : ℕ) → StandsFor holidays posts.now → IsBy last day number → IsTallyOf posts.now.corrected last self.old → IsTallyOf posts.now.corrected last self.new }
        ensures from { self.new.from ≡ self.old.from }
        ensures day { self.new.day ≡ day }
        ensures number { self.new.number ≡ number }
    {
        let until = Until::Post(day, number);
        let slots = posts.in_order();
        let first = place_of(slots, self.near, self.day, self.number);
        let brought = bring(posts, &slots[first..], self.from, &until);
        // A Return may name a payment that was counted before.
        self.paid = if brought.returns == 0 {
            self.paid.saturating_add(brought.paid)
        } else {
            counted_in_front(posts, self.from, day, number)
        };
        self.credited = self.credited.saturating_add(brought.credited);
        self.day = day;
        self.number = number;
        self.near = first + brought.read;
    }

    /// What was paid from a day on before the post with a day and a number, from then on. The corrected list is that of the posts
    /// under some calendar. It doesn't allocate.
    pub fn reach(&mut self, posts: &Posts, from: Day, day: Day, number: u32)
        ensures right { (holidays : List ℕ) (last : ℕ) → StandsFor holidays posts.now → IsBy last day number → IsTallyOf posts.now.corrected last self.old → IsTallyOf posts.now.corrected last self.new }
        ensures from { self.new.from ≡ from }
        ensures day { self.new.day ≡ day }
        ensures number { self.new.number ≡ number }
    {
        if !self.leads_to(from, day, number) {
            *self = self.restarted(from, day);
        }
        self.count_on(posts, day, number);
    }

    // What was counted up to a day, where it stands at its end.
    fn sum_to(&self, to: Day) -> Sum
        ensures { result ≡ record { from = self.now.from; to = to; paid = self.now.paid; credited = self.now.credited } }
    {
        Sum {
            from: self.from,
            to,
            paid: self.paid,
            credited: self.credited,
        }
    }

    /// What was paid from one day to another, before 2102-12-31, which it holds from then on. What it counted is right for these
    /// posts, and stays so. The corrected list is that of the posts under some calendar. It doesn't allocate.
    pub fn hold(&mut self, posts: &Posts, from: Day, to: Day) -> Sum
        requires { to < last_calendar_day }
        ensures right { StaysRight posts.now to self.old self.new }
        ensures sum { (holidays : List ℕ) (last : ℕ) → StandsFor holidays posts.now → to ≤ last → IsTallyOf posts.now.corrected last self.old → IsSumOf posts.now.corrected last result }
        ensures from { result.from ≡ from }
        ensures to { result.to ≡ to }
    {
        self.reach(posts, from, to.next(), 0);
        self.before = self.due;
        self.due = Some(self.sum_to(to));
        self.sum_to(to)
    }

    /// What was paid from one day to another, where it holds that.
    pub fn held(&self, from: Day, to: Day) -> Option<Sum>
        ensures days { IfSome result (λ s. (s.from ≡ from) × (s.to ≡ to)) }
        ensures sums { (posts : List CorrectedPost) (last : ℕ) → IsTallyOf posts last self.now → IfSome result (IsSumOf posts last) }
    {
        match of_days(&self.due, from, to) {
            Some(sum) => Some(sum),
            None => of_days(&self.before, from, to),
        }
    }
}
