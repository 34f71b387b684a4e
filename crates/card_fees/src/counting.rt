// Sums over the payments and credits of some days.
ghost use Rattle.std.specs.Prelude.{◌≡◌, ◌+◌, ◌≤◌, ℕ, List, min, nat_le, nat_lt, unsigned_abs};
ghost use Rattle.std.specs.List.{sum_by};
ghost use Rattle.card_events.specs.History.{at_number};
ghost use Rattle.card_fees.specs.Counting.{counts, credits, is_credit_at, is_payment_at, read_counts, since, up_to};
ghost use Rattle.card_fees.specs.Limits.{payments_limit};
ghost use Rattle.card_model.specs.Payments as payments;
ghost use Rattle.card_posts.specs.Order.{IsAscending};
ghost use Rattle.card_posts.specs.Posted.{AreBounded, StandsFor, folding_order};

use crate::returning::{Until, is_returned, reaches};
use card_events::{Day, Post, Slot};
use card_posts::Posts;

// the slots from a day on
fn since(slots: &[Slot], from: Day) -> &[Slot]
    requires { IsAscending slots.now }
    ensures value { result.now ≡ since from slots.now }
    ensures order { IsAscending result.now }
{
    &slots[slots.partition_point(|slot| slot.day < from)..]
}

// the slots up to a day
fn up_to(slots: &[Slot], to: Day) -> &[Slot]
    requires { IsAscending slots.now }
    ensures { result.now ≡ up_to to slots.now }
{
    &slots[..slots.partition_point(|slot| slot.day <= to)]
}

// those of all posts
fn slots_since(posts: &Posts, from: Day) -> &[Slot]
    ensures value { result.now ≡ since from (folding_order posts.now.corrected) }
    ensures order { IsAscending result.now }
    ensures bounded { AreBounded result.now }
{
    since(posts.in_order(), from)
}

// the slots from one day to another
fn slots_of(posts: &Posts, from: Day, to: Day) -> &[Slot]
    ensures value { result.now ≡ up_to to (since from (folding_order posts.now.corrected)) }
    ensures bounded { AreBounded result.now }
{
    up_to(slots_since(posts, from), to)
}

fn is_payment(posts: &Posts, number: u32) -> bool
    ensures { result ≡ is_payment_at (at_number number posts.now.history) }
{
    match posts.get(number) {
        Some(kept) => matches!(kept.post, Post::Payment { .. }),
        None => false,
    }
}

// the cents of a payment that no Return among the posts that are read names
fn counts(posts: &Posts, until: &Until, slot: &Slot) -> u64
    ensures value { result ≡ counts until.now posts.now.history posts.now.corrected slot.now }
    ensures bound { result ≤ unsigned_abs slot.now.cents }
{
    if is_payment(posts, slot.number) && !is_returned(posts, slot.number, until) {
        slot.cents.unsigned_abs()
    } else {
        0
    }
}

// the same, where the slot is read
fn read_counts(posts: &Posts, until: &Until, slot: &Slot) -> u64
    ensures value { result ≡ read_counts until.now posts.now.history posts.now.corrected slot.now }
    ensures bound { result ≤ unsigned_abs slot.now.cents }
{
    if reaches(until, slot) {
        counts(posts, until, slot)
    } else {
        0
    }
}

fn is_enough(total: u64, limit: u64) -> bool
    ensures { result ≡ nat_le limit total }
{
    limit <= total
}

// What the slots that are read count together, up to a limit. It looks at no slot behind the limit, and at one that isn't read.
fn sum(posts: &Posts, slots: &[Slot], until: &Until, limit: u64) -> u64
    requires order { IsAscending slots.now }
    requires bounded { AreBounded slots.now }
    ensures value { result ≡ min limit (sum_by (read_counts until.now posts.now.history posts.now.corrected) slots.now) }
    ensures bound { result ≤ payments_limit }
{
    let mut total = 0;
    for slot in slots {
        if is_enough(total, limit) {
            return limit;
        }
        if !reaches(until, slot) {
            return total;
        }
        total += read_counts(posts, until, slot);
    }
    limit.min(total)
}

// The payments with effective days from one day to another, less those returned by its end; at most a limit.
pub fn counted_up_to(posts: &Posts, from: Day, to: Day, limit: u64) -> u64
    ensures bound { result ≤ payments_limit }
    ensures value { (holidays : List ℕ) → StandsFor holidays posts.now → result ≡ min limit (payments.counted posts.now.corrected from to) }
{
    sum(posts, slots_since(posts, from), &Until::Day(to), limit)
}

// The payments that are folded before a post, less those returned before it.
pub fn counted_in_front(posts: &Posts, from: Day, day: Day, number: u32) -> u64
    ensures { (holidays : List ℕ) → StandsFor holidays posts.now → result ≡ payments.counted (payments.folded_before day number posts.now.corrected) from day }
{
    let slots = slots_since(posts, from);
    sum(posts, slots, &Until::Post(day, number), u64::MAX)
}

fn is_credit(posts: &Posts, number: u32) -> bool
    ensures { result ≡ is_credit_at (at_number number posts.now.history) }
{
    match posts.get(number) {
        Some(kept) => matches!(kept.post, Post::Credit { .. }),
        None => false,
    }
}

// the cents of a credit
fn credits(posts: &Posts, slot: &Slot) -> u64
    ensures value { result ≡ credits posts.now.history slot.now }
    ensures bound { result ≤ unsigned_abs slot.now.cents }
{
    if is_credit(posts, slot.number) {
        slot.cents.unsigned_abs()
    } else {
        0
    }
}

fn credits_sum(posts: &Posts, slots: &[Slot]) -> u64
    requires bounded { AreBounded slots.now }
    ensures value { result ≡ sum_by (credits posts.now.history) slots.now }
    ensures bound { result ≤ payments_limit }
{
    let mut total = 0;
    for slot in slots {
        total += credits(posts, slot);
    }
    total
}

// the credits with effective days from one day to another
fn credited_between(posts: &Posts, from: Day, to: Day) -> u64
    ensures bound { result ≤ payments_limit }
    ensures value { (holidays : List ℕ) → StandsFor holidays posts.now → result ≡ payments.credited posts.now.corrected from to }
{
    credits_sum(posts, slots_of(posts, from, to))
}

// Whether the payments with effective days from one day to another, less those returned by its end, reach an amount together
// with the merchants' credits of these days. It looks at no credit where the payments do.
pub fn repaid_reaches(posts: &Posts, from: Day, to: Day, amount: u64) -> bool
    ensures { (holidays : List ℕ) → StandsFor holidays posts.now → result ≡ nat_le amount (payments.counted posts.now.corrected from to + payments.credited posts.now.corrected from to) }
{
    let paid = counted_up_to(posts, from, to, amount);
    if is_enough(paid, amount) {
        return true;
    }
    amount <= paid + credited_between(posts, from, to)
}
