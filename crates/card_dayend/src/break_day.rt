// The next break day.
ghost use Rattle.std.specs.Prelude.{◌≡◌, ◌-◌, ◌<◌, ◌≤◌, ◌==◌, ℕ, List, [], length, nat_lt, slice_index_or, true};
ghost use Rattle.std.specs.List.Sorted.{IsNonDecreasingBy};
ghost use Rattle.card_events.specs.Billing.{closing};
ghost use Rattle.card_events.specs.Range.{last_request_day};
ghost use Rattle.card_events.specs.declared.anchor.Anchor.{Anchor};
ghost use Rattle.card_events.specs.History.{anchor_of, is_variable};
ghost use Rattle.card_posts.specs.Posted.{StandsFor};
ghost use Rattle.card_rates.specs.Next.{IsNext};
ghost use Rattle.card_rates.specs.RateBooks.{rates_of};
ghost use Rattle.card_model.specs.Cycles.{IssuedRow};
ghost use Rattle.card_daily.specs.Given.{opened_in};
ghost use Rattle.card_dayend.specs.Spans.{HoldDay, IsCursorOf, IsIssueCut, breaks_by, closes, follows_due, has_issue, has_post};

use crate::cursor::{Cursor, CycleDates, dates_at};
use card_daily::{Inputs, Issued, place_near};
use card_events::Day;
use card_posts::Posts;
use card_rates::RateBook;

// A day, where it comes before the end.
fn next_at(first: Day, end: Day, day: Day) -> Day
    requires { first ≤ end }
    ensures { IsNext (λ x. day == x) first end result }
{
    if first <= day && day < end { day } else { end }
}

// The next day with a post, which is looked for from a place on.
fn next_post(posts: &Posts, near: &mut usize, first: Day, end: Day) -> Day
    requires { first ≤ end }
    ensures { (holidays : List ℕ) → StandsFor holidays posts.now → IsNext (has_post posts.now.corrected) first end result }
{
    let place = place_near(posts, *near, first);
    *near = place;
    match posts.in_order().get(place) {
        Some(slot) => next_at(first, end, slot.day),
        None => end,
    }
}

// The closing of the cycle that holds the first day.
fn next_closing(dates: &CycleDates, first: Day, end: Day) -> Day
    requires { first ≤ end }
    ensures next { (a : Anchor) → HoldDay a dates.now first → IsNext (closes a) first end result }
    ensures within { (a : Anchor) → HoldDay a dates.now first → result ≤ closing a dates.now.number }
{
    next_at(first, end, dates.closing)
}

// The next day after a due date, of days that this cycle holds. A due date comes before the next closing.
fn next_after_due(dates: &CycleDates, first: Day, end: Day) -> Day
    requires { first ≤ end }
    ensures { (a : Anchor) → HoldDay a dates.now first → end ≤ closing a dates.now.number → IsNext (follows_due a) first end result }
{
    match dates.after_due {
        Some(day) => next_at(first, end, day),
        None => end,
    }
}

fn is_before(row: &Issued, day: Day) -> bool
    ensures { result ≡ nat_lt row.now.day day }
{
    row.day < day
}

// How many statements were issued before a day. They stand in the order of their days.
fn count_before(issued: &[Issued], day: Day) -> usize
    requires { IsNonDecreasingBy (λ r. r.day) issued.now }
    ensures { IsIssueCut issued.now day result }
{
    issued.partition_point(|row| is_before(row, day))
}

// Whether the statement at a place was issued before a day.
fn is_early_at(issued: &[Issued], place: usize, day: Day) -> bool
    requires { place < length issued.now }
    ensures { (d : IssuedRow) → result ≡ nat_lt (slice_index_or issued.now place d).day day }
{
    is_before(&issued[place], day)
}

// Whether the statements in front of a place, of which there are some, were issued before a day, and the one at it, where there is
// one, wasn't.
fn is_cut(issued: &[Issued], place: usize, day: Day) -> bool
    requires { IsNonDecreasingBy (λ r. r.day) issued.now }
    ensures { result ≡ true → IsIssueCut issued.now day place }
{
    let count = issued.len();
    if count < place {
        return false;
    }
    if place == 0 {
        return false;
    }
    if !is_early_at(issued, place - 1, day) {
        return false;
    }
    if place == count {
        return true;
    }
    !is_early_at(issued, place, day)
}

// How many statements were issued before a day, where it may be as many as before.
fn count_before_near(issued: &[Issued], day: Day, near: usize) -> usize
    requires { IsNonDecreasingBy (λ r. r.day) issued.now }
    ensures { IsIssueCut issued.now day result }
{
    if is_cut(issued, near, day) {
        return near;
    }
    count_before(issued, day)
}

// The next day of an issue, which is looked for near a place.
fn next_issue(issued: &[Issued], near: &mut usize, first: Day, end: Day) -> Day
    requires order { first ≤ end }
    requires turn { IsNonDecreasingBy (λ r. r.day) issued.now }
    ensures { IsNext (has_issue issued.now) first end result }
{
    let place = count_before_near(issued, first, *near);
    *near = place;
    match issued.get(place) {
        Some(row) => next_at(first, end, row.day),
        None => end,
    }
}

/// The first break day from a day on, where it comes before the last one, and that last day otherwise. Break days are the days
/// with a post, a closing or an issue, those after a due date, those on which a rate changes, by the penalties begun so far,
/// and, where the opening rates follow the index, those with an index row. The first day isn't before the opening day nor
/// after the last one, which is at most 2099-12-31. The cursor is one of this account, and stays so. It doesn't allocate.
pub fn span_end(inputs: &Inputs, rates: &RateBook, first: Day, to: Day, cursor: &mut Cursor) -> Day
    requires opened { opened_in inputs.now ≤ first }
    requires order { first ≤ to }
    requires last { to ≤ last_request_day }
    requires rates { rates.now.segments ≡ (rates_of inputs.now.shared.holidays inputs.now.history []).segments }
    requires variable { rates.now.variable ≡ is_variable inputs.now.history }
    requires cursor { IsCursorOf inputs.now cursor.old }
    ensures next { IsNext (breaks_by inputs.now rates.now.penalties) first to result }
    ensures cursor { IsCursorOf inputs.now cursor.new }
{
    // Each search ends where the one before it found something, so none looks past the nearest break day.
    let posted = next_post(inputs.posts(), &mut cursor.posts, first, to);
    if posted == first {
        return first;
    }
    let anchor = inputs.anchor();
    let dates = dates_at(&anchor, first, &cursor.cycle);
    cursor.cycle = Some(dates);
    let closing = next_closing(&dates, first, posted);
    let due = next_after_due(&dates, first, closing);
    let issued = next_issue(inputs.issued(), &mut cursor.issues, first, due);
    let changed = rates.next_change(first, issued);
    rates.next_index(inputs.index(), anchor.opened, first, changed)
}
