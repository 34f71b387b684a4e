// Whether a segment had a balance on the days of a cycle.
ghost use Rattle.std.specs.Prelude.{◌≡◌, ℕ, ◌+◌, ◌-◌, ◌<◌, ◌≤◌, ◌^◌, ◌==◌, ◌&&◌, ◌||◌, List, ◌++◌, [], ◌∷◌, length, nat_le, nat_lt, ◌-ℤ◌};
ghost use Rattle.std.specs.List.{All, list_any};
ghost use Rattle.card_model.specs.Entries.{at_least_zero, balance};
ghost use Rattle.card_events.specs.Range.{first_calendar_day};
ghost use Rattle.card_model.specs.declared.entry.Entry.{Entry};
ghost use Rattle.card_segments.specs.Balances.{IsWithin};
ghost use Rattle.card_statement.specs.Lines as lines;
ghost use Rattle.card_statement.specs.Standing as spec;

use card_events::{Cents, Day};
use card_model::Entry;

// Whether an entry is on a segment, and of a day after this one.
fn is_past(entry: &Entry, segment: u8, day: Day) -> bool
    ensures { result ≡ ((entry.now.segment == segment) && nat_lt day entry.now.day) }
{
    entry.segment == segment && entry.day > day
}

// What an entry moves on a segment after a day.
fn moved_by(entry: &Entry, segment: u8, day: Day) -> Cents
    ensures { result ≡ spec.moved_after segment day (entry.now ∷ []) }
{
    if is_past(entry, segment, day) {
        entry.cents
    } else {
        0
    }
}

// A sum without these cents.
fn less(sum: i128, cents: Cents) -> i128
    requires room { IsWithin (2 ^ 127 - 2 ^ 64) sum }
    ensures value { result ≡ sum -ℤ cents }
    ensures bound { (n : ℕ) → IsWithin n sum → IsWithin (n + 2 ^ 63) result }
{
    sum - i128::from(cents)
}

// What was owed on a segment at the end of a day, where entries left it with so much.
fn owed_then(left: Cents, entries: &[Entry], segment: u8, day: Day) -> i128
    ensures { result ≡ left -ℤ spec.moved_after segment day entries.now }
{
    // Backwards from what is left, so an old account costs no more.
    let mut sum = i128::from(left);
    for entry in entries {
        sum = less(sum, moved_by(entry, segment, day));
    }
    sum
}

// Whether something was owed on it then.
#[tactic(auto, unfolding(crate::specs::Standing::is_owed_then))]
fn is_owed_then(left: Cents, entries: &[Entry], segment: u8, day: Day) -> bool
    ensures { result ≡ spec.is_owed_then left entries.now segment day }
{
    owed_then(left, entries, segment, day) > 0
}

// Whether an entry is on a segment, and of a day from one to another.
fn is_within(entry: &Entry, segment: u8, first: Day, last: Day) -> bool
    ensures { result ≡ spec.is_within segment first last entry.now }
{
    entry.segment == segment && first <= entry.day && entry.day <= last
}

// Whether something was owed on a segment at the end of a day from one to another that one of the entries on it is of.
fn is_owed_after_any(left: Cents, entries: &[Entry], segment: u8, first: Day, last: Day) -> bool
    ensures { result ≡ list_any (spec.is_owed_after left entries.now segment first last) entries.now }
{
    for entry in entries {
        if is_within(entry, segment, first, last)
            && is_owed_then(left, entries, segment, entry.day)
        {
            return true;
        }
    }
    false
}

// Whether something was owed at the end of the first of these days, or at the end of one that changes it.
fn is_owed_from(left: Cents, entries: &[Entry], segment: u8, first: Day, last: Day) -> bool
    ensures { result ≡ (spec.is_owed_then left entries.now segment first || list_any (spec.is_owed_after left entries.now segment first last) entries.now) }
{
    is_owed_then(left, entries, segment, first)
        || is_owed_after_any(left, entries, segment, first, last)
}

// Whether a day comes after another.
fn is_after(day: Day, other: Day) -> bool
    ensures { result ≡ nat_lt other day }
{
    day > other
}

// Whether a day comes no later than another.
fn is_by(day: Day, other: Day) -> bool
    ensures { result ≡ nat_le day other }
{
    day <= other
}

// Whether entries stand in the order of their days, none of a day after this one.
fn are_in_order(entries: &[Entry], last: Day) -> bool
    ensures { result ≡ spec.are_in_order first_calendar_day last entries.now }
{
    let mut before = Day::first();
    for entry in entries {
        if is_after(before, entry.day) {
            return false;
        }
        before = entry.day;
    }
    is_by(before, last)
}

// What an entry moves on a segment.
fn moved_on(entry: &Entry, segment: u8) -> Cents
    ensures { result ≡ balance segment (entry.now ∷ []) }
{
    if entry.segment == segment {
        entry.cents
    } else {
        0
    }
}

// Whether a day comes after that of the entry before a place, if there is one.
fn begins_day(entries: &[Entry], place: usize, day: Day) -> bool
    requires there { place ≤ length entries.now }
    ensures { result ≡ nat_le (spec.day_behind 0 entries.now place) day }
{
    place == 0 || is_after(day, entries[place - 1].day)
}

// Whether so much is more than nothing.
fn is_some(sum: i128) -> bool
    ensures { result ≡ nat_lt 0 (at_least_zero sum) }
{
    sum > 0
}

// Whether so much shows that something was owed at the end of a day from the first one on, where it was owed before the entry
// at a place, of this day.
fn is_owed_before(sum: i128, entries: &[Entry], place: usize, day: Day, first: Day) -> bool
    requires there { place ≤ length entries.now }
    ensures { result ≡ (nat_lt 0 (at_least_zero sum) && nat_le (spec.day_behind 0 entries.now place) day && nat_lt first day) }
{
    is_some(sum) && begins_day(entries, place, day) && is_after(day, first)
}

// Whether entries on a segment that they left with so much had something owed there before the first one of a day after this
// one, or behind them all. It is looked at from the last one back.
fn is_owed_between(left: Cents, entries: &[Entry], segment: u8, first: Day) -> bool
    ensures { result ≡ spec.is_owed_between left segment first 0 entries.now }
{
    let mut sum = i128::from(left);
    if is_some(sum) {
        return true;
    }
    for place in (0..entries.len()).rev() {
        let entry = &entries[place];
        sum = less(sum, moved_on(entry, segment));
        if is_owed_before(sum, entries, place, entry.day, first) {
            return true;
        }
    }
    false
}

/// Whether something was owed on a segment at the end of some day from one to another: by entries that left it with so much,
/// and earlier ones, all of the days before. It costs one pass over entries that stand in the order of their days.
pub fn was_owed(left: Cents, entries: &[Entry], segment: u8, first: Day, last: Day) -> bool
    ensures { (earlier : List Entry) → All (λ e. e.day < first) earlier → left ≡ balance segment (earlier ++ entries.now) → result ≡ lines.was_owed first last (lines.entries_on segment (earlier ++ entries.now)) }
{
    if is_after(first, last) {
        return false;
    }
    if are_in_order(entries, last) {
        return is_owed_between(left, entries, segment, first);
    }
    is_owed_from(left, entries, segment, first, last)
}
