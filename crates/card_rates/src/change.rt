// The next day on which a rate changes, read from the lists of an account.
ghost use Rattle.std.specs.Prelude.{◌≡◌, ◌≤◌, ◌==◌, ◌&&◌, nat_lt};
ghost use Rattle.std.specs.List.{list_any};
ghost use Rattle.card_model.specs.Breaks.{breaks_penalty, breaks_segment, is_day_after, is_on};
ghost use Rattle.card_rates.specs.Next.{IsNext};

use crate::segment::{RatedSegment, number_of};
use card_events::Day;
use card_model::Interval;
use card_shared::IndexTable;

// The day with a number, where it comes before the end.
fn next_at(first: Day, end: Day, number: u32) -> Day
    requires { first ≤ end }
    ensures { IsNext (λ day. number == day) first end result }
{
    let low = number_of(first);
    if low <= number && number < number_of(end) {
        first.plus(number - low)
    } else {
        end
    }
}

// A last day, where there is one and it comes before the end.
fn next_last(first: Day, end: Day, last: &Option<Day>) -> Day
    requires { first ≤ end }
    ensures { IsNext (λ day. is_on day last.now) first end result }
{
    match last {
        Some(last) => next_at(first, end, number_of(*last)),
        None => end,
    }
}

// The day after it.
fn next_after(first: Day, end: Day, last: &Option<Day>) -> Day
    requires { first ≤ end }
    ensures { IsNext (λ day. is_day_after day last.now) first end result }
{
    match last {
        Some(last) => next_at(first, end, number_of(*last) + 1),
        None => end,
    }
}

// The next day on which a plan ends, or a vintage or its rate begins.
fn segment_change(g: &RatedSegment, first: Day, end: Day) -> Day
    requires { first ≤ end }
    ensures { IsNext (λ day. breaks_segment day g.now) first end result }
{
    let ends = next_last(first, end, &g.ends);
    let begins = next_at(first, ends, g.begins);
    next_at(first, begins, number_of(g.effective))
}

// Of all segments.
pub fn segments_change(segments: &[RatedSegment], first: Day, end: Day) -> Day
    requires { first ≤ end }
    ensures { IsNext (λ day. list_any (breaks_segment day) segments.now) first end result }
{
    let mut next = end;
    for g in segments {
        next = segment_change(g, first, next);
    }
    next
}

// The next day on which a penalty begins, or that comes after its last.
fn penalty_change(penalty: &Interval, first: Day, end: Day) -> Day
    requires { first ≤ end }
    ensures { IsNext (λ day. breaks_penalty day penalty.now) first end result }
{
    let begins = next_at(first, end, number_of(penalty.begins));
    next_after(first, begins, &penalty.last)
}

// Of all penalties.
pub fn penalties_change(penalties: &[Interval], first: Day, end: Day) -> Day
    requires { first ≤ end }
    ensures { IsNext (λ day. list_any (breaks_penalty day) penalties.now) first end result }
{
    let mut next = end;
    for penalty in penalties {
        next = penalty_change(penalty, first, next);
    }
    next
}

// The day of the first index row from a day on, where it comes before the end.
fn next_from(index: &IndexTable, first: Day, end: Day) -> Day
    requires { first ≤ end }
    ensures { IsNext (λ day. list_any (λ row. row.day == day) index.now) first end result }
{
    match index.from(first) {
        Some(day) if day < end => day,
        _ => end,
    }
}

// The next day after the opening one that has an index row.
pub fn next_row(index: &IndexTable, opened: Day, first: Day, end: Day) -> Day
    requires { first ≤ end }
    ensures { IsNext (λ day. nat_lt opened day && list_any (λ row. row.day == day) index.now) first end result }
{
    if opened < first {
        return next_from(index, first, end);
    }
    if number_of(end) <= number_of(opened) {
        return end;
    }
    next_from(index, opened.next(), end)
}
