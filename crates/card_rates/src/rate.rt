// The rate of a segment on a day, read from the lists of an account.
ghost use Rattle.std.specs.Prelude.{◌≡◌, ◌+◌, ◌<◌, ◌∷◌, [], ◌&&◌, ◌||◌, not, nat_le, nat_lt, if◌then◌else◌, min, max, Some, None};
ghost use Rattle.std.specs.List.{fold};
ghost use Rattle.card_model.specs.Rates.{bears_as, bears_in, begun_of, capped, in_force, lowered_by, period_rate, rate_with, starts, with_penalty};
ghost use Rattle.card_events.specs.Money.{rate_limit};
ghost use Rattle.card_model.specs.Segments.{is_over, is_plan, is_sort, last_that, newest};
ghost use Rattle.card_model.specs.declared.segment.Sort.TheVariants.{Promo, Deferred, Purchase};

use crate::segment::{RateCap, RatedSegment, is_over, is_plan_sort, number_of};
use card_events::{Bp, Day, RATE_LIMIT};
use card_model::{Interval, Sort};
use std::marker::Model;

// Segments with smaller numbers stand from the opening on.
const FIRST_ADDED: u8 = 5;

// A rate, and the number of the day on which it began.
#[derive(Clone, Copy)]
pub struct BegunRate {
    pub rate: Bp,
    pub from: u32,
}

impl Model for BegunRate {
    ghost use Rattle.card_model.specs.Rates.{Begun};

    ghost Value = { Begun };

    ghost view = { λ b. record { rate = b.rate; from = b.from } };

    ghost inverse = { λ b. record { rate = b.rate; from = b.from } };
}

// The rate 0.
pub fn no_rate() -> Bp
    ensures { result ≡ 0 }
{
    Bp::new(0).unwrap()
}

// the lesser of a rate and of a Lower of its sort whose day lies from one day to another
fn lowered(cap: &RateCap, sort: Sort, from: u32, to: Day, rate: Bp) -> Bp
    ensures { result ≡ lowered_by sort from to rate cap.now }
{
    if cap.sort == sort && from <= number_of(cap.day) && cap.day <= to {
        rate.min(cap.rate)
    } else {
        rate
    }
}

// The least of a rate and of the Lowers of its sort from the day on which it began.
pub fn least_of(caps: &[RateCap], sort: Sort, day: Day, begun: BegunRate) -> Bp
    ensures { result ≡ capped caps.now sort day begun }
{
    let mut least = begun.rate;
    for cap in caps {
        least = lowered(cap, sort, begun.from, day, least);
    }
    least
}

// whether a vintage of a sort, of this number or an older one, bears its own rate
fn bears(g: &RatedSegment, sort: Sort, id: u8, day: Day) -> bool
    ensures { result ≡ bears_in day sort id g.now }
{
    g.sort == sort && g.id <= id && g.begins <= number_of(day) && g.effective <= day
}

// Whether a vintage bears its own rate on a day.
pub fn bears_its_own(g: &RatedSegment, day: Day) -> bool
    ensures { result ≡ (not (is_plan g.now) && nat_le g.now.effective day && nat_le g.now.begins day) }
{
    !is_plan_sort(g.sort) && g.effective <= day && g.begins <= number_of(day)
}

// The rate of a vintage, where the opening rates follow this index, if any.
pub fn rate_with(g: &RatedSegment, index: &Option<Bp>) -> Bp
    ensures { result ≡ rate_with index.now g.now }
{
    match index {
        Some(index) if g.id < FIRST_ADDED => with_margin(g.rate, *index),
        _ => g.rate,
    }
}

// A margin and the index, at most 9,999 basis points.
fn with_margin(margin: Bp, index: Bp) -> Bp
    ensures { result ≡ min rate_limit (margin + index) }
{
    let sum = margin.get() as u64 + index.get() as u64;
    Bp::new(sum.min(RATE_LIMIT as u64)).unwrap()
}

// The rate of the newest vintage of a sort that isn't newer than this number and bears its own rate, where the opening rates
// follow this index, if any.
pub fn vintage_rate(
    segments: &[RatedSegment],
    sort: Sort,
    id: u8,
    day: Day,
    index: &Option<Bp>,
) -> BegunRate
    ensures { result ≡ begun_of index.now (last_that (bears_in day sort id) segments.now) }
{
    let mut begun = BegunRate {
        rate: no_rate(),
        from: 0,
    };
    for g in segments {
        if bears(g, sort, id, day) {
            begun = BegunRate {
                rate: rate_with(g, index),
                from: number_of(g.effective),
            };
        }
    }
    begun
}

fn is_in_force(penalty: &Interval, day: Day) -> bool
    ensures { result ≡ in_force day penalty.now }
{
    if penalty.begins > day {
        return false;
    }
    match penalty.last {
        None => true,
        Some(last) => day <= last,
    }
}

fn greater(a: Bp, b: Bp) -> Bp
    ensures { result ≡ max a b }
{
    a.max(b)
}

// a rate raised to the penalty rate, where the penalty is in force
fn raised_by(
    penalty: &Interval,
    caps: &[RateCap],
    penalty_rate: Bp,
    sort: Sort,
    day: Day,
    rate: Bp,
) -> Bp
    ensures { result ≡ fold (with_penalty caps.now penalty_rate sort day) rate (starts day (penalty.now ∷ [])) }
{
    if !is_in_force(penalty, day) {
        return rate;
    }
    let begun = BegunRate {
        rate: penalty_rate,
        from: number_of(penalty.begins),
    };
    greater(rate, least_of(caps, sort, day, begun))
}

// A rate raised by the penalties that are in force.
pub fn raised(
    penalties: &[Interval],
    caps: &[RateCap],
    penalty_rate: Bp,
    sort: Sort,
    day: Day,
    base: Bp,
) -> Bp
    ensures { result ≡ fold (with_penalty caps.now penalty_rate sort day) base (starts day penalties.now) }
{
    let mut rate = base;
    for penalty in penalties {
        rate = raised_by(penalty, caps, penalty_rate, sort, day, rate);
    }
    rate
}

// The sort whose Lowers cap a segment: a plan past its end counts as Purchase.
pub fn capped_as(sort: Sort) -> Sort
    ensures { result ≡ (if (is_sort Promo sort || is_sort Deferred sort) then Purchase else sort) }
{
    if is_plan_sort(sort) {
        Sort::Purchase
    } else {
        sort
    }
}

// In its period a Promo has its rate, and a Deferred ranks at 0.
pub fn rate_in_period(g: &RatedSegment) -> Bp
    ensures { result ≡ period_rate g.now }
{
    if g.sort == Sort::Promo {
        g.rate
    } else {
        no_rate()
    }
}

// Whether a plan's day is still to come.
pub fn is_to_come(g: &RatedSegment, day: Day) -> bool
    ensures { result ≡ (is_plan g.now && nat_lt day g.now.begins) }
{
    is_plan_sort(g.sort) && number_of(day) < g.begins
}

// Whether a plan isn't past its end.
pub fn is_running(g: &RatedSegment, day: Day) -> bool
    ensures { result ≡ (is_plan g.now && not (is_over g.now.ends day)) }
{
    is_plan_sort(g.sort) && !is_over(&g.ends, day)
}

// Whether a vintage of a sort has begun.
fn is_begun(g: &RatedSegment, sort: Sort, day: Day) -> bool
    ensures { result ≡ (is_sort sort g.now.sort && nat_le g.now.begins day) }
{
    g.sort == sort && g.begins <= number_of(day)
}

// The newest vintage of a sort that has begun, else the opening vintage of purchases.
pub fn newest_of(segments: &[RatedSegment], sort: Sort, day: Day) -> u8
    ensures { result ≡ newest sort day segments.now }
{
    let mut id = 2;
    for g in segments {
        if is_begun(g, sort, day) {
            id = g.id;
        }
    }
    id
}
