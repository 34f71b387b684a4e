// What rates are read from: segments with their terms, and lowered rates.
ghost use Rattle.std.specs.Prelude.{◌≡◌, ◌≤◌, ◌||◌, Some, None};
ghost use Rattle.card_events.specs.Range.{last_calendar_day};
ghost use Rattle.card_model.specs.Rates.{accrual_rate, after_end};
ghost use Rattle.card_model.specs.Segments.{is_deferred_on, is_over, is_sort, sort_of_category, sort_of_plan};
ghost use Rattle.card_model.specs.declared.segment.Sort.TheVariants.{Promo, Deferred};

use card_events::{Bp, Category, Day, PlanKind};
use card_model::Sort;
use std::marker::Model;

/// A segment with its rates in basis points: of a vintage its own from `effective` on, of a plan that of its period, and that
/// after its end. A vintage's first day is kept as its number, since it may lie after the last day.
#[derive(Clone, Copy)]
pub struct RatedSegment {
    pub id: u8,
    pub sort: Sort,
    pub post: u32,
    pub begins: u32,
    pub ends: Option<Day>,
    pub rate: Bp,
    pub effective: Day,
    pub after: Bp,
}

impl Model for RatedSegment {
    ghost use Rattle.card_model.specs.Segments.{SegmentTerms};

    ghost Value = { SegmentTerms };

    ghost view = { λ g. record { id = g.id; sort = g.sort; post = g.post; begins = g.begins; ends = g.ends; rate = g.rate; effective = g.effective; after = g.after } };

    ghost inverse = { λ g. record { id = g.id; sort = g.sort; post = g.post; begins = g.begins; ends = g.ends; rate = g.rate; effective = g.effective; after = g.after } };
}

// A Lower: from its day on it caps the rates of a sort that have begun.
#[derive(Clone, Copy)]
pub struct RateCap {
    pub sort: Sort,
    pub day: Day,
    pub rate: Bp,
}

impl Model for RateCap {
    ghost use Rattle.card_model.specs.Rates.{Lowering};

    ghost Value = { Lowering };

    ghost view = { λ l. record { sort = l.sort; day = l.day; rate = l.rate } };

    ghost inverse = { λ l. record { sort = l.sort; day = l.day; rate = l.rate } };
}

// The number of a day.
pub fn number_of(day: Day) -> u32
    ensures value { result ≡ day }
    ensures bound { result ≤ last_calendar_day }
{
    day.number() as u32
}

/// The sort of a category's vintages.
pub fn sort_of(category: Category) -> Sort
    ensures { result ≡ sort_of_category category }
{
    match category {
        Category::Purchase => Sort::Purchase,
        Category::Cash => Sort::Cash,
        Category::Transfer => Sort::Transfer,
    }
}

/// The sort of a kind of plan.
pub fn plan_sort(kind: PlanKind) -> Sort
    ensures { result ≡ sort_of_plan kind }
{
    match kind {
        PlanKind::Promo => Sort::Promo,
        PlanKind::Deferred => Sort::Deferred,
    }
}

// Whether segments of a sort are plans.
pub fn is_plan_sort(sort: Sort) -> bool
    ensures { result ≡ (is_sort Promo sort || is_sort Deferred sort) }
{
    sort == Sort::Promo || sort == Sort::Deferred
}

// Whether an end lies before a day; what has no end is over.
pub fn is_over(end: &Option<Day>, day: Day) -> bool
    ensures { result ≡ is_over end.now day }
{
    match end {
        None => true,
        Some(end) => *end < day,
    }
}

// The day after an end.
pub fn after_end(end: &Option<Day>) -> u32
    ensures { result ≡ after_end end.now }
{
    match end {
        None => 0,
        Some(end) => number_of(*end) + 1,
    }
}

// The rate at which a deferred plan accrues interest in its period.
pub fn accrues(g: &RatedSegment, day: Day) -> Option<Bp>
    ensures { result ≡ accrual_rate day g.now }
{
    if g.sort == Sort::Deferred && g.begins <= number_of(day) && !is_over(&g.ends, day) {
        Some(g.rate)
    } else {
        None
    }
}

/// Whether it is a deferred plan in its period on a day (12 CFR 1026.55(b)(1)).
pub fn is_deferred_on(g: &RatedSegment, day: Day) -> bool
    ensures { result ≡ is_deferred_on day g.now }
{
    g.sort == Sort::Deferred && g.begins <= number_of(day) && !is_over(&g.ends, day)
}
