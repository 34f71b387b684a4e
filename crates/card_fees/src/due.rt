// What a due date asks for, and what the payments left of it.
ghost use Rattle.std.specs.Prelude.{◌≡◌, ℕ, ◌+◌, ◌<◌, nat_lt, List};
ghost use Rattle.card_events.specs.Range.{last_calendar_day};
ghost use Rattle.card_fees.specs.Tallied.{IsTallyOf, StaysRight};
ghost use Rattle.card_model.specs.Payments as payments;
ghost use Rattle.card_posts.specs.Posted.{StandsFor};

use crate::DueCycle;
use crate::counting::counted_up_to;
use crate::due_cycle::{asked, left_of};
use crate::tally::Tally;
use card_events::{Day, LATE_DAYS};
use card_posts::Posts;

// whether the payments of some days are below a minimum payment
fn falls_short(posts: &Posts, from: Day, to: Day, minimum: u64) -> bool
    ensures { (holidays : List ℕ) → StandsFor holidays posts.now → result ≡ nat_lt (payments.counted posts.now.corrected from to) minimum }
{
    counted_up_to(posts, from, to, minimum) < minimum
}

/// Whether the payments credited after the closing of a cycle and up to its due date, without those returned by then, reach
/// what it asks for (12 CFR 1026.5(b)(2)(ii)). It closed before its due date. The corrected list is that of the posts under
/// some calendar. It doesn't allocate.
#[tactic(auto, unfolding(card_model::specs::Payments::is_met))]
pub fn met(posts: &Posts, c: &DueCycle) -> bool
    requires closed { c.now.closing < c.now.due }
    ensures { (holidays : List ℕ) → StandsFor holidays posts.now → result ≡ payments.is_met posts.now.corrected c.now }
{
    let minimum = asked(c);
    if minimum == 0 {
        return true;
    }
    let _last = c.due.number();
    !falls_short(posts, c.closing.next(), c.due, minimum)
}

/// The same, with what was counted so far. It closed before its due date, which is before 2102-12-31. What the tally counted
/// is right for these posts, and stays so; where the cycle asks for something, it holds the sum of these days from then on.
/// The corrected list is that of the posts under some calendar. It doesn't allocate.
#[tactic(auto, unfolding(card_model::specs::Payments::is_met))]
pub fn met_in_time(posts: &Posts, c: &DueCycle, tally: &mut Tally) -> bool
    requires closed { c.now.closing < c.now.due }
    requires in_calendar { c.now.due < last_calendar_day }
    ensures value { (holidays : List ℕ) (last : ℕ) → StandsFor holidays posts.now → IsTallyOf posts.now.corrected last tally.old → result ≡ payments.is_met posts.now.corrected c.now }
    ensures tally { StaysRight posts.now c.now.due tally.old tally.new }
{
    let minimum = asked(c);
    if minimum == 0 {
        return true;
    }
    let sum = tally.hold(posts, c.closing.next(), c.due);
    minimum <= sum.paid
}

/// What is past due at a closing, in cents: what the cycle before asks for, less the payments credited after its closing and
/// up to this one, without those returned by then, not below 0. That cycle closed before this closing, which is before
/// 2102-12-31. What the tally counted is right for these posts, and stays so; what is counted here is kept in it. The
/// corrected list is that of the posts under some calendar. It doesn't allocate.
pub fn past_due(posts: &Posts, c: &DueCycle, end: Day, tally: &mut Tally) -> u64
    requires closed { c.now.closing < end }
    requires in_calendar { end < last_calendar_day }
    ensures value { (holidays : List ℕ) (last : ℕ) → StandsFor holidays posts.now → IsTallyOf posts.now.corrected last tally.old → result ≡ payments.left_by posts.now.corrected end c.now }
    ensures tally { StaysRight posts.now end tally.old tally.new }
{
    let minimum = asked(c);
    if minimum == 0 {
        return 0;
    }
    tally.reach(posts, c.closing.next(), end.next(), 0);
    left_of(minimum, tally.paid)
}

/// Whether a cycle owes what it asks for for sixty days on a day (12 CFR 1026.55(b)(4)): its due date lies more than 60 days
/// back, and the payments with effective days after its closing and up to the day, without those returned by then, are below
/// it. It closed before its due date. The corrected list is that of the posts under some calendar. It doesn't allocate.
pub fn owes_sixty_days(posts: &Posts, c: &DueCycle, day: Day) -> bool
    requires closed { c.now.closing < c.now.due }
    ensures { (holidays : List ℕ) → StandsFor holidays posts.now → result ≡ payments.is_owed_sixty_days posts.now.corrected day c.now }
{
    c.due.number() + LATE_DAYS < day.number() && falls_short(posts, c.closing.next(), day, asked(c))
}
