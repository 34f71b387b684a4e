// What earlier payments left of a minimum payment.
ghost use Rattle.std.specs.Prelude.{◌≡◌, ℕ, ◌<◌, List};
ghost use Rattle.card_fees.specs.Tallied.{IsTallyOf, StaysRight};
ghost use Rattle.card_model.specs.Payments.{left_before};
ghost use Rattle.card_posts.specs.Posted.{StandsFor};

use crate::DueCycle;
use crate::due_cycle::{asked, left_of};
use crate::tally::Tally;
use card_events::Day;
use card_posts::Posts;

/// What is left of a cycle's minimum payment for the payment with this number, whose effective day is this one, in cents (12
/// CFR 1026.53(a)): the minimum payment less the payments that are folded before it, with effective days after the cycle's
/// closing, without those that a Return before it takes back; not below 0, and 0 without a due payment. The payments folded
/// before are those of earlier days, and of the same day those with smaller numbers. The cycle closed before the day. What the
/// tally counted is right for these posts, and stays so. The corrected list is that of the posts under some calendar. It takes
/// no memory.
pub fn minimum_left(posts: &Posts, c: &DueCycle, day: Day, number: u32, tally: &mut Tally) -> u64
    requires closed { c.now.closing < day }
    ensures value { (holidays : List ℕ) (last : ℕ) → StandsFor holidays posts.now → IsTallyOf posts.now.corrected last tally.old → result ≡ left_before posts.now.corrected day number c.now }
    ensures tally { StaysRight posts.now day tally.old tally.new }
{
    let _last = day.number();
    let amount = asked(c);
    if amount == 0 {
        return 0;
    }
    tally.reach(posts, c.closing.next(), day, number);
    left_of(amount, tally.paid)
}
