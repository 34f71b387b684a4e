//! Laws on the posts of an account. Their functions do nothing; their clauses are what holds.

ghost use Rattle.std.specs.Prelude.{◌≡◌, ℕ, List, map};
ghost use Rattle.card_events.specs.Business.{AgreeUpTo};
ghost use Rattle.card_events.specs.declared.anchor.Anchor.{Anchor};
ghost use Rattle.card_events.specs.History.{corrected, slot_of};
ghost use Rattle.card_events.specs.declared.kept.Kept.{Kept};
ghost use Rattle.card_posts.specs.Order.{on_day};
ghost use Rattle.card_posts.specs.Posted.{StandsFor, folding_order, last_accepted};

use crate::Posts;
use card_events::Calendar;

/// Holidays that are the same up to the last day of acceptance give the same corrected list, so those that are loaded
/// for later days change nothing in it.
pub fn later_holidays(posts: &Posts, these: &Calendar, those: &Calendar)
    requires { AgreeUpTo (last_accepted posts.now.history) these.now those.now }
    ensures { StandsFor these.now posts.now → StandsFor those.now posts.now }
{
    let day = posts.opened();
    let _ = (these.is_business(day), those.is_business(day));
}

/// In the order in which a corrected list is folded, the posts of each day stand in order of acceptance.
pub fn days_by_number()
    ensures { (a : Anchor) (holidays : List ℕ) (history : List Kept) (day : ℕ) → on_day day (folding_order (corrected a holidays history)) ≡ on_day day (map slot_of (corrected a holidays history)) }
{}
