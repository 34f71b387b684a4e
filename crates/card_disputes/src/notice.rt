// The last day for a Dispute of a charge.
ghost use Rattle.std.specs.Prelude.{◌≡◌, ℕ, ◌+◌, ◌≤◌, drop, length, List, IfSome, Some, option_copied, true};
ghost use Rattle.card_events.specs.Range.{last_request_day};
ghost use Rattle.std.specs.List.{find};
ghost use Rattle.std.specs.Option.{option_map};
ghost use Rattle.card_disputes.specs.Histories.{AreInCalendar};
ghost use Rattle.card_disputes.specs.Notices.{charge_day, charge_own, notice_end_at};
ghost use Rattle.card_events.specs.History.{amended_day, at_number, last_amend};
ghost use Rattle.card_events.specs.declared.kept.Kept.{Kept};
ghost use Rattle.card_model.specs.Deadlines as spec;
ghost use Rattle.card_model.specs.Refusals.{holds_of};
ghost use Rattle.card_posts.specs.Posted.{StandsFor, last_accepted};
ghost use Rattle.card_rates.specs.Segments.{ArePostsDated};

use crate::deadline::cycle_on;
use card_events::{Anchor, DISPUTE_DAYS, Day, Kept, Num, Post};
use card_posts::Posts;

/// The post with a number. None comes exactly where no post has it.
pub fn named(posts: &Posts, number: Num) -> Option<&Kept>
    ensures { option_copied result ≡ at_number number posts.now.history }
{
    if number.get() > posts.len() as u64 {
        None
    } else {
        posts.get(number.get() as u32)
    }
}

fn own_day(post: &Post) -> Option<Day>
    ensures { result ≡ charge_own post.now }
{
    match post {
        Post::Charge { day, .. } => Some(*day),
        _ => None,
    }
}

// a day, where it is one of requests
fn requested(day: Day) -> Option<Day>
    ensures dated { IfSome result (λ d. d ≤ last_request_day) }
    ensures value { day ≤ last_request_day → result ≡ Some day }
{
    if day.is_request_day() {
        Some(day)
    } else {
        None
    }
}

// the day of the post with a number as it stands, where that is a charge, whose day is one of requests
fn standing_day(posts: &Posts, number: Num) -> Option<Day>
    requires { ArePostsDated posts.now.history }
    ensures dated { IfSome result (λ d. d ≤ last_request_day) }
    ensures value { (holidays : List ℕ) (k : Kept) (own : ℕ) → StandsFor holidays posts.now → at_number number posts.now.history ≡ Some k → charge_own k.post ≡ Some own → result ≡ Some (amended_day (last_amend number posts.now.history) own) }
{
    match posts.slot(number.get()) {
        Some(slot) => requested(slot.day),
        None => None,
    }
}

// the day of a charge as it stands, none where no charge has the number
fn charge_day(posts: &Posts, charge: Num) -> Option<Day>
    requires { ArePostsDated posts.now.history }
    ensures dated { IfSome result (λ d. d ≤ last_request_day) }
    ensures within { IfSome result (λ d. charge ≤ length posts.now.history) }
    ensures value { (holidays : List ℕ) → StandsFor holidays posts.now → result ≡ charge_day charge posts.now.history }
{
    match named(posts, charge) {
        Some(kept) => match own_day(&kept.post) {
            Some(_) => standing_day(posts, charge),
            None => None,
        },
        None => None,
    }
}

// whether a post is a Bill of this cycle or a later one
fn bills_from(post: &Post, cycle: u32) -> bool
    ensures { result ≡ spec.bills_from cycle post.now }
{
    match post {
        Post::Bill { cycle: other } => cycle as u64 <= other.get(),
        _ => false,
    }
}

// whether the post with a number is one
fn bills_at(posts: &Posts, number: u32, cycle: u32) -> bool
    ensures { result ≡ holds_of (λ k. spec.bills_from cycle k.post) (at_number number posts.now.history) }
{
    match posts.get(number) {
        Some(kept) => bills_from(&kept.post, cycle),
        None => false,
    }
}

// 60 days after the acceptance of the post with a number
fn notice_end_of(posts: &Posts, number: u32) -> Option<Day>
    requires { last_accepted posts.now.history ≤ last_request_day }
    ensures { result ≡ option_map (λ k. k.accepted + 60) (at_number number posts.now.history) }
{
    match posts.get(number) {
        Some(kept) => Some(kept.accepted.plus(DISPUTE_DAYS)),
        None => None,
    }
}

// 60 days after the first Bill of this cycle or a later one behind the post with a number
fn notice_end(posts: &Posts, charge: u32, cycle: u32) -> Option<Day>
    requires accepted { last_accepted posts.now.history ≤ last_request_day }
    ensures { result ≡ notice_end_at charge cycle posts.now.history }
{
    for i in charge..posts.len() {
        if bills_at(posts, i + 1, cycle) {
            return notice_end_of(posts, i + 1);
        }
    }
    None
}

/// The last day for a Dispute of the charge with this number: 60 days after the first statement that reflects it was issued
/// (12 CFR 1026.13(b)(1)). None comes where no statement reflects it yet, and where no charge has the number. The posts were
/// accepted on days of requests. The corrected list is that of the posts under some calendar. It doesn't allocate.
pub fn last_notice_day(posts: &Posts, anchor: &Anchor, charge: Num) -> Option<Day>
    requires posts { AreInCalendar anchor.now posts.now.history }
    ensures { (holidays : List ℕ) → StandsFor holidays posts.now → result ≡ spec.last_notice_day anchor.now posts.now.corrected charge }
{
    // what the length says is needed as a fact: at most 200,000 posts are there, so the number of one is a small one
    let _count = posts.len();
    match charge_day(posts, charge) {
        Some(day) => notice_end(posts, charge.get() as u32, cycle_on(anchor, day)),
        None => None,
    }
}
