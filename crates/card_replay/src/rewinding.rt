// Going back behind what a post changes, to a day from which the account is folded on.
ghost use Rattle.std.specs.Prelude.{◌≡◌, ℕ, ◌-◌, ◌<◌, ◌≤◌, true, false, length, min, IfOk, None, Some};
ghost use Rattle.card_events.specs.Billing.{cycle_of};
ghost use Rattle.card_events.specs.Range.{last_request_day};
ghost use Rattle.card_model.specs.CycleDays.{IsOpening};
ghost use Rattle.card_model.specs.Unread as unread;
ghost use Rattle.card_model.specs.Cycles.{Cycle};
ghost use Rattle.card_model.specs.Folds.{cycle_at};
ghost use Rattle.card_daily.specs.Given.{Given};
ghost use Rattle.card_book.specs.Rewound.{AreFolded};
ghost use Rattle.card_book.specs.GoingOn as going;
ghost use Rattle.card_events.specs.declared.post.Post.{Post};
ghost use Rattle.card_book.specs.Laws.{is_bill};
ghost use Rattle.card_replay.specs.Needs as needs;
ghost use Rattle.card_replay.specs.Replays.{day_of, day_reached};
ghost use Rattle.card_replay.specs.Rewinds.{IsAgain, IsAtBeginning, IsAtClosing, MayBegin, MayGoBackOn, MayRewind, cycle_before};

use crate::change::TakenBack;
use crate::foretold::earlier;
use card_book::{Book, Inputs};
use card_events::{Anchor, Day, NoMemory, Post, cycle_of};
use card_past::{BookIfAny, Ends, Eve, Past, ends_at, first_ends};
use std::alloc::Global;

/// The Book at the closing of a cycle, and where what is recorded up to then ends.
#[derive(Drop)]
pub struct Earlier {
    pub book: Book,
    pub ends: Ends,
}

/// Whether no fold reads a post: a Review, an Ack, an AskRefund or a Bill. What a Bill issues changes no day up to its own.
pub fn is_unread(post: &Post) -> bool
    ensures { result ≡ unread.is_unread post.now }
{
    matches!(
        post,
        Post::Review { .. } | Post::Ack { .. } | Post::AskRefund { .. } | Post::Bill { .. }
    )
}

/// Whether a post adds a segment or sets a rate: a Plan, a Notice or a Lower.
pub fn sets_rates(post: &Post) -> bool
    ensures { result ≡ going.sets_rates post.now }
{
    matches!(
        post,
        Post::Plan { .. } | Post::Notice { .. } | Post::Lower { .. }
    )
}

fn is_bill(post: &Post) -> bool
    ensures { result ≡ is_bill post.now }
{
    matches!(post, Post::Bill { .. })
}

/// Whether an account has to reach today before a post is prepared: one that sets rates, since a Book of an earlier day has the
/// rates of the posts up to then, or a Bill, whose row is read off the book of today.
pub fn needs_today(post: &Post) -> bool
    ensures { result ≡ needs.needs_today post.now }
{
    sets_rates(post) || is_bill(post)
}

/// How many cycles closed before the one that a day lies in, none where it comes before the opening.
pub fn cycles_before(anchor: &Anchor, day: Day) -> u32
    requires opening { IsOpening anchor.now }
    requires last { day ≤ last_request_day }
    ensures { result ≡ cycle_of anchor.now day - 1 }
{
    if day < anchor.opened {
        0
    } else {
        cycle_of(*anchor, day) - 1
    }
}

/// How many cycles closed before the one that the earlier of a day and the last day folded lies in, none where no day is folded.
pub fn closed_before(anchor: &Anchor, book: &BookIfAny, from: Day) -> u32
    requires opening { IsOpening anchor.now }
    ensures { result ≡ cycle_of anchor.now (min from (day_reached anchor.now.opened (day_of book.now))) - 1 }
{
    match book.day() {
        Some(reached) => {
            let day = earlier(from, reached);
            cycles_before(anchor, day)
        }
        None => 0,
    }
}

/// The last day folded, where it isn't before a day.
pub fn folded_since(book: &BookIfAny, from: Day) -> Option<Day>
    ensures some { (day : ℕ) → result ≡ Some day → (day_of book.now ≡ Some day) × (from ≤ day) }
    ensures none { result ≡ None → (day : ℕ) → day_of book.now ≡ Some day → day < from }
{
    match book.day() {
        Some(day) => { if from <= day { Some(day) } else { None } }
        None => None,
    }
}

/// Whether this is the last day folded.
pub fn is_folded_to(book: &BookIfAny, today: Day) -> bool
    ensures folded { result ≡ true → day_of book.now ≡ Some today }
    ensures whenever { day_of book.now ≡ Some today → result ≡ true }
{
    match book.day() {
        Some(day) => day == today,
        None => false,
    }
}

// Back to the closing of a cycle: with the rates of the posts up to then.
fn at_closing(alloc: Global, cycle: u32, book: &Book, past: &Past) -> Result<Earlier, NoMemory>
    requires folded { AreFolded book.now past.now.track }
    requires some { 1 ≤ cycle }
    requires closed { cycle ≤ length past.now.track.cycles.items }
    requires marked { length past.now.since.items ≡ length past.now.track.cycles.items }
    ensures { IfOk result (IsAtClosing cycle book.now past.now) }
{
    // Behind a closing the next cycle has no rows yet, and the cycle's record counts the entries.
    let since = past.since[cycle as usize - 1];
    let ends = ends_at(past, cycle);
    let earlier = book.rewound(alloc, &past.track, cycle, since, &past.accrued)?;
    Ok(Earlier {
        book: earlier,
        ends,
    })
}

// Back to the last closing before a change, with the segments and rates of all posts.
fn with_rates(
    alloc: Global,
    inputs: &Inputs,
    post: &Post,
    from: Day,
    cycle: u32,
    reached: Day,
    book: &Book,
    past: &Past,
) -> Result<TakenBack, NoMemory>
    requires change { MayRewind inputs.now post.now from reached book.now past.now }
    requires number { cycle ≡ cycle_before inputs.now from }
    requires some { 1 ≤ cycle }
    ensures { IfOk result (IsAgain inputs.now from reached past.now) }
{
    let earlier = at_closing(alloc, cycle, book, past)?;
    let renewed = earlier.book.renewed(alloc, inputs)?;
    let book = BookIfAny::of(alloc, renewed)?;
    Ok(TakenBack {
        book,
        ends: earlier.ends,
    })
}

// Back before the opening day, where there is no Book. It doesn't allocate.
fn at_beginning() -> TakenBack
    ensures { IsAtBeginning result }
{
    TakenBack {
        book: BookIfAny::none(),
        ends: first_ends(),
    }
}

/// Goes back behind what one more post changes that sets rates, over inputs with that post: to the last closing before it, with the
/// segments and rates of all posts, or before the opening day. The Book of the day reached and the past stand for the account without
/// the post. Nothing is folded.
pub fn rewind(
    alloc: Global,
    inputs: &Inputs,
    post: &Post,
    from: Day,
    reached: Day,
    book: &Book,
    past: &Past,
) -> Result<TakenBack, NoMemory>
    requires change { MayRewind inputs.now post.now from reached book.now past.now }
    ensures { IfOk result (IsAgain inputs.now from reached past.now) }
{
    let cycle = cycles_before(&inputs.anchor(), from);
    if cycle == 0 {
        return Ok(at_beginning());
    }
    let earlier = with_rates(alloc, inputs, post, from, cycle, reached, book, past)?;
    Ok(earlier)
}

// Whether the cycle with a number, 0 for none, was closed by a day.
fn is_closed_by(past: &Past, cycle: u32, day: Day) -> bool
    requires closed { cycle ≤ length past.now.track.cycles.items }
    ensures { (c : Cycle) → result ≡ true → cycle_at cycle past.now.track.cycles.items ≡ Some c → c.closing ≤ day }
{
    if cycle == 0 {
        return true;
    }
    past.track.cycles[cycle as usize - 1].closing <= day
}

// Whether a change may be taken back to the eve: it comes later, and the cycles that closed before its own were closed by then.
fn may_begin(eve: &Eve, past: &Past, from: Day, cycle: u32) -> bool
    requires closed { cycle ≤ length past.now.track.cycles.items }
    ensures { result ≡ true → MayBegin past.now from cycle eve.now }
{
    eve.day < from && is_closed_by(past, cycle, eve.day)
}

// Back to the closing of a cycle, or, for 0, before the opening day, for a post that sets no rate.
fn at_closing_if_any(
    alloc: Global,
    cycle: u32,
    book: &Book,
    past: &Past,
) -> Result<TakenBack, NoMemory>
    requires folded { AreFolded book.now past.now.track }
    requires closed { cycle ≤ length past.now.track.cycles.items }
    requires marked { length past.now.since.items ≡ length past.now.track.cycles.items }
    ensures { IfOk result (λ r. (old g : Given) (p : Post) (from reached : ℕ) → MayGoBackOn old g p from cycle reached book.now past.now None → IsAgain g from reached past.now r) }
{
    if cycle == 0 {
        return Ok(at_beginning());
    }
    let earlier = at_closing(alloc, cycle, book, past)?;
    let book = BookIfAny::of(alloc, earlier.book)?;
    Ok(TakenBack {
        book,
        ends: earlier.ends,
    })
}

/// Goes back behind what one more post changes that sets no rate: to the eve where that may be, else to the closing of the last cycle
/// before the change, or, for 0, before the opening day. Nothing is folded.
pub fn go_back(
    alloc: Global,
    from: Day,
    cycle: u32,
    book: &Book,
    past: &Past,
    eve: &Option<Eve>,
) -> Result<TakenBack, NoMemory>
    requires folded { AreFolded book.now past.now.track }
    requires closed { cycle ≤ length past.now.track.cycles.items }
    requires marked { length past.now.since.items ≡ length past.now.track.cycles.items }
    ensures { IfOk result (λ r. (old g : Given) (p : Post) (reached : ℕ) → MayGoBackOn old g p from cycle reached book.now past.now eve.now → IsAgain g from reached past.now r) }
{
    // The eve serves posts of today: charges and questions in turn then fold one day each and no cycle.
    match eve {
        Some(eve) if may_begin(eve, past, from, cycle) => Ok(TakenBack {
            book: eve.book.copy(alloc)?,
            ends: eve.ends,
        }),
        _ => at_closing_if_any(alloc, cycle, book, past),
    }
}
