// The accepted posts of an account, and what each of them changes.
ghost use Rattle.std.specs.Prelude.{◌≡◌, IfOk, IfSome, OnOk, true};
ghost use Rattle.card_events.specs.Billing.{IsCloseDay};
ghost use Rattle.card_events.specs.History.{anchor_of, is_open, terms_in};
ghost use Rattle.card_posts.specs.Posted.{IsReceived, StandsFor, target_of};

use crate::values::{day, name};
use card_events::{Calendar, Day, Name, Post, Request, Slot};
use card_lines::{Line, read_line};
use card_posts::Posts;
use std::alloc::Global;
use std::process::Abort;
use std::test::Fail;

// Posts of an account of 2024-03-01 whose cycles close on the 5th, and the first day on which the corrected list differs. The
// due date of 2024-06-01 is a Saturday; the payment by mail of the next Monday counts for it.
static POSTS: [(&str, i32); 8] = [
    ("charge a c 2024-03-10 purchase 10000", 19_792),
    ("payment a p 2024-06-03 600 mail 6000", 19_875),
    ("return a r 2024-06-02 3", 19_876),
    ("dispute a C 2024-03-20 2 3000", 19_802),
    ("resolve a a 2024-04-01 5 3000", 19_792),
    ("amend a m 3 2024-05-20 4000", 19_863),
    ("penalty a n", 19_905),
    ("amend a b 2 2024-04-10 2000", 19_792),
];

// The posts in the order of the fold, by number, day and cents.
static ORDER: [(u32, i32, i64); 9] = [
    (1, 19_783, 0),
    (2, 19_823, 0),
    (5, 19_823, 3_000),
    (6, 19_823, 3_000),
    (9, 19_823, 2_000),
    (3, 19_863, 4_000),
    (7, 19_863, 4_000),
    (4, 19_876, 0),
    (8, 19_905, 0),
];

// The key and the post of a line.
fn post_of(line: &str) -> Result<(Name, Post), Fail> {
    match read_line(line.as_bytes()) {
        Line::Request(Request::Post { key, post, .. }) => Ok((key, post)),
        _ => Err(Fail::from("no post")),
    }
}

// The number of the post that a post is about, or 0.
fn target_of(post: &Post) -> u64
    ensures { result ≡ target_of post.now }
{
    match post {
        Post::Return { target, .. }
        | Post::Dispute { target, .. }
        | Post::Resolve { target, .. }
        | Post::Amend { target, .. } => target.get(),
        _ => 0,
    }
}

fn is_received(opened: Day, accepted: Day, post: &Post) -> bool
    ensures { result ≡ true → IsReceived opened accepted post.now }
{
    match post {
        Post::Payment { day, minute, .. } => {
            opened <= *day && *day <= accepted && minute.get() <= 1_439
        }
        Post::Amend { day, .. } => opened <= *day && *day <= accepted,
        _ => true,
    }
}

fn opened(posts: &Posts) -> Option<Day>
    ensures { IfSome result (λ d. d ≡ (anchor_of posts.now.history).opened) }
{
    match posts.get(1) {
        Some(kept) => match kept.post {
            Post::Open { day, .. } => Some(day),
            _ => None,
        },
        None => None,
    }
}

// Accepts a post on 2024-07-01, and answers the first day that differs.
fn push(
    rt: &impl Abort,
    alloc: Global,
    posts: &mut Posts,
    line: &str,
    calendar: &Calendar,
) -> Result<i32, Fail>
    requires { StandsFor calendar.now posts.old }
    ensures { OnOk result (StandsFor calendar.now posts.new) }
{
    let (key, post) = post_of(line)?;
    let accepted = day(rt, 19_905);
    assert!(rt; posts.len() < 200_000);
    assert!(rt; target_of(&post) <= u64::from(posts.len()));
    let first = opened(posts).expect(rt, "an opening");
    assert!(rt; is_received(first, accepted, &post));
    let pushed = posts.push(alloc, key, accepted, &post, calendar)?;
    Ok(pushed.from.number())
}

fn opens(post: &Post) -> bool
    ensures opens { result ≡ true → is_open post.now ≡ true }
    ensures close_day { result ≡ true → IsCloseDay (terms_in post.now).close }
{
    match post {
        Post::Open { terms, .. } => 1 <= terms.close.get() && terms.close.get() <= 28,
        _ => false,
    }
}

fn open(rt: &impl Abort, alloc: Global, calendar: &Calendar) -> Result<Posts, Fail>
    ensures { IfOk result (λ posts. StandsFor calendar.now posts) }
{
    let line = "open a o 2024-03-01 5 1999 2499 2199 2999 2500 100";
    let (key, post) = post_of(line)?;
    assert!(rt; opens(&post));
    Ok(Posts::start(alloc, &key, day(rt, 19_783), &post)?)
}

fn account(rt: &impl Abort, alloc: Global, calendar: &Calendar) -> Result<Posts, Fail>
    ensures { IfOk result (λ posts. StandsFor calendar.now posts) }
{
    let mut posts = open(rt, alloc, calendar)?;
    for &(line, from) in &POSTS {
        let first = push(rt, alloc, &mut posts, line, calendar)?;
        assert!(rt; first == from, "{line}");
    }
    Ok(posts)
}

// Whether these are the posts in the order of the fold.
fn are_ordered(slots: &[Slot]) -> bool {
    for (slot, &(number, day, cents)) in slots.iter().zip(&ORDER) {
        if slot.number != number || slot.day.number() != day || slot.cents != cents {
            return false;
        }
    }
    slots.len() == ORDER.len()
}

#[test]
fn later_posts_correct_earlier_ones(rt: HostRuntime) -> Result<(), Fail> {
    let alloc = rt.alloc();
    let posts = account(&rt, alloc, &Calendar::new(alloc))?;
    let copy = posts.copy(alloc)?;
    assert!(rt; are_ordered(copy.in_order()));
    let key = name(&rt, "C");
    assert!(rt; copy.with_key(&key) == Some(5));
    Ok(())
}
