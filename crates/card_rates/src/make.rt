// The lists of an account, read from its posts.
ghost use Rattle.std.specs.Prelude.{◌≡◌, ◌+◌, ◌<◌, ◌≤◌, ◌++◌, [], length, OnOk, IfOk, Some};
ghost use Rattle.std.specs.List.{All, cons_option, count_by, filter_map};
ghost use Rattle.card_events.specs.History.{adds_segment, at_number, opening_in, terms_in};
ghost use Rattle.card_events.specs.Money.{rate_limit};
ghost use Rattle.card_model.specs.Accepted.{HasFewRates, posted_rate};
ghost use Rattle.card_model.specs.Rates.{lowering_of};
ghost use Rattle.card_model.specs.Segments.{opening_vintage, opening_vintages, segment_of};
ghost use Rattle.card_rates.specs.Added.{added_from};

use crate::rate::no_rate;
use crate::segment::{RateCap, RatedSegment, number_of, plan_sort, sort_of};
use card_events::{Bp, Day, Kept, NoMemory, Num, Post};
use card_model::Sort;
use card_posts::{Posts, VINTAGE_DAYS};
use std::alloc::Global;

fn rate_of(points: Num) -> Bp
    requires { points ≤ rate_limit }
    ensures { result ≡ points }
{
    Bp::new(points.get()).unwrap()
}

// the segment that a post adds
fn segment_in(id: u8, number: u32, post: &Post) -> Option<RatedSegment>
    requires { posted_rate post.now ≤ rate_limit }
    ensures { result ≡ segment_of id number post.now }
{
    match post {
        Post::Plan {
            day,
            kind,
            rate,
            end,
            after,
        } => Some(RatedSegment {
            id,
            sort: plan_sort(*kind),
            post: number,
            begins: number_of(*day),
            ends: Some(*end),
            rate: rate_of(*rate),
            effective: *day,
            after: rate_of(*after),
        }),
        Post::Notice {
            day,
            category,
            rate,
            effective,
        } => Some(RatedSegment {
            id,
            sort: sort_of(*category),
            post: number,
            begins: number_of(*day) + VINTAGE_DAYS,
            ends: None,
            rate: rate_of(*rate),
            effective: *effective,
            after: no_rate(),
        }),
        _ => None,
    }
}

// what a Lower caps
fn cap_in(post: &Post) -> Option<RateCap>
    requires { posted_rate post.now ≤ rate_limit }
    ensures { result ≡ lowering_of post.now }
{
    match post {
        Post::Lower {
            day,
            category,
            rate,
        } => Some(RateCap {
            sort: sort_of(*category),
            day: *day,
            rate: rate_of(*rate),
        }),
        _ => None,
    }
}

// a vintage that stands from the opening day on
fn vintage(id: u8, sort: Sort, opened: Day, rate: Bp) -> RatedSegment
    ensures { result ≡ opening_vintage id sort opened rate }
{
    RatedSegment {
        id,
        sort,
        post: 1,
        begins: number_of(opened),
        ends: None,
        rate,
        effective: opened,
        after: no_rate(),
    }
}

// The three vintages of the post that opens an account.
pub fn first_segments(alloc: Global, opening: &Post) -> Result<Vec<RatedSegment>, NoMemory>
    requires opens { 1 ≤ (terms_in opening.now).close }
    requires rates { posted_rate opening.now ≤ rate_limit }
    ensures { IfOk result (λ segments. segments.items ≡ opening_vintages (opening_in opening.now) (terms_in opening.now)) }
{
    match opening {
        Post::Open { day, terms } | Post::OpenVariable { day, terms } => {
            let mut segments = Vec::new(alloc);
            segments.push(vintage(2, Sort::Purchase, *day, rate_of(terms.purchase)))?;
            segments.push(vintage(3, Sort::Cash, *day, rate_of(terms.cash)))?;
            segments.push(vintage(4, Sort::Transfer, *day, rate_of(terms.transfer)))?;
            Ok(segments)
        }
        _ => unreachable!(),
    }
}

// The penalty rate of the post that opens an account.
pub fn penalty_rate_in(opening: &Post) -> Bp
    requires opens { 1 ≤ (terms_in opening.now).close }
    requires rates { posted_rate opening.now ≤ rate_limit }
    ensures { result ≡ (terms_in opening.now).penalty }
{
    match opening {
        Post::Open { terms, .. } | Post::OpenVariable { terms, .. } => rate_of(terms.penalty),
        _ => unreachable!(),
    }
}

// The post with a number.
pub fn post_of(posts: &Posts, number: u32) -> &Kept
    requires low { 1 ≤ number }
    requires high { number ≤ length posts.now.history }
    ensures { at_number number posts.now.history ≡ Some result.now }
{
    match posts.get(number) {
        Some(kept) => kept,
        None => unreachable!(),
    }
}

// adds what a post brings: a segment with the next number, or a Lower
fn add(
    segments: &mut Vec<RatedSegment>,
    caps: &mut Vec<RateCap>,
    number: u32,
    post: &Post,
) -> Result<(), NoMemory>
    requires rates { posted_rate post.now ≤ rate_limit }
    requires few { length segments.old.items ≤ 62 }
    ensures segments { OnOk result (segments.new.items ≡ segments.old.items ++ cons_option (segment_of (length segments.old.items + 2) number post.now) []) }
    ensures caps { OnOk result (caps.new.items ≡ caps.old.items ++ cons_option (lowering_of post.now) []) }
{
    let id = segments.len() as u8 + 2;
    if let Some(segment) = segment_in(id, number, post) {
        segments.push(segment)?;
    }
    if let Some(cap) = cap_in(post) {
        caps.push(cap)?;
    }
    Ok(())
}

// Adds what all posts bring. Most often the last that brings something stands far in front.
pub fn add_all(
    segments: &mut Vec<RatedSegment>,
    caps: &mut Vec<RateCap>,
    posts: &Posts,
) -> Result<(), NoMemory>
    requires rates { All HasFewRates posts.now.history }
    requires few { length segments.old.items + count_by (λ k. adds_segment k.post) posts.now.history ≤ 62 }
    ensures segments { OnOk result (segments.new.items ≡ segments.old.items ++ added_from 1 (length segments.old.items + 2) posts.now.history) }
    ensures caps { OnOk result (caps.new.items ≡ caps.old.items ++ filter_map (λ k. lowering_of k.post) posts.now.history) }
{
    for i in 0..posts.rated() {
        add(segments, caps, i + 1, &post_of(posts, i + 1).post)?;
    }
    Ok(())
}
