use crate::correction::{Correction, nothing, with_post};
use crate::make::make_room_in;
use card_events::{NoMemory, Post};
use std::alloc::Global;
use std::marker::Model;

// What is said of the post with a number.
#[derive(Clone, Copy)]
pub struct Said {
    pub number: u32,
    pub correction: Correction,
}

// What later posts say of each post. It holds those posts alone of which something was said, by number, and how many posts there
// are.
#[derive(Drop)]
pub struct CorrectionTable {
    count: u32,
    said: Vec<Said>,
}

impl Model for CorrectionTable {
    ghost use Rattle.std.specs.Prelude.{vec_len, vec_capacity};
    ghost use Rattle.card_posts.specs.Later.{AreSaid, Later, each_from};

    ghost Value = { Later };

    ghost view = { λ t. record { each = each_from 1 t.count t.said.items; held = vec_len t.said; places = vec_capacity t.said } };

    ghost invariant = { λ t. AreSaid t.count t.said.items };
}

ghost use Rattle.std.specs.Prelude.{◌≡◌, ◌<◌, ◌&&◌, ◌==◌, nat_lt, length, slice_index_or, vec_len, vec_capacity};
ghost use Rattle.card_posts.specs.Later.{AreAscending, IsPlaceOf, IsPut, said_of};
ghost use Rattle.card_posts.specs.declared.correction_table.Said.{Said};

// where a post belongs among those of which something is said
fn place_of(said: &[Said], number: u32) -> usize
    requires { AreAscending 1 said.now }
    ensures { IsPlaceOf number said.now result }
{
    said.partition_point(|other| other.number < number)
}

// whether something is said of the post at its place
fn is_there(said: &[Said], at: usize, number: u32) -> bool
    ensures { (d : Said) → result ≡ nat_lt at (length said.now) && ((slice_index_or said.now at d).number == number) }
{
    at < said.len() && said[at].number == number
}

// what is said of a post
fn find(said: &[Said], number: u32) -> Correction
    requires { AreAscending 1 said.now }
    ensures { result ≡ said_of number said.now }
{
    let at = place_of(said, number);
    if is_there(said, at, number) {
        said[at].correction
    } else {
        nothing()
    }
}

// Puts this in place of what was said of a post, with room for one more.
fn put(said: &mut Vec<Said>, number: u32, correction: Correction)
    requires some { 0 < number }
    requires ascending { AreAscending 1 said.old.items }
    requires room { vec_len said.old < vec_capacity said.old }
    ensures { IsPut number correction said.old.items said.new.items }
{
    let at = place_of(said, number);
    let now = Said { number, correction };
    if is_there(said, at, number) {
        said[at] = now;
    } else {
        let _ = said.insert(at, now);
    }
}

impl CorrectionTable {
    ghost use Rattle.std.specs.Prelude.{◌≡◌, ◌-◌, ◌<◌, ◌≤◌, ◌++◌, [], ◌∷◌, IfOk, OnOk, length, slice_index_or, slice_set, take};
    ghost use Rattle.card_events.specs.Limits.{post_limit};
    ghost use Rattle.card_posts.specs.Corrections.{with_post};
    ghost use Rattle.card_posts.specs.Later.{HasSpare, nothing};
    ghost use Rattle.card_posts.specs.declared.correction.Correction.{Correction};

    // One post, of which nothing is said, with room for what is said of one.
    pub fn of_one(alloc: Global) -> Result<CorrectionTable, NoMemory>
        ensures each { IfOk result (λ t. t.each ≡ nothing ∷ []) }
        ensures spare { IfOk result HasSpare }
    {
        let mut said = Vec::new(alloc);
        make_room_in(&mut said, 1)?;
        Ok(CorrectionTable { count: 1, said })
    }

    // Makes room for what is said of one post more. If memory runs out, the table says the same.
    pub fn make_room(&mut self) -> Result<(), NoMemory>
        ensures each { self.new.each ≡ self.old.each }
        ensures spare { HasSpare self.old → HasSpare self.new }
        ensures room { OnOk result (HasSpare self.new) }
    {
        make_room_in(&mut self.said, 1)
    }

    // The same table in memory of its own, with room for what is said of one post more.
    pub fn copy(&self, alloc: Global) -> Result<CorrectionTable, NoMemory>
        ensures each { IfOk result (λ t. t.each ≡ self.now.each) }
        ensures spare { IfOk result HasSpare }
    {
        let mut said = Vec::from_slice(alloc, &self.said)?;
        said.reserve_exact(1)?;
        Ok(CorrectionTable {
            count: self.count,
            said,
        })
    }

    // What is said of post i + 1.
    pub fn at(&self, i: usize) -> Correction
        requires { i < length self.now.each }
        ensures { (d : Correction) → result ≡ slice_index_or self.now.each i d }
    {
        find(&self.said, i as u32 + 1)
    }

    // Adds what one more post says of an earlier one. It doesn't allocate: there is room.
    pub fn say(&mut self, number: u64, post: &Post)
        requires some { 0 < number }
        requires known { number ≤ length self.old.each }
        requires room { HasSpare self.old }
        ensures { (d : Correction) → self.new.each ≡ slice_set self.old.each (number - 1) (with_post post.now (slice_index_or self.old.each (number - 1) d)) }
    {
        let before = self.at(number as usize - 1);
        let now = with_post(&before, post);
        put(&mut self.said, number as u32, now);
    }

    // One more post, of which nothing is said.
    pub fn push(&mut self)
        requires { length self.old.each < post_limit }
        ensures each { self.new.each ≡ self.old.each ++ nothing ∷ [] }
        ensures spare { HasSpare self.old → HasSpare self.new }
    {
        self.count += 1;
    }

    // Takes the last post out, with what is said of it.
    pub fn pop(&mut self)
        requires { 1 ≤ length self.old.each }
        ensures each { self.new.each ≡ take (length self.old.each - 1) self.old.each }
        ensures spare { HasSpare self.old → HasSpare self.new }
    {
        let at = place_of(&self.said, self.count);
        self.said.truncate(at);
        self.count -= 1;
    }
}
