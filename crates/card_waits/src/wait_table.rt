use crate::post::{awaited, waits};
use card_events::{Kept, NoMemory, Post};
use std::alloc::Global;
use std::marker::Model;

/// The posts of an account that wait: their numbers, ascending, and for each post the number of the first one that waits for it, 0
/// for none.
#[derive(Drop)]
pub struct WaitTable {
    waiting: Vec<u32>,
    by: Vec<u32>,
}

impl Model for WaitTable {
    ghost use Rattle.std.specs.Prelude.{vec_len, vec_capacity};
    ghost use Rattle.card_waits.specs.Waits.{Waits};

    ghost Value = { Waits };

    ghost view = { λ w. record { waiting = w.waiting.items; by = w.by.items; waiting_count = vec_len w.waiting; waiting_capacity = vec_capacity w.waiting; count = vec_len w.by; capacity = vec_capacity w.by } };
}

ghost use Rattle.std.specs.Prelude.{◌≡◌, ℕ, ◌-◌, ◌<◌, ◌≤◌, ◌++◌, List, length, take, false, vec_len, vec_capacity};
ghost use Rattle.card_waits.specs.Waits.{IsReplaced, own_number, waits};

// Puts a number in place of another one for the post with a number.
fn replace(by: &mut Vec<u32>, target: u64, before: u32, after: u32)
    requires { target ≤ length by.old.items }
    ensures items { IsReplaced target before after by.old.items by.new.items }
    ensures len { vec_len by.new ≡ vec_len by.old }
    ensures capacity { vec_capacity by.new ≡ vec_capacity by.old }
{
    if target > 0 && by[target as usize - 1] == before {
        by[target as usize - 1] = after;
    }
}

// Puts the number of the next post behind the others, where it waits.
fn enter_waiting(waiting: &mut Vec<u32>, post: &Post, number: u32)
    requires { vec_len waiting.old < vec_capacity waiting.old }
    ensures items { waiting.new.items ≡ waiting.old.items ++ own_number number post.now }
    ensures spare { waits post.now ≡ false → vec_len waiting.new < vec_capacity waiting.new }
{
    if waits(post) {
        waiting.push_reserved(number);
    }
}

// Takes the number of the last post out again, where it waits.
fn leave_waiting(waiting: &mut Vec<u32>, last: &Post)
    requires spare { waits last.now ≡ false → vec_len waiting.old < vec_capacity waiting.old }
    ensures items { (front : List ℕ) (number : ℕ) → waiting.old.items ≡ front ++ own_number number last.now → waiting.new.items ≡ front }
    ensures room { (front : List ℕ) (number : ℕ) → waiting.old.items ≡ front ++ own_number number last.now → vec_len waiting.new < vec_capacity waiting.new }
{
    if waits(last) {
        let _ = waiting.pop();
    }
}

// Takes the number that is kept for the last post out again.
fn leave_by(by: &mut Vec<u32>)
    requires { 1 ≤ length by.old.items }
    ensures items { by.new.items ≡ take (length by.old.items - 1) by.old.items }
    ensures room { vec_len by.new < vec_capacity by.new }
{
    let _ = by.pop();
}

impl WaitTable {
    ghost use Rattle.std.specs.Prelude.{◌≡◌, ◌+◌, ◌<◌, ◌≤◌, ◌++◌, List, [], ◌∷◌, length, IfOk, OnOk};
    ghost use Rattle.card_events.specs.Limits.{post_limit};
    ghost use Rattle.card_events.specs.declared.kept.Kept.{Kept};
    ghost use Rattle.card_waits.specs.Waits.{AreWaits, HasRoom, awaited, first_by, if_any};

    /// There is no post.
    pub fn new(alloc: Global) -> Result<WaitTable, NoMemory>
        ensures { IfOk result (AreWaits []) }
    {
        let mut waiting = Vec::new(alloc);
        waiting.reserve(1)?;
        Ok(WaitTable {
            waiting,
            by: Vec::new(alloc),
        })
    }

    /// Makes room for one post more. If memory runs out, the table says the same.
    pub fn make_room(&mut self) -> Result<(), NoMemory>
        ensures waits { (history : List Kept) → AreWaits history self.old → AreWaits history self.new }
        ensures room { OnOk result (HasRoom self.new) }
    {
        self.waiting.reserve(1)?;
        self.by.reserve(1)?;
        Ok(())
    }

    /// The same table in memory of its own.
    pub fn copy(&self, alloc: Global) -> Result<WaitTable, NoMemory>
        ensures { (history : List Kept) → AreWaits history self.now → IfOk result (AreWaits history) }
    {
        let mut waiting = Vec::from_slice(alloc, &self.waiting)?;
        waiting.reserve(1)?;
        Ok(WaitTable {
            waiting,
            by: Vec::from_slice(alloc, &self.by)?,
        })
    }

    /// One more post, which waits for an earlier one or for none. It doesn't allocate: there is room.
    pub fn enter(&mut self, post: &Post)
        requires few { length self.old.by < post_limit }
        requires earlier { awaited post.now ≤ length self.old.by }
        requires room { HasRoom self.old }
        ensures { (history : List Kept) (k : Kept) → k.post ≡ post.now → AreWaits history self.old → AreWaits (history ++ k ∷ []) self.new }
    {
        let number = self.by.len() as u32 + 1;
        enter_waiting(&mut self.waiting, post, number);
        self.by.push_reserved(0);
        replace(&mut self.by, awaited(post), 0, number);
    }

    /// Takes the last post out again, which stood behind these. It doesn't allocate, and leaves room for one post.
    pub fn leave(&mut self, history: &[Kept], last: &Kept)
        requires few { length history.now < post_limit }
        requires waits { AreWaits (history.now ++ last.now ∷ []) self.old }
        ensures waits { AreWaits history.now self.new }
        ensures room { HasRoom self.new }
    {
        leave_waiting(&mut self.waiting, &last.post);
        leave_by(&mut self.by);
        let number = history.len() as u32 + 1;
        replace(&mut self.by, awaited(&last.post), number, 0);
    }

    /// The number of the first post that waits for the one with this number. None comes exactly where none does.
    pub fn by(&self, number: u32) -> Option<u32>
        requires some { 0 < number }
        ensures { (history : List Kept) → AreWaits history self.now → result ≡ if_any (first_by number history) }
    {
        match self.by.get(number as usize - 1) {
            Some(first) if *first != 0 => Some(*first),
            _ => None,
        }
    }

    /// The numbers of the posts that wait, ascending.
    pub fn waiting(&self) -> &[u32]
        ensures { result.now ≡ self.now.waiting }
    {
        &self.waiting
    }
}
