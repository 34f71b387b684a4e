use card_events::NoMemory;
use std::alloc::Global;
use std::marker::Model;

/// The posts of an account in buckets by the hashes of their keys: the number of the last post of each bucket, and for each post
/// that of the last one before it in the same bucket, 0 for none.
#[derive(Drop)]
pub struct KeyTable {
    heads: Vec<u32>,
    earlier: Vec<u32>,
}

impl Model for KeyTable {
    ghost use Rattle.std.specs.Prelude.{vec_len, vec_capacity};
    ghost use Rattle.card_keys.specs.Buckets.{Indexed};

    ghost Value = { Indexed };

    ghost view = { λ i. record { heads = i.heads.items; earlier = i.earlier.items; count = vec_len i.earlier; capacity = vec_capacity i.earlier } };
}

impl KeyTable {
    ghost use Rattle.std.specs.Prelude.{◌≡◌, ℕ, ◌+◌, ◌-◌, ◌<◌, ◌≤◌, List, [], length, slice_index_or, IfOk, OnOk, OnErr};
    ghost use Rattle.card_events.specs.declared.kept.Kept.{Kept};
    ghost use Rattle.card_keys.specs.Buckets.{HasRoom, IsIndex, Enters, Leaves};

    /// No post has a key; so many buckets, one or more.
    pub fn new(alloc: Global, buckets: usize) -> Result<KeyTable, NoMemory>
        requires { 0 < buckets }
        ensures { IfOk result (IsIndex []) }
    {
        Ok(KeyTable {
            heads: vec![in alloc; 0; buckets]?,
            earlier: Vec::new(alloc),
        })
    }

    /// Makes room for this many posts more.
    pub fn reserve(&mut self, posts: usize) -> Result<(), NoMemory>
        ensures index { (history : List Kept) → IsIndex history self.old → IsIndex history self.new }
        ensures ok { OnOk result (HasRoom posts self.new) }
    {
        self.earlier.reserve(posts)?;
        Ok(())
    }

    /// The same table in memory of its own.
    pub fn copy(&self, alloc: Global) -> Result<KeyTable, NoMemory>
        ensures { (history : List Kept) → IsIndex history self.now → IfOk result (IsIndex history) }
    {
        let heads = Vec::from_slice(alloc, &self.heads)?;
        let earlier = Vec::from_slice(alloc, &self.earlier)?;
        Ok(KeyTable { heads, earlier })
    }

    // how many buckets
    pub(crate) fn size(&self) -> usize
        ensures { result ≡ length self.now.heads }
    {
        self.heads.len()
    }

    // the number of the last post in a bucket, 0 for none
    pub(crate) fn last(&self, bucket: usize) -> u32
        requires { bucket < length self.now.heads }
        ensures { (d : ℕ) → result ≡ slice_index_or self.now.heads bucket d }
    {
        self.heads[bucket]
    }

    // the number of the last post before one, in the same bucket
    pub(crate) fn before(&self, number: u32) -> u32
        requires low { 0 < number }
        requires high { number ≤ length self.now.earlier }
        ensures { (d : ℕ) → result ≡ slice_index_or self.now.earlier (number - 1) d }
    {
        self.earlier[number as usize - 1]
    }

    // one more post
    pub(crate) fn enter(&mut self, bucket: usize, number: u32)
        requires bucket { bucket < length self.old.heads }
        requires room { HasRoom 1 self.old }
        ensures { Enters bucket number self.old self.new }
    {
        let before = self.heads[bucket];
        let _ = self.earlier.push(before);
        self.heads[bucket] = number;
    }

    // the last post taken out again, which is in this bucket
    pub(crate) fn leave(&mut self, bucket: usize)
        requires { bucket < length self.old.heads }
        ensures { Leaves bucket self.old self.new }
    {
        if let Some(before) = self.earlier.pop() {
            self.heads[bucket] = before;
        }
    }
}
