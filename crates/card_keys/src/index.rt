// The numbers of an account's posts by their keys.
ghost use Rattle.std.specs.Prelude.{◌≡◌, ℕ, ◌+◌, ◌<◌, ◌≤◌, ◌++◌, [], ◌∷◌, length, IfOk, OnOk};
ghost use Rattle.card_events.specs.Limits.{post_limit};
ghost use Rattle.card_events.specs.Keys.{with_key};
ghost use Rattle.card_events.specs.declared.kept.Kept.{Kept};
ghost use Rattle.card_keys.specs.Buckets.{HasRoom, IsIndex, bucket, found_at, hash_of, key_of};

use crate::KeyTable;
use card_events::{Kept, Name, NoMemory, numbered};
use std::alloc::Global;

// How many hashes there are: those of 32 bits.
const HASHES: u64 = 4_294_967_296;

// the key of the post with a number
fn key_of(history: &[Kept], number: u32) -> &[u8]
    ensures { result.now ≡ key_of history.now number }
{
    match numbered(history, number as u64) {
        Some(kept) => kept.key.bytes(),
        None => b"",
    }
}

// the hash of a key
#[tactic(auto, unfolding(crate::specs::Buckets::hash_of))]
fn hash_of(key: &[u8]) -> u32
    ensures { result ≡ hash_of key.now }
{
    let mut hash: u64 = 0;
    for byte in key {
        hash = (hash * 31 + *byte as u64) % HASHES;
    }
    hash as u32
}

// the post with a number where it has the key, else the one found so far
fn found_at(history: &[Kept], number: u32, key: &[u8], found: Option<u32>) -> Option<u32>
    ensures { result ≡ found_at history.now number key.now found }
{
    if key_of(history, number) == key {
        Some(number)
    } else {
        found
    }
}

// the bucket of a key
fn bucket_of(key: &[u8], index: &KeyTable) -> usize
    requires { 0 < length index.now.heads }
    ensures bucket { result ≡ bucket (length index.now.heads) key.now }
    ensures within { result < length index.now.heads }
{
    hash_of(key) as usize % index.size()
}

/// The number of the post with a key: the first one, should there be more.
pub fn find(history: &[Kept], index: &KeyTable, key: &Name) -> Option<u32>
    requires { IsIndex history.now index.now }
    ensures { result ≡ with_key key.now history.now }
{
    let key = key.bytes();
    let mut number = index.last(bucket_of(key, index));
    let mut found = None;
    while number != 0 {
        found = found_at(history, number, key, found);
        number = index.before(number);
    }
    found
}

/// Puts the number of the next post, which has this key, into its place. It doesn't allocate: there is room.
pub fn enter_key(history: &[Kept], index: &mut KeyTable, key: &Name)
    requires few { length history.now < post_limit }
    requires index { IsIndex history.now index.old }
    requires room { HasRoom 1 index.old }
    ensures index { (k : Kept) → k.key ≡ key.now → IsIndex (history.now ++ k ∷ []) index.new }
    ensures room { (n : ℕ) → HasRoom (n + 1) index.old → HasRoom n index.new }
{
    let bucket = bucket_of(key.bytes(), index);
    index.enter(bucket, history.len() as u32 + 1);
}

/// Takes the last post out again, which stood behind these. It doesn't allocate, and leaves room for one post.
pub fn leave_key(history: &[Kept], index: &mut KeyTable, last: &Kept)
    requires index { IsIndex (history.now ++ last.now ∷ []) index.old }
    ensures index { IsIndex history.now index.new }
    ensures room { HasRoom 1 index.new }
{
    // Each post has the one before it in its bucket, so the last leaves its room behind. std's map doesn't promise that.
    let bucket = bucket_of(last.key.bytes(), index);
    index.leave(bucket);
}

/// The posts of a history in so many buckets, one or more, in memory of its own, with room for so many posts more.
pub fn rebuilt(
    alloc: Global,
    history: &[Kept],
    buckets: usize,
    posts: usize,
) -> Result<KeyTable, NoMemory>
    requires few { length history.now ≤ post_limit }
    requires some { 0 < buckets }
    requires small { posts ≤ post_limit }
    ensures index { IfOk result (IsIndex history.now) }
    ensures room { IfOk result (HasRoom posts) }
{
    let mut index = KeyTable::new(alloc, buckets)?;
    index.reserve(history.len() + posts)?;
    let mut at = 0;
    while at < history.len() {
        enter_key(&history[..at], &mut index, &history[at].key);
        at += 1;
    }
    Ok(index)
}

/// Makes room for one post more. Where the posts are as many as the buckets, these become twice as many, in memory of their own.
/// If memory runs out, the posts are found as before.
pub fn make_room(alloc: Global, history: &[Kept], index: &mut KeyTable) -> Result<(), NoMemory>
    requires few { length history.now ≤ post_limit }
    requires index { IsIndex history.now index.old }
    ensures index { IsIndex history.now index.new }
    ensures room { OnOk result (HasRoom 1 index.new) }
{
    let buckets = index.size();
    if history.len() < buckets {
        return index.reserve(1);
    }
    *index = rebuilt(alloc, history, 2 * buckets, 1)?;
    Ok(())
}
