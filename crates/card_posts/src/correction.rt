// What later posts say of each post, by number.
ghost use Rattle.std.specs.Prelude.{◌≡◌, ◌≤◌, ◌++◌, [], ◌∷◌, false, length};
ghost use Rattle.card_events.specs.History.{at_number};
ghost use Rattle.card_events.specs.declared.kept.Kept.{Kept};
ghost use Rattle.card_posts.specs.Corrections.{charge_named, changed_by, corrections_from, corrects, with_post};
ghost use Rattle.card_posts.specs.Later.{HasSpare, nothing};
ghost use Rattle.card_posts.specs.Posted.{target_of};
ghost use Rattle.card_posts.specs.Stored.{NameEarlier};

use crate::correction_table::CorrectionTable;
use card_events::{Day, Kept, Num, Post, numbered};

// What later posts say of a post: the day and cents of the last Amend, and the sum that was confirmed as an error in it.
#[derive(Clone, Copy)]
pub struct Correction {
    pub amend: Option<(Day, Num)>,
    pub confirmed: u64,
}

// Nothing is said of a post.
pub fn nothing() -> Correction
    ensures { result ≡ nothing }
{
    Correction {
        amend: None,
        confirmed: 0,
    }
}

// the charge that the Dispute of this number names, and 0 for what is none
fn disputed(history: &[Kept], number: u64) -> u64
    ensures { result ≡ charge_named (at_number number history.now) }
{
    match numbered(history, number) {
        Some(kept) => kept.post.charge_disputed(),
        None => 0,
    }
}

// The earlier post that a post corrects: the one that an Amend names, the charge of a Resolve; 0 for none.
pub fn changed_by(history: &[Kept], post: &Post) -> u64
    ensures { result ≡ changed_by history.now post.now }
{
    match post {
        Post::Amend { target, .. } => target.get(),
        Post::Resolve { target, .. } => disputed(history, target.get()),
        _ => 0,
    }
}

// What is said of a post, where one more corrects it.
pub fn with_post(before: &Correction, post: &Post) -> Correction
    ensures { result ≡ with_post post.now before.now }
{
    match post {
        Post::Amend { day, cents, .. } => Correction {
            amend: Some((*day, *cents)),
            confirmed: before.confirmed,
        },
        Post::Resolve { cents, .. } => Correction {
            amend: before.amend,
            confirmed: before.confirmed.saturating_add(cents.get()),
        },
        _ => *before,
    }
}

// Brings what is said of earlier posts up to one more post. It doesn't allocate: there is room.
pub fn note(history: &[Kept], corrections: &mut CorrectionTable, post: &Post)
    requires names { NameEarlier 1 history.now }
    requires earlier { target_of post.now ≤ length history.now }
    requires corrections { corrections.old.each ≡ corrections_from history.now 1 history.now }
    requires room { HasSpare corrections.old }
    ensures each { (k : Kept) → k.post ≡ post.now → corrections.new.each ≡ corrections_from (history.now ++ k ∷ []) 1 history.now }
    ensures spare { corrects post.now ≡ false → HasSpare corrections.new }
{
    let number = changed_by(history, post);
    if number > 0 {
        corrections.say(number, post);
    }
}
