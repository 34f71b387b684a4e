ghost use Rattle.std.specs.Prelude.{◌≡◌, option_copied};
ghost use Rattle.card_events.specs.History.{at_number};

use crate::{Cents, Day, Name, Post};

/// An accepted post: its number in the account, its key, the day on which it was accepted, and its content.
#[derive(Drop)]
pub struct Kept {
    pub number: u32,
    pub key: Name,
    pub accepted: Day,
    pub post: Post,
}

/// A post in the corrected list: its effective day, its number and its corrected cents, 0 for kinds without cents.
#[derive(Clone, Copy)]
pub struct Slot {
    pub day: Day,
    pub number: u32,
    pub cents: Cents,
}

/// The post with a number, from 1 on. There is none with the number 0, nor with one above theirs.
pub fn numbered(history: &[Kept], number: u64) -> Option<&Kept>
    ensures { option_copied result ≡ at_number number history.now }
{
    if number == 0 {
        return None;
    }
    history.get(number as usize - 1)
}
