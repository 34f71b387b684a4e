ghost use Rattle.std.specs.Prelude.{◌≡◌, ◌<◌, Some, option_copied};
ghost use Rattle.std.specs.List.{All};
ghost use Rattle.std.specs.List.Sorted.{IsNonDecreasingBy};
ghost use Rattle.card_events.specs.Billing.{IsCloseDay};
ghost use Rattle.card_events.specs.History.{anchor_of, terms_in, terms_of};
ghost use Rattle.card_model.specs.Accepted.{AreSingle};
ghost use Rattle.card_model.specs.Caps.{row_for};
ghost use Rattle.card_model.specs.CycleDays.{IsOpening};
ghost use Rattle.card_model.specs.Cycles.{IssuedRow};

use crate::Issued;
use card_events::{Anchor, Calendar, Day, Post, Terms};
use card_fees::{FeeTable, IndexTable, SharedRows};
use card_posts::Posts;
use std::marker::Model;

// The terms of an opening.
fn terms(post: &Post) -> Terms
    requires { IsCloseDay (terms_in post.now).close }
    ensures { result ≡ terms_in post.now }
{
    match post {
        Post::Open { terms, .. } | Post::OpenVariable { terms, .. } => *terms,
        _ => unreachable!(),
    }
}

// Those of the post that opened the account.
fn terms_of_first(posts: &Posts) -> Terms
    requires { IsOpening (anchor_of posts.now.history) }
    ensures { result ≡ terms_of posts.now.history }
{
    match posts.get(1) {
        Some(kept) => terms(&kept.post),
        None => unreachable!(),
    }
}

/// The issued statement of a cycle, the first where it has several.
pub fn row_for(issued: &[Issued], cycle: u64) -> Option<&Issued>
    ensures { option_copied result ≡ row_for cycle issued.now }
{
    for row in issued {
        if row.cycle as u64 == cycle {
            return Some(row);
        }
    }
    None
}

// That of a cycle, where it stands at the place of the cycle's number, as it does where the cycles were issued in order.
fn row_at(issued: &[Issued], cycle: u64) -> Option<&Issued>
    requires { AreSingle issued.now }
    ensures { (r : IssuedRow) → option_copied result ≡ Some r → row_for cycle issued.now ≡ Some r }
{
    match issued.get(cycle.saturating_sub(1) as usize) {
        Some(row) => {
            if row.cycle as u64 == cycle {
                Some(row)
            } else {
                None
            }
        }
        None => None,
    }
}

// That of a cycle which was issued after a day, from the last one back to those of that day.
fn row_after(issued: &[Issued], cycle: u64, day: Day) -> Option<&Issued>
    requires single { AreSingle issued.now }
    requires order { IsNonDecreasingBy (λ r. r.day) issued.now }
    requires later { All (λ r. r.cycle ≡ cycle → day < r.day) issued.now }
    ensures { option_copied result ≡ row_for cycle issued.now }
{
    for place in (0..issued.len()).rev() {
        let row = &issued[place];
        if row.cycle as u64 == cycle {
            return Some(row);
        }
        if row.day <= day {
            return None;
        }
    }
    None
}

/// What the fold of an account reads: its posts, its issued statements, and what all accounts share.
#[derive(Drop)]
pub struct Inputs<'a> {
    posts: &'a Posts,
    issued: &'a [Issued],
    shared: &'a SharedRows,
}

impl<'a> Model for Inputs<'a> {
    ghost use Rattle.card_daily.specs.Given.{Given, IsSound};
    ghost use Rattle.card_posts.specs.Posted.{StandsFor};

    ghost Value = { Given };

    ghost view = { λ i. record { history = i.posts.now.history; issued = i.issued.now; shared = i.shared.now } };

    ghost invariant = { λ i. StandsFor i.shared.now.holidays i.posts.now × IsSound (record { history = i.posts.now.history; issued = i.issued.now; shared = i.shared.now }) };
}

impl<'a> Inputs<'a> {
    ghost use Rattle.std.specs.Prelude.{◌≡◌, ◌≤◌, option_copied};
    ghost use Rattle.card_events.specs.Billing.{closing};
    ghost use Rattle.card_events.specs.History.{anchor_of, terms_of};
    ghost use Rattle.card_model.specs.Caps.{row_for};
    ghost use Rattle.card_daily.specs.Given.{Given, IsSound};
    ghost use Rattle.card_posts.specs.Posted.{StandsFor};

    /// The inputs of an account.
    pub fn new(posts: &'a Posts, issued: &'a [Issued], shared: &'a SharedRows) -> Inputs<'a>
        requires stands { StandsFor shared.now.holidays posts.now }
        requires sound { IsSound (record { history = posts.now.history; issued = issued.now; shared = shared.now }) }
        ensures { result ≡ record { history = posts.now.history; issued = issued.now; shared = shared.now } }
    {
        Inputs {
            posts,
            issued,
            shared,
        }
    }

    /// The opening day, and the day of the month on which cycles close.
    pub fn anchor(&self) -> Anchor
        ensures value { result ≡ anchor_of self.now.history }
        ensures sound { IsSound self.now }
    {
        self.posts.anchor()
    }

    /// The terms of the account.
    pub fn terms(&self) -> Terms
        ensures value { result ≡ terms_of self.now.history }
    {
        terms_of_first(self.posts)
    }

    /// The accepted posts.
    pub fn posts(&self) -> &Posts
        ensures history { result.now.history ≡ self.now.history }
        ensures stands { StandsFor self.now.shared.holidays result.now }
    {
        self.posts
    }

    /// The loaded holidays.
    pub fn calendar(&self) -> &Calendar
        ensures { result.now ≡ self.now.shared.holidays }
    {
        self.shared.calendar()
    }

    /// The fee table.
    pub fn fees(&self) -> &FeeTable
        ensures { result.now ≡ self.now.shared.fees }
    {
        self.shared.fees()
    }

    /// The index.
    pub fn index(&self) -> &IndexTable
        ensures { result.now ≡ self.now.shared.index }
    {
        self.shared.index()
    }

    /// The issued statements.
    pub fn issued(&self) -> &[Issued]
        ensures { result.now ≡ self.now.issued }
    {
        self.issued
    }

    /// The issued statement of a cycle. It goes over them only where the cycle's isn't at the place of its number.
    pub fn issued_for(&self, cycle: u64) -> Option<&Issued>
        ensures { option_copied result ≡ row_for cycle self.now.issued }
    {
        match row_at(self.issued, cycle) {
            Some(row) => Some(row),
            None => row_for(self.issued, cycle),
        }
    }

    /// The issued statement of a cycle that closes on a day or later. Where the cycle's isn't at the place of its number, it goes
    /// back over those that were issued after that day, up to the first that wasn't: the condition is for speed alone.
    pub fn issued_since(&self, cycle: u64, day: Day) -> Option<&Issued>
        requires { day ≤ closing (anchor_of self.now.history) cycle }
        ensures { option_copied result ≡ row_for cycle self.now.issued }
    {
        match row_at(self.issued, cycle) {
            Some(row) => Some(row),
            None => row_after(self.issued, cycle, day),
        }
    }
}
