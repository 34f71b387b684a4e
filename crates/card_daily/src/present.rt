use crate::{Inputs, Issued};
use card_events::{Anchor, Calendar, Day};
use card_fees::SharedRows;
use card_posts::Posts;
use std::marker::Model;

/// An account as it is judged and shown today: its posts, its issued statements, what all accounts share, and today. Its fold
/// may go to the end of today.
#[derive(Drop)]
pub struct Present<'a> {
    inputs: Inputs<'a>,
    today: Day,
}

impl<'a> Model for Present<'a> {
    ghost use Rattle.card_daily.specs.Given.{ReachesToday};
    ghost use Rattle.card_model.specs.Refusals.{Present};

    ghost Value = { Present };

    ghost view = { λ p. record { today = p.today; shared = p.inputs.shared; lists = record { posts = p.inputs.history; issued = p.inputs.issued } } };

    ghost invariant = { λ p. ReachesToday (record { today = p.today; shared = p.inputs.shared; lists = record { posts = p.inputs.history; issued = p.inputs.issued } }) };
}

impl<'a> Present<'a> {
    ghost use Rattle.std.specs.Prelude.{◌≡◌, option_copied};
    ghost use Rattle.card_daily.specs.Given.{IsSound, ReachesToday, given_today};
    ghost use Rattle.card_events.specs.History.{anchor_of};
    ghost use Rattle.card_model.specs.Caps.{row_for};
    ghost use Rattle.card_posts.specs.Posted.{StandsFor};

    /// An account today. The corrected list is that of the posts under these holidays, and no post was accepted after today,
    /// which is at most 2099-12-31.
    pub fn new(
        posts: &'a Posts,
        issued: &'a [Issued],
        shared: &'a SharedRows,
        today: Day,
    ) -> Present<'a>
        requires stands { StandsFor shared.now.holidays posts.now }
        requires sound { IsSound (given_today (record { today = today; shared = shared.now; lists = record { posts = posts.now.history; issued = issued.now } })) }
        requires today { ReachesToday (record { today = today; shared = shared.now; lists = record { posts = posts.now.history; issued = issued.now } }) }
        ensures { result ≡ record { today = today; shared = shared.now; lists = record { posts = posts.now.history; issued = issued.now } } }
    {
        Present {
            inputs: Inputs::new(posts, issued, shared),
            today,
        }
    }

    /// What its fold reads.
    pub fn inputs(&self) -> &Inputs<'a>
        ensures { result.now ≡ given_today self.now }
    {
        &self.inputs
    }

    /// The issued statement of a cycle, the first where it has several.
    pub fn issued_for(&self, cycle: u64) -> Option<&Issued>
        ensures { option_copied result ≡ row_for cycle self.now.lists.issued }
    {
        self.inputs.issued_for(cycle)
    }

    /// Today.
    pub fn today(&self) -> Day
        ensures value { result ≡ self.now.today }
        ensures reached { ReachesToday self.now }
    {
        self.today
    }

    /// The opening day, and the day of the month on which cycles close.
    pub fn anchor(&self) -> Anchor
        ensures value { result ≡ anchor_of self.now.lists.posts }
        ensures sound { IsSound (given_today self.now) }
    {
        self.inputs.anchor()
    }

    /// The accepted posts.
    pub fn posts(&self) -> &Posts
        ensures history { result.now.history ≡ self.now.lists.posts }
        ensures stands { StandsFor self.now.shared.holidays result.now }
    {
        self.inputs.posts()
    }

    /// The loaded holidays.
    pub fn calendar(&self) -> &Calendar
        ensures { result.now ≡ self.now.shared.holidays }
    {
        self.inputs.calendar()
    }
}
