// All rows that an account has issued, those that aren't made yet among them. Only clauses read them.
ghost use Rattle.std.specs.Prelude.{◌≡◌, ◌++◌, [], List};
ghost use Rattle.std.specs.Borrow.{ftrue};
ghost use Rattle.card_model.specs.Cycles.{IssuedRow};
ghost use Rattle.card_model.specs.Machine.{issues};

use card_events::{Day, Post};
use card_fees::SharedRows;
use card_posts::Posts;
use std::marker::Model;

/// All rows that the Bills of an account issued, whether they are made or owed, as clauses know them. It takes no memory: no row is in it.
#[derive(Drop)]
pub struct Told {
    pub ghost rows: { List IssuedRow },
}

impl Model for Told {
    ghost also_owns = { λ _. ftrue };
}

impl Told {
    /// The list without a row, as of an account that was just opened.
    pub fn none() -> Told
        ensures { result.rows ≡ [] }
    {
        Told {}
    }

    /// The list with the row behind the others that a post issues, where it is a Bill that is accepted behind these posts.
    pub fn with(&self, _posts: &Posts, _shared: &SharedRows, _post: &Post, _today: &Day) -> Told
        ensures { result.rows ≡ self.now.rows ++ issues (record { today = _today.now; shared = _shared.now; lists = record { posts = _posts.now.history; issued = self.now.rows } }) _post.now }
    {
        Told {}
    }
}

/// Adds the row that a post issues, where it is a Bill that is accepted today behind these posts. It doesn't allocate.
pub fn tell(told: &mut Told, posts: &Posts, shared: &SharedRows, post: &Post, today: Day)
    ensures { told.new.rows ≡ told.old.rows ++ issues (record { today = today; shared = shared.now; lists = record { posts = posts.now.history; issued = told.old.rows } }) post.now }
{
    *told = told.with(posts, shared, post, &today);
}
