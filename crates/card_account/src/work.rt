// The open tasks of an account, by its posts and its book of today.
ghost use Rattle.std.specs.Prelude.{◌≡◌, IfOk};
ghost use Rattle.card_events.specs.History.{anchor_of};
ghost use Rattle.card_model.specs.Deadlines.{credit_since};
ghost use Rattle.card_model.specs.Refusals.{book_today};
ghost use Rattle.card_model.specs.Work.{tasks_in};

use card_book::{Folded, Present};
use card_disputes::{Task, work_of};
use card_events::{Name, NoMemory};
use std::alloc::Global;

/// The open tasks of an account today, by day, kind and post.
pub fn tasks_today(
    alloc: Global,
    name: &Name,
    now: &Present,
    folded: &Folded,
) -> Result<Vec<Task>, NoMemory>
    requires book { folded.now.book ≡ book_today now.now }
    requires since { folded.now.since ≡ credit_since (book_today now.now).entries (anchor_of now.now.lists.posts).opened now.now.today }
    ensures { IfOk result (λ tasks. tasks.items ≡ tasks_in name.now now.now (book_today now.now)) }
{
    work_of(
        alloc,
        name,
        &now.anchor(),
        now.posts(),
        now.calendar(),
        folded.credit(),
        folded.credit_since(),
        now.today(),
    )
}
