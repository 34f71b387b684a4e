// The open tasks of an account.
ghost use Rattle.std.specs.Prelude.{◌≡◌, ◌≤◌, ◌≤ℤ◌, ◌++◌, ℕ, List, IfOk, IfSome, OnOk, pos, unsigned_abs};
ghost use Rattle.card_events.specs.Range.{last_request_day};
ghost use Rattle.std.specs.Option.{option_map, option_to_list};
ghost use Rattle.card_events.specs.Billing.{IsCloseDay};
ghost use Rattle.card_disputes.specs.Dues.{AddsTasks};
ghost use Rattle.card_disputes.specs.Ends.{AreLast};
ghost use Rattle.card_events.specs.History.{anchor_of};
ghost use Rattle.card_model.specs.Deadlines.{open_tasks};
ghost use Rattle.card_model.specs.Deadlines as spec;
ghost use Rattle.card_posts.specs.Posted.{StandsFor};
ghost use Rattle.card_rates.specs.Segments.{ArePostsDated};

use crate::due::{credit_due, due_at};
use crate::end::{LastEnds, last_ends};
use crate::order::by_day;
use crate::review::review_by;
use card_events::{Anchor, Calendar, Cents, Day, Name, NoMemory};
use card_model::{Task, TaskKind};
use card_posts::Posts;
use std::alloc::Global;

// What the tasks of an account are made from: its name, its cycles, its posts with the last that end tasks, the holidays, and the
// cents of its credit balance.
#[derive(Drop)]
struct Basis<'a> {
    name: &'a Name,
    anchor: &'a Anchor,
    posts: &'a Posts,
    last: LastEnds,
    calendar: &'a Calendar,
    credit: u64,
}

// the cents of a credit balance
fn cents_in(credit: Cents) -> u64
    requires { pos 0 ≤ℤ credit }
    ensures { result ≡ unsigned_abs credit }
{
    credit as u64
}

// One more task, where it has a day.
fn push_task(
    tasks: &mut Vec<Task>,
    alloc: Global,
    name: &Name,
    kind: TaskKind,
    by: Option<Day>,
    post: u32,
) -> Result<(), NoMemory>
    ensures { OnOk result (tasks.new.items ≡ tasks.old.items ++ option_to_list (option_map (spec.task_of name.now kind post) by)) }
{
    match by {
        Some(by) => {
            let account = name.copy();
            tasks.push(Task {
                by,
                account,
                kind,
                post,
            })?;
            Ok(())
        }
        None => Ok(()),
    }
}

// The tasks of one kind that posts make.
fn push_tasks(
    tasks: &mut Vec<Task>,
    alloc: Global,
    basis: &Basis,
    kind: TaskKind,
) -> Result<(), NoMemory>
    requires last { AreLast basis.now.posts.now.history basis.now.last }
    requires close_day { IsCloseDay basis.now.anchor.now.close_day }
    requires opened { basis.now.anchor.now.opened ≤ last_request_day }
    requires dated { ArePostsDated basis.now.posts.now.history }
    ensures { OnOk result (AddsTasks basis.now.name.now basis.now.anchor.now basis.now.calendar.now basis.now.credit basis.now.posts.now kind tasks.old.items tasks.new.items) }
{
    let posts = basis.posts;
    for i in 0..posts.len() {
        let by = due_at(
            posts,
            basis.anchor,
            basis.calendar,
            basis.credit,
            basis.last,
            kind,
            i + 1,
        );
        push_task(tasks, alloc, basis.name, kind, by, i + 1)?;
    }
    Ok(())
}

/// The open tasks of an account that holds a credit balance since a day, by day, kind and post: to acknowledge and to
/// resolve disputes (12 CFR 1026.13(c)), to refund credit balances (12 CFR 1026.11(a)), to review rate increases and to
/// lower rates after a review (12 CFR 1026.59). The credit balance is in cents, at least 0. The days of the posts, the day
/// since which there is a credit balance and today are days of requests. The corrected list is that of the posts under some
/// calendar.
pub fn work_of(
    alloc: Global,
    name: &Name,
    anchor: &Anchor,
    posts: &Posts,
    calendar: &Calendar,
    credit: Cents,
    since: Option<Day>,
    today: Day,
) -> Result<Vec<Task>, NoMemory>
    requires anchor { anchor.now ≡ anchor_of posts.now.history }
    requires close_day { IsCloseDay anchor.now.close_day }
    requires dated { ArePostsDated posts.now.history }
    requires low { pos 0 ≤ℤ credit }
    requires since { IfSome since (λ d. d ≤ last_request_day) }
    requires today { today ≤ last_request_day }
    ensures { (holidays : List ℕ) → StandsFor holidays posts.now → IfOk result (λ tasks. tasks.items ≡ open_tasks name.now anchor.now calendar.now posts.now.corrected (unsigned_abs credit) since today) }
{
    let credit = cents_in(credit);
    let basis = Basis {
        name,
        anchor,
        posts,
        last: last_ends(posts),
        calendar,
        credit,
    };
    let refunded = credit_due(credit, since);
    let reviewed = review_by(posts, today);
    let mut tasks = Vec::new(alloc);
    push_tasks(&mut tasks, alloc, &basis, TaskKind::Ack)?;
    push_tasks(&mut tasks, alloc, &basis, TaskKind::Resolve)?;
    push_tasks(&mut tasks, alloc, &basis, TaskKind::Refund)?;
    push_task(&mut tasks, alloc, name, TaskKind::Credit, refunded, 0)?;
    push_task(&mut tasks, alloc, name, TaskKind::Review, reviewed, 0)?;
    push_tasks(&mut tasks, alloc, &basis, TaskKind::Lower)?;
    by_day(&mut tasks)?;
    Ok(tasks)
}
