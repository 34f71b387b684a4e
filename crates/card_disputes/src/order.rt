// Tasks by day, and by account.
ghost use Rattle.std.specs.Prelude.{◌≡◌, nat_lt, OnOk, OnErr};
ghost use Rattle.std.specs.Ordering.{is_lt};
ghost use Rattle.card_model.specs.Deadlines as spec;
ghost use Rattle.card_model.specs.Work as work;

use card_events::NoMemory;
use card_model::Task;
use std::cmp::Ordering;

fn compare_days(task: &Task, other: &Task) -> Ordering
    ensures { is_lt result ≡ nat_lt task.now.by other.now.by }
{
    task.by.cmp(&other.by)
}

// Puts the tasks of an account in order of their days, those of one day as they stand. If memory runs out, they stand as
// they did.
pub fn by_day(tasks: &mut Vec<Task>) -> Result<(), NoMemory>
    ensures ok { OnOk result (tasks.new.items ≡ spec.by_day tasks.old.items) }
    ensures err { OnErr result (tasks.new.items ≡ tasks.old.items) }
{
    tasks.sort_by(|task, other| compare_days(task, other))?;
    Ok(())
}

fn compare(task: &Task, other: &Task) -> Ordering
    ensures { is_lt result ≡ work.is_task_before task.now other.now }
{
    match task.by.cmp(&other.by) {
        Ordering::Equal => task.account.bytes().cmp(other.account.bytes()),
        days => days,
    }
}

/// Puts tasks in order of their days, then of their accounts' names, byte by byte, those of one day and account as they
/// stand. If memory runs out, they stand as they did.
pub fn in_work_order(tasks: &mut Vec<Task>) -> Result<(), NoMemory>
    ensures ok { OnOk result (tasks.new.items ≡ work.in_work_order tasks.old.items) }
    ensures err { OnErr result (tasks.new.items ≡ tasks.old.items) }
{
    tasks.sort_by(|task, other| compare(task, other))?;
    Ok(())
}
