// The open tasks of many accounts.
ghost use Rattle.std.specs.Prelude.{◌≡◌, ◌+◌, ◌≤◌, ◌++◌, IfOk, OnOk};
ghost use Rattle.std.specs.List.{All, flat_map, sum_by};
ghost use Rattle.card_account.specs.Accounts.{AreTold, HasTold, IsAccount, IsTold, steps_of};
ghost use Rattle.card_account.specs.Works.{tasks_of, work_of};

use crate::Account;
use card_disputes::{Task, in_work_order};
use card_events::{Day, NoMemory, Steps};
use card_fees::SharedRows;
use std::alloc::Global;
use std::marker::Model;
use std::sync::ledger::Ledger;

/// Tasks in an order.
#[derive(Drop)]
pub struct Tasks {
    tasks: Vec<Task>,
}

impl Model for Tasks {
    ghost use Rattle.std.specs.Prelude.{List};
    ghost use Rattle.card_model.specs.declared.task.Task.{Task};

    ghost Value = { List Task };

    ghost view = { λ t. t.tasks.items };
}

impl Tasks {
    /// One after the other.
    pub fn as_slice(&self) -> &[Task]
        ensures { result.now ≡ self.now }
    {
        &self.tasks
    }
}

// The tasks of one more account, behind the others.
fn push_tasks<L: Ledger>(
    tasks: &mut Vec<Task>,
    alloc: Global,
    account: &mut Account,
    today: Day,
    shared: &SharedRows,
    steps: &mut Steps<L>,
) -> Result<(), NoMemory>
    requires account { IsAccount today shared.now account.old }
    ensures tasks { OnOk result (tasks.new.items ≡ tasks.old.items ++ tasks_of today shared.now account.old) }
    ensures told { IsTold today shared.now account.old account.new }
    ensures today { OnOk result (HasTold today shared.now account.old account.new) }
    ensures most { steps.new ≤ steps.old + steps_of today shared.now account.old }
{
    let mut more = account.tasks(alloc, today, shared, steps)?;
    tasks.append(&mut more)?;
    Ok(())
}

// The tasks of all these accounts, account after account.
fn tasks_of<L: Ledger>(
    alloc: Global,
    accounts: &mut [Account],
    today: Day,
    shared: &SharedRows,
    steps: &mut Steps<L>,
) -> Result<Vec<Task>, NoMemory>
    requires accounts { All (IsAccount today shared.now) accounts.old }
    ensures tasks { IfOk result (λ tasks. tasks.items ≡ flat_map (tasks_of today shared.now) accounts.old) }
    ensures told { AreTold today shared.now accounts.old accounts.new }
    ensures today { OnOk result (All (λ a. a.folding.reached ≡ today) accounts.new) }
    ensures most { steps.new ≤ steps.old + sum_by (steps_of today shared.now) accounts.old }
{
    let mut tasks = Vec::new(alloc);
    for i in 0..accounts.len() {
        push_tasks(&mut tasks, alloc, &mut accounts[i], today, shared, steps)?;
    }
    Ok(tasks)
}

/// The open tasks of all these accounts today, by day, account, kind and post: names are in order byte by byte (12 CFR
/// 1026.11(a), .13(c), .59). Each account reaches today; if memory runs out, some have and others haven't.
pub fn work_today<L: Ledger>(
    alloc: Global,
    accounts: &mut [Account],
    today: Day,
    shared: &SharedRows,
    steps: &mut Steps<L>,
) -> Result<Tasks, NoMemory>
    requires accounts { All (IsAccount today shared.now) accounts.old }
    ensures tasks { IfOk result (λ tasks. tasks ≡ work_of today shared.now accounts.old) }
    ensures told { AreTold today shared.now accounts.old accounts.new }
    ensures today { OnOk result (All (λ a. a.folding.reached ≡ today) accounts.new) }
    ensures most { steps.new ≤ steps.old + sum_by (steps_of today shared.now) accounts.old }
{
    let mut tasks = tasks_of(alloc, accounts, today, shared, steps)?;
    in_work_order(&mut tasks)?;
    Ok(Tasks { tasks })
}
