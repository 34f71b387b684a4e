// Many accounts are folded to the end of today.
ghost use Rattle.std.specs.Prelude.{◌≡◌, ◌+◌, ◌≤◌, OnOk};
ghost use Rattle.std.specs.List.{All, sum_by};
ghost use Rattle.card_account.specs.Accounts.{AreTold, IsAccount, steps_of};

use crate::Account;
use card_events::{Day, NoMemory, Steps};
use card_fees::SharedRows;
use std::alloc::Global;
use std::sync::ledger::Ledger;

/// Folds all these accounts to the end of today. If memory runs out, some have reached it and others haven't.
pub fn reach_today<L: Ledger>(
    alloc: Global,
    accounts: &mut [Account],
    today: Day,
    shared: &SharedRows,
    steps: &mut Steps<L>,
) -> Result<(), NoMemory>
    requires accounts { All (IsAccount today shared.now) accounts.old }
    ensures told { AreTold today shared.now accounts.old accounts.new }
    ensures today { OnOk result (All (λ a. a.folding.reached ≡ today) accounts.new) }
    ensures most { steps.new ≤ steps.old + sum_by (steps_of today shared.now) accounts.old }
{
    for i in 0..accounts.len() {
        accounts[i].to_day(alloc, today, shared, steps)?;
    }
    Ok(())
}
