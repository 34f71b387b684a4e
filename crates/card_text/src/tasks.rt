// The open tasks as text.
ghost use Rattle.std.specs.Prelude.{◌≡◌, ◌++◌, IfOk, OnOk};
ghost use Rattle.std.specs.String.{string_bytes};
ghost use Rattle.card_text.specs.Tasks as spec;

use card_events::NoMemory;
use card_lines::name_text;
use card_model::{Task, TaskKind};
use std::alloc::Global;

// What has to be done, in a word.
fn task_word(kind: TaskKind) -> &'static str
    ensures { result.now ≡ spec.task_word kind }
{
    match kind {
        TaskKind::Ack => "ACK",
        TaskKind::Resolve => "RESOLVE",
        TaskKind::Refund => "REFUND",
        TaskKind::Credit => "CREDIT",
        TaskKind::Review => "REVIEW",
        TaskKind::Lower => "LOWER",
    }
}

// The line of a task, behind the others.
#[tactic(auto, using(card_lines::proofs::TextRules::texts), unfolding(crate::specs::Tasks::task_line))]
fn push_task(text: &mut String, task: &Task) -> Result<(), NoMemory>
    ensures { OnOk result (string_bytes text.new ≡ string_bytes text.old ++ spec.task_line task.now) }
{
    let account = name_text(&task.account);
    let kind = task_word(task.kind);
    write!(text, "{} {account} {kind} {}\n", task.by, task.post)?;
    Ok(())
}

/// The lines of open tasks in their order, each with its line feed: the last day as `YYYY-MM-DD`, the account, what has to
/// be done (`ACK`, `RESOLVE`, `REFUND`, `CREDIT`, `REVIEW` or `LOWER`; 12 CFR 1026.11(a), .13(c), .59), and the number of
/// the post, 0 for a credit balance and a review.
#[tactic(auto, unfolding(crate::specs::Tasks::tasks_text))]
pub fn tasks_text(alloc: Global, tasks: &[Task]) -> Result<String, NoMemory>
    ensures { IfOk result (λ text. string_bytes text ≡ spec.tasks_text tasks.now) }
{
    let mut text = String::new(alloc);
    for i in 0..tasks.len() {
        push_task(&mut text, &tasks[i])?;
    }
    Ok(text)
}
