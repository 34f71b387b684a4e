// What is asked of a ledger, as text.
ghost use Rattle.std.specs.Prelude.{◌≡◌, option_map, IfOk};
ghost use Rattle.std.specs.String.{string_bytes};
ghost use Rattle.card_http.specs.Told as spec;

use card_desk::{Ask, Desk, View, uncounted};
use card_events::{Name, NoMemory};
use card_lines::show_text;
use card_text::{export_text, repayment_text, statement_text, tasks_text};
use std::alloc::Global;

/// The text of the answer to what is asked: the line of `show`, a statement, the entries as CSV, or the open tasks. None: the
/// account or the statement isn't there, or the view answers something else.
pub fn view_text(alloc: Global, ask: &Ask, view: &View) -> Result<Option<String>, NoMemory>
    ensures { IfOk result (λ text. option_map string_bytes text ≡ spec.view_told ask.now view.now) }
{
    match ask {
        Ask::Show(account) => show_told(alloc, account, view),
        Ask::Issued(account, _) => statement_told(alloc, account, view),
        Ask::Restated(account, _) => statement_told(alloc, account, view),
        Ask::Entries(_) => entries_told(alloc, view),
        Ask::Work => work_told(alloc, view),
    }
}

/// The text of what is asked of the desk, whose state stays. None: the account or the statement isn't there.
#[tactic(auto, unfolding(crate::specs::Told::told))]
pub fn told_text(alloc: Global, desk: &mut Desk, ask: &Ask) -> Result<Option<String>, NoMemory>
    ensures state { desk.new.state ≡ desk.old.state }
    ensures text { IfOk result (λ text. option_map string_bytes text ≡ spec.told desk.old.state ask.now) }
{
    match uncounted::see(alloc, desk, ask) {
        Ok(view) => view_text(alloc, ask, &view),
        Err(NoMemory) => Err(NoMemory),
    }
}

/// What it takes to repay the balances of the statement that the desk is asked for (12 CFR 1026.7(b)(12)). The desk's
/// state stays. None: the account or the statement isn't there, or no statement is asked for. No route gives it.
#[tactic(auto, unfolding(crate::specs::Told::repaid))]
pub fn repaid_text(alloc: Global, desk: &mut Desk, ask: &Ask) -> Result<Option<String>, NoMemory>
    ensures state { desk.new.state ≡ desk.old.state }
    ensures text { IfOk result (λ text. option_map string_bytes text ≡ spec.repaid desk.old.state ask.now) }
{
    match uncounted::see(alloc, desk, ask) {
        Ok(view) => repayment_told(alloc, &view),
        Err(NoMemory) => Err(NoMemory),
    }
}

fn show_told(alloc: Global, account: &Name, view: &View) -> Result<Option<String>, NoMemory>
    ensures { IfOk result (λ text. option_map string_bytes text ≡ spec.show_told account.now view.now) }
{
    match view {
        View::Show {
            day,
            owed,
            credit,
            held,
        } => Ok(Some(show_text(alloc, account, *day, *owed, *credit, *held)?)),
        View::NoAccount => Ok(None),
        View::NoStatement => Ok(None),
        View::Statement(_) => Ok(None),
        View::Entries(_) => Ok(None),
        View::Work(_) => Ok(None),
    }
}

fn statement_told(alloc: Global, account: &Name, view: &View) -> Result<Option<String>, NoMemory>
    ensures { IfOk result (λ text. option_map string_bytes text ≡ spec.statement_told account.now view.now) }
{
    match view {
        View::Statement(statement) => {
            Ok(Some(statement_text(alloc, account, &statement.cycle, &statement.sheet)?))
        }
        View::NoAccount => Ok(None),
        View::NoStatement => Ok(None),
        View::Show { .. } => Ok(None),
        View::Entries(_) => Ok(None),
        View::Work(_) => Ok(None),
    }
}

fn entries_told(alloc: Global, view: &View) -> Result<Option<String>, NoMemory>
    ensures { IfOk result (λ text. option_map string_bytes text ≡ spec.entries_told view.now) }
{
    match view {
        View::Entries(list) => Ok(Some(export_text(alloc, list.entries(), list.segments())?)),
        View::NoAccount => Ok(None),
        View::NoStatement => Ok(None),
        View::Show { .. } => Ok(None),
        View::Statement(_) => Ok(None),
        View::Work(_) => Ok(None),
    }
}

fn work_told(alloc: Global, view: &View) -> Result<Option<String>, NoMemory>
    ensures { IfOk result (λ text. option_map string_bytes text ≡ spec.work_told view.now) }
{
    match view {
        View::Work(tasks) => Ok(Some(tasks_text(alloc, tasks.as_slice())?)),
        View::NoAccount => Ok(None),
        View::NoStatement => Ok(None),
        View::Show { .. } => Ok(None),
        View::Statement(_) => Ok(None),
        View::Entries(_) => Ok(None),
    }
}

fn repayment_told(alloc: Global, view: &View) -> Result<Option<String>, NoMemory>
    ensures { IfOk result (λ text. option_map string_bytes text ≡ spec.repayment_told view.now) }
{
    match view {
        View::Statement(statement) => Ok(Some(repayment_text(alloc, &statement.sheet)?)),
        View::NoAccount => Ok(None),
        View::NoStatement => Ok(None),
        View::Show { .. } => Ok(None),
        View::Entries(_) => Ok(None),
        View::Work(_) => Ok(None),
    }
}
