// A trial balance as text.
ghost use Rattle.std.specs.Prelude.{◌≡◌, ◌≤◌, ◌^◌, ◌++◌, ◌-ℤ◌, pos, IfOk, OnOk};
ghost use Rattle.std.specs.List.{All};
ghost use Rattle.std.specs.String.{string_bytes};
ghost use Rattle.card_events.specs.Blanks.{IsBlankOf};
ghost use Rattle.card_events.specs.Money.{money_text};
ghost use Rattle.card_trial.specs.Sums.{all_between, of_all_kinds};
ghost use Rattle.card_trial.specs.Trial as spec;

use crate::ledger::LedgerDesk;
use crate::side::Side;
use crate::sums::{kinds, signed};
use card_desk::Desk;
use card_events::{Day, NoMemory, Steps};
use card_model::EntryKind;
use card_text::{WideMoney, kind_word};
use std::alloc::Global;
use std::marker::Brand;
use std::sync::ledger::{Blank, Ledger};

// A word, debits and credits.
#[tactic(auto, using(card_events::proofs::Texts::texts))]
fn push_line(text: &mut String, word: &str, debits: i128, credits: i128) -> Result<(), NoMemory>
    ensures { OnOk result (string_bytes text.new ≡ string_bytes text.old ++ spec.line word.now debits credits) }
{
    write!(
        text,
        "{word} {} {}\n",
        WideMoney(debits),
        WideMoney(credits)
    )?;
    Ok(())
}

// A word and an amount.
#[tactic(auto, using(card_events::proofs::Texts::texts))]
fn push_amount(text: &mut String, word: &str, cents: i128) -> Result<(), NoMemory>
    ensures { OnOk result (string_bytes text.new ≡ string_bytes text.old ++ spec.amount_line word.now cents) }
{
    write!(text, "{word} {}\n", WideMoney(cents))?;
    Ok(())
}

// The line of a kind.
#[tactic(auto, unfolding(crate::specs::Trial::kind_line))]
fn push_kind(
    text: &mut String,
    ledger: &LedgerDesk,
    from: Day,
    to: Day,
    kind: EntryKind,
) -> Result<(), NoMemory>
    ensures { OnOk result (string_bytes text.new ≡ string_bytes text.old ++ spec.kind_line from to ledger.now.desk.recorded kind) }
{
    let debits = ledger.debits(from, to, kind);
    let credits = ledger.credits(from, to, kind);
    push_line(text, kind_word(kind), debits, credits)
}

// The lines of all kinds.
#[tactic(auto, unfolding(crate::specs::Trial::kind_lines))]
fn kind_lines(alloc: Global, ledger: &LedgerDesk, from: Day, to: Day) -> Result<String, NoMemory>
    ensures { IfOk result (λ text. string_bytes text ≡ spec.kind_lines from to ledger.now.desk.recorded) }
{
    let kinds = kinds();
    let mut text = String::new(alloc);
    for i in 0..kinds.len() {
        push_kind(&mut text, ledger, from, to, kinds[i])?;
    }
    Ok(text)
}

fn less(debits: u128, credits: u128) -> i128
    requires debits { debits ≤ 2 ^ 123 }
    requires credits { credits ≤ 2 ^ 123 }
    ensures { result ≡ pos debits -ℤ pos credits }
{
    debits as i128 - credits as i128
}

// The last two lines.
#[tactic(auto, using(card_events::proofs::Texts::texts), unfolding(crate::specs::Trial::end_lines))]
fn push_ends(text: &mut String, debits: u128, credits: u128) -> Result<(), NoMemory>
    requires debits { debits ≤ 2 ^ 123 }
    requires credits { credits ≤ 2 ^ 123 }
    ensures { OnOk result (string_bytes text.new ≡ string_bytes text.old ++ spec.end_lines debits credits) }
{
    push_line(text, "total", signed(debits), signed(credits))?;
    push_amount(text, "change", less(debits, credits))
}

// The ten lines of what is recorded.
#[tactic(auto, unfolding(crate::specs::Trial::lines_text))]
fn lines_text(alloc: Global, ledger: &LedgerDesk, from: Day, to: Day) -> Result<String, NoMemory>
    ensures { IfOk result (λ text. string_bytes text ≡ spec.lines_text from to ledger.now.desk.recorded) }
{
    let mut text = kind_lines(alloc, ledger, from, to)?;
    let debits = ledger.all_debits(from, to);
    let credits = ledger.all_credits(from, to);
    push_ends(&mut text, debits, credits)?;
    Ok(text)
}

// Where all accounts have reached today, what is recorded is all that the ledger has.
#[tactic(auto, unfolding(crate::specs::Trial::trial_text))]
fn balance_text(alloc: Global, ledger: &LedgerDesk, from: Day, to: Day) -> Result<String, NoMemory>
    requires { All (λ day. day ≡ ledger.now.desk.state.today) ledger.now.desk.reached }
    ensures { IfOk result (λ text. string_bytes text ≡ spec.trial_text from to ledger.now.desk.state) }
{
    let _count = ledger.desk().accounts();
    lines_text(alloc, ledger, from, to)
}

fn trial_counted<L: Ledger>(
    alloc: Global,
    desk: Desk,
    from: Day,
    to: Day,
    blank: Blank,
) -> Result<String, NoMemory>
    requires own { IsBlankOf L.name L.parts blank.name blank.parts }
    ensures { IfOk result (λ text. string_bytes text ≡ spec.trial_text from to desk.state) }
{
    let mut steps = Steps::<L>::new(blank);
    let mut desk = desk;
    desk.reach_all(alloc, &mut steps)?;
    // All accounts are at today, so their entries are entered once.
    let ledger = LedgerDesk::of(alloc, desk)?;
    balance_text(alloc, &ledger, from, to)
}

/// The trial balance of a desk from one day to another, over all accounts, which are brought to today: a line for each kind of entry
/// with its debits and credits, the sums of these, and debits less credits. Amounts are in units with two digits behind a point.
/// Where `to` is before `from`, all of them are 0. It wants 8.6 MB besides the text; if memory runs out, the desk is gone.
pub fn trial_text(alloc: Global, desk: Desk, from: Day, to: Day) -> Result<String, NoMemory>
    ensures { IfOk result (λ text. string_bytes text ≡ spec.trial_text from to desk.state) }
{
    trial_counted::<Brand>(alloc, desk, from, to, Blank::new(1))
}
