// The text of a demonstration's results.
ghost use Rattle.std.specs.Prelude.{◌≡◌, ◌≤◌, ◌++◌, IfOk, OnOk};
ghost use Rattle.std.specs.Fmt.{decimal};
ghost use Rattle.std.specs.String.{string_bytes};
ghost use Rattle.card_demo.specs.Summary as spec;
ghost use Rattle.card_events.specs.Money.{money_text};

use crate::tally::Tally;
use crate::totals::Totals;
use card_events::NoMemory;
use card_text::WideMoney;
use std::alloc::Global;

// The line of a count.
#[tactic(auto, using(card_events::proofs::Texts::texts))]
fn push_count(text: &mut String, label: &str, count: u64) -> Result<(), NoMemory>
    ensures { OnOk result (string_bytes text.new ≡ string_bytes text.old ++ spec.line label.now (decimal count)) }
{
    write!(text, "{label} {count}\n")?;
    Ok(())
}

// The line of an amount.
#[tactic(auto, using(card_events::proofs::Texts::texts))]
fn push_amount(text: &mut String, label: &str, cents: i128) -> Result<(), NoMemory>
    ensures { OnOk result (string_bytes text.new ≡ string_bytes text.old ++ spec.line label.now (money_text cents)) }
{
    write!(text, "{label} {}\n", WideMoney(cents))?;
    Ok(())
}

// How many requests there were, were accepted and were refused.
#[tactic(auto, using(card_events::proofs::Texts::texts), unfolding(crate::specs::Summary::count_lines))]
fn push_counts(text: &mut String, count: u64, refused: u64) -> Result<(), NoMemory>
    requires { refused ≤ count }
    ensures { OnOk result (string_bytes text.new ≡ string_bytes text.old ++ spec.count_lines count refused) }
{
    push_count(text, "requests", count)?;
    push_count(text, "accepted", count - refused)?;
    push_count(text, "refused", refused)
}

// What is owed, and of that interest and fees.
#[tactic(auto, using(card_events::proofs::Texts::texts), unfolding(crate::specs::Summary::sum_lines))]
fn push_sums(text: &mut String, totals: &Totals) -> Result<(), NoMemory>
    ensures { OnOk result (string_bytes text.new ≡ string_bytes text.old ++ spec.sum_lines totals.now) }
{
    push_amount(text, "owed", totals.owed)?;
    push_amount(text, "interest", totals.interest)?;
    push_amount(text, "fees", totals.fees)
}

/// The six lines.
#[tactic(auto, using(card_events::proofs::Texts::texts), unfolding(crate::specs::Summary::summary_text))]
pub fn summary_text(alloc: Global, tally: &Tally, totals: &Totals) -> Result<String, NoMemory>
    ensures { IfOk result (λ text. string_bytes text ≡ spec.summary_text tally.now.count tally.now.refused totals.now) }
{
    let mut text = String::new(alloc);
    push_counts(&mut text, tally.count(), tally.refused())?;
    push_sums(&mut text, totals)?;
    Ok(text)
}
