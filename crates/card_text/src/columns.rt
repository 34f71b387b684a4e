// Texts in columns. A text that is wider than its places stands whole.
ghost use Rattle.std.specs.Prelude.{◌≡◌, ◌∷◌, ◌++◌, IfOk, OnOk, pos, replicate};
ghost use Rattle.std.specs.String.{string_bytes};
ghost use Rattle.card_text.specs.Statements.{labelled, three_texts_ended, to_left, to_right, two_texts, two_texts_ended};
ghost use Rattle.card_events.specs.Money.{money_text};

use card_events::{Cents, Money, NoMemory};
use std::alloc::Global;

// So many spaces.
fn push_spaces(text: &mut String, count: usize) -> Result<(), NoMemory>
    ensures { OnOk result (string_bytes text.new ≡ string_bytes text.old ++ replicate count 32) }
{
    for _ in 0..count {
        text.push_str(" ")?;
    }
    Ok(())
}

// So many zeros.
pub fn push_zeros(text: &mut String, count: usize) -> Result<(), NoMemory>
    ensures { OnOk result (string_bytes text.new ≡ string_bytes text.old ++ replicate count 48) }
{
    for _ in 0..count {
        text.push_str("0")?;
    }
    Ok(())
}

// A text, filled with spaces on the right.
#[tactic(auto, using(card_lines::proofs::TextRules::texts))]
pub fn push_left(text: &mut String, places: usize, piece: &str) -> Result<(), NoMemory>
    ensures { OnOk result (string_bytes text.new ≡ string_bytes text.old ++ to_left places piece.now) }
{
    text.push_str(piece)?;
    push_spaces(text, places.saturating_sub(piece.len()))
}

// A text, filled with spaces on the left.
#[tactic(auto, using(card_lines::proofs::TextRules::texts))]
fn push_right(text: &mut String, places: usize, piece: &str) -> Result<(), NoMemory>
    ensures { OnOk result (string_bytes text.new ≡ string_bytes text.old ++ to_right places piece.now) }
{
    push_spaces(text, places.saturating_sub(piece.len()))?;
    text.push_str(piece)?;
    Ok(())
}

// A space, and a text that is filled with spaces on the left.
#[tactic(auto, using(card_lines::proofs::TextRules::texts))]
pub fn push_column(text: &mut String, places: usize, piece: &str) -> Result<(), NoMemory>
    ensures { OnOk result (string_bytes text.new ≡ string_bytes text.old ++ 32 ∷ to_right places piece.now) }
{
    text.push_str(" ")?;
    push_right(text, places, piece)
}

// The line of a label and a value.
#[tactic(auto, using(card_lines::proofs::TextRules::texts), unfolding(crate::specs::Statements::labelled))]
pub fn push_labelled(text: &mut String, label: &str, value: &str) -> Result<(), NoMemory>
    ensures { OnOk result (string_bytes text.new ≡ string_bytes text.old ++ labelled label.now value.now) }
{
    push_left(text, 28, label)?;
    push_column(text, 14, value)?;
    text.push_str("\n")?;
    Ok(())
}

// An amount of at least 0, of whatever size, as money.
#[tactic(auto, using(card_lines::proofs::TextRules::texts), unfolding(card_events::specs::Money::money_text))]
fn sum_text(alloc: Global, cents: u128) -> Result<String, NoMemory>
    ensures { IfOk result (λ text. string_bytes text ≡ money_text (pos cents)) }
{
    Ok(format!(in alloc; "{}.{}{}", cents / 100, cents % 100 / 10, cents % 10)?)
}

// The line of a label and such an amount.
pub fn push_sum(alloc: Global, text: &mut String, label: &str, cents: u128) -> Result<(), NoMemory>
    ensures { OnOk result (string_bytes text.new ≡ string_bytes text.old ++ labelled label.now (money_text (pos cents))) }
{
    let value = sum_text(alloc, cents)?;
    push_labelled(text, label, value.as_str())
}

// A space, and such an amount in its column.
pub fn push_sum_amount(alloc: Global, text: &mut String, cents: u128) -> Result<(), NoMemory>
    ensures { OnOk result (string_bytes text.new ≡ string_bytes text.old ++ 32 ∷ to_right 14 (money_text (pos cents))) }
{
    let amount = sum_text(alloc, cents)?;
    push_column(text, 14, amount.as_str())
}

// The line of a label and an amount.
pub fn push_cents(
    alloc: Global,
    text: &mut String,
    label: &str,
    cents: Cents,
) -> Result<(), NoMemory>
    ensures { OnOk result (string_bytes text.new ≡ string_bytes text.old ++ labelled label.now (money_text cents)) }
{
    let value = Money(cents).to_string(alloc)?;
    push_labelled(text, label, value.as_str())
}

// A space, and an amount in its column.
pub fn push_amount(alloc: Global, text: &mut String, cents: Cents) -> Result<(), NoMemory>
    ensures { OnOk result (string_bytes text.new ≡ string_bytes text.old ++ 32 ∷ to_right 14 (money_text cents)) }
{
    let amount = Money(cents).to_string(alloc)?;
    push_column(text, 14, amount.as_str())
}

// A text behind another.
#[tactic(auto, using(card_lines::proofs::TextRules::texts), unfolding(crate::specs::Statements::two_texts))]
pub fn push_both(text: &mut String, first: &str, second: &str) -> Result<(), NoMemory>
    ensures { OnOk result (string_bytes text.new ≡ string_bytes text.old ++ two_texts first.now second.now) }
{
    text.push_str(first)?;
    text.push_str(second)?;
    Ok(())
}

// The end of a line: two texts and a line feed.
#[tactic(auto, using(card_lines::proofs::TextRules::texts), unfolding(crate::specs::Statements::two_texts_ended))]
pub fn push_end(text: &mut String, first: &str, second: &str) -> Result<(), NoMemory>
    ensures { OnOk result (string_bytes text.new ≡ string_bytes text.old ++ two_texts_ended first.now second.now) }
{
    text.push_str(first)?;
    text.push_str(second)?;
    text.push_str("\n")?;
    Ok(())
}

// A text, and such an end.
#[tactic(auto, using(card_lines::proofs::TextRules::texts), unfolding(crate::specs::Statements::three_texts_ended, crate::specs::Statements::two_texts_ended))]
pub fn push_last(text: &mut String, first: &str, second: &str, third: &str) -> Result<(), NoMemory>
    ensures { OnOk result (string_bytes text.new ≡ string_bytes text.old ++ three_texts_ended first.now second.now third.now) }
{
    text.push_str(first)?;
    push_end(text, second, third)
}
