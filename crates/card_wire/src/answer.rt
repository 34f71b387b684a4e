// The JSON texts of replies.
ghost use Rattle.std.specs.Prelude.{◌≡◌, IfOk};
ghost use Rattle.std.specs.String.{string_bytes};
ghost use Rattle.card_wire.specs.Answers as spec;
ghost use Rattle.serde_json.specs.Data.{string};
ghost use Rattle.serde_json.specs.Written.{compact_text};

use card_events::{NoMemory, Refusal};
use card_lines::{RefusalValue, refusal_name, refusal_value};
use serde_json::Value;
use std::alloc::Global;
use std::fmt;

/// `{"ok":N}`: the number of the post, 0 for a shared request.
#[tactic(auto, using(card_lines::proofs::TextRules::texts), unfolding(crate::specs::Answers::ok_text))]
pub fn ok_text(alloc: Global, number: u32) -> Result<String, NoMemory>
    ensures { IfOk result (λ text. string_bytes text ≡ spec.ok_text number) }
{
    Ok(format!(in alloc; "{{\"ok\":{number}}}")?)
}

// A value in JSON.
#[derive(Drop)]
struct JsonValue(RefusalValue);

impl fmt::Display for JsonValue {
    ghost use Rattle.std.specs.Prelude.{Some};
    ghost use Rattle.card_wire.specs.Answers.{value_json};

    ghost output = { λ v. Some (value_json v.0) };

    #[tactic(auto, using(card_lines::proofs::TextRules::texts), unfolding(crate::specs::Answers::value_json))]
    fn fmt<W: fmt::Write>(&self, f: &mut fmt::Formatter<W>) -> fmt::Result {
        match &self.0 {
            RefusalValue::Number(number) => write!(f, "{number}"),
            RefusalValue::Cents(cents) => write!(f, "{cents}"),
            RefusalValue::Day(day) => write!(f, "\"{day}\""),
        }
    }
}

/// `{"name":"NAME","no":N}`, with `"value":V` where the refusal has one: a string for a day, else a number.
#[tactic(auto, using(card_lines::proofs::TextRules::texts), unfolding(crate::specs::Answers::refused_text))]
pub fn refused_text(alloc: Global, refusal: &Refusal) -> Result<String, NoMemory>
    ensures { IfOk result (λ text. string_bytes text ≡ spec.refused_text refusal.now) }
{
    let number = refusal.number();
    let name = refusal_name(refusal);
    match refusal_value(refusal) {
        None => Ok(format!(in alloc; "{{\"name\":\"{name}\",\"no\":{number}}}")?),
        Some(value) => {
            let value = JsonValue(value);
            Ok(format!(in alloc; "{{\"name\":\"{name}\",\"no\":{number},\"value\":{value}}}")?)
        }
    }
}

/// `{"field":"NAME"}`: the member that makes a body no request.
#[tactic(auto, using(card_lines::proofs::TextRules::texts), unfolding(crate::specs::Answers::member_text))]
pub fn member_text(alloc: Global, name: &str) -> Result<String, NoMemory>
    ensures { IfOk result (λ text. string_bytes text ≡ spec.member_text name.now) }
{
    let name = quoted(alloc, name)?;
    Ok(format!(in alloc; "{{\"field\":{name}}}")?)
}

// A string as JSON.
fn quoted(alloc: Global, text: &str) -> Result<String, NoMemory>
    ensures { IfOk result (λ text_quoted. string_bytes text_quoted ≡ compact_text (string text.now)) }
{
    let value = Value::String(String::from_str(alloc, text)?);
    Ok(value.to_string(alloc)?)
}
