// The line that has the fields of a JSON object.
ghost use Rattle.std.specs.List.{list_any};
ghost use Rattle.std.specs.Prelude.{◌≡◌, ◌==◌, ◌++◌, IfOk, option_map, option_and_then, string_bytes};
ghost use Rattle.card_wire.specs.Bodies as spec;
ghost use Rattle.card_wire.specs.Joined.{joined};
ghost use Rattle.card_wire.specs.Fields.{field_name};
ghost use Rattle.serde_json.specs.Find.{as_str, get};
ghost use Rattle.serde_json.specs.View.{view};

use crate::field::Field;
use card_events::NoMemory;
use serde_json::Value;
use std::alloc::Global;

/// The text is at most 32 bytes, without a space.
#[tactic(auto, unfolding(crate::specs::Bodies::is_one_word))]
pub fn is_one_word(text: &[u8]) -> bool
    ensures { result ≡ spec.is_one_word text.now }
{
    text.len() <= 32 && !has_space(text)
}

fn has_space(text: &[u8]) -> bool
    ensures { result ≡ list_any (λ b. b == 32) text.now }
{
    text.iter().any(|b| *b == b' ')
}

// A number in digits alone.
fn number_text(alloc: Global, value: &Value) -> Result<Option<String>, NoMemory>
    ensures { IfOk result (λ text. option_map string_bytes text ≡ spec.number_told (view value.now)) }
{
    match value.as_u64() {
        Some(number) => Ok(Some(format!(in alloc; "{number}")?)),
        None => Ok(None),
    }
}

// A string.
fn string_text(alloc: Global, value: &Value) -> Result<Option<String>, NoMemory>
    ensures { IfOk result (λ text. option_map string_bytes text ≡ as_str (view value.now)) }
{
    match value.as_str() {
        Some(text) => Ok(Some(String::from_str(alloc, text)?)),
        None => Ok(None),
    }
}

// The text, if it is one word.
fn one_word(text: Option<String>) -> Option<String>
    ensures { option_map string_bytes result ≡ spec.one_word (option_map string_bytes text) }
{
    // No field has a space or more than 32 bytes, so such a value counts as missing.
    match text {
        Some(text) if is_one_word(text.as_bytes()) => Some(text),
        _ => None,
    }
}

// A value as a line has it, where it is of the field's kind.
#[tactic(auto, unfolding(crate::specs::Bodies::told))]
fn told(alloc: Global, field: Field, value: &Value) -> Result<Option<String>, NoMemory>
    ensures { IfOk result (λ text. option_map string_bytes text ≡ spec.told field (view value.now)) }
{
    if field.is_number() {
        Ok(one_word(number_text(alloc, value)?))
    } else {
        Ok(one_word(string_text(alloc, value)?))
    }
}

// A member as a line has it, where it is there and of the field's kind.
fn told_member(alloc: Global, field: Field, object: &Value) -> Result<Option<String>, NoMemory>
    ensures { IfOk result (λ text. option_map string_bytes text ≡ option_and_then (spec.told field) (get (field_name field) (view object.now))) }
{
    match object.get(field.name()) {
        Some(value) => told(alloc, field, value),
        None => Ok(None),
    }
}

/// The line of this word with the fields of the object, up to the first that is missing or of another kind.
pub fn spell(
    alloc: Global,
    kind: &str,
    object: &Value,
    fields: &[Field],
) -> Result<Vec<u8>, NoMemory>
    ensures { IfOk result (λ line. line.items ≡ kind.now ++ joined (spec.fields_told (view object.now) fields.now)) }
{
    let mut line = Vec::from_slice(alloc, kind.as_bytes())?;
    for field in fields {
        let told = told_member(alloc, *field, object)?;
        match told {
            Some(text) => {
                line.push(b' ')?;
                line.extend_from_slice(text.as_bytes())?;
            }
            None => return Ok(line),
        }
    }
    Ok(line)
}
