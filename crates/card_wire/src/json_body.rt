// What a JSON body says.
ghost use Rattle.std.specs.Prelude.{◌≡◌, ◌≤◌, ◌∷◌, true, length, IfOk, IfErr, IfSome, option_map};
ghost use Rattle.std.specs.List.{list_any};
ghost use Rattle.std.specs.Str.{bytes_eq};
ghost use Rattle.card_events.specs.Dated.{is_dated};
ghost use Rattle.card_wire.specs.Fields.{field_name};
ghost use Rattle.card_wire.specs.Bodies as spec;
ghost use Rattle.card_wire.specs.Bodies.{FailsBody, IsSaid, Says, request};
ghost use Rattle.card_wire.specs.declared.json_body.BodyFault.TheVariants.{Memory};
ghost use Rattle.card_lines.specs.Lines.{IsDatedLine, line_of_fields};
ghost use Rattle.card_lines.specs.Words.{word_of};
ghost use Rattle.serde_json.specs.Find.{as_object};
ghost use Rattle.serde_json.specs.View.{view, members_view};

use crate::field::{Field, fields_of};
use crate::spelling::{is_one_word, spell};
use card_events::{NoMemory, Request};
use card_lines::{Line, Word, read_line, read_word};
use serde_json::{Map, Value};
use std::alloc::{AllocError, Global};

/// Why a body gives no request.
#[derive(Drop)]
pub enum BodyFault {
    /// It isn't JSON.
    NotJson,
    /// It isn't an object with a known kind, or a field is missing or not of its form, or a member is no field: the first of
    /// these, by its name.
    Member(String),
    /// Memory was wanted and isn't there.
    Memory,
}

impl From<NoMemory> for BodyFault {
    ghost from_gives = { λ _ why. why ≡ Memory };

    fn from(_: NoMemory) -> Self {
        BodyFault::Memory
    }
}

impl From<AllocError> for BodyFault {
    ghost from_gives = { λ _ why. why ≡ Memory };

    fn from(_: AllocError) -> Self {
        BodyFault::Memory
    }
}

/// The request of a JSON body. Its `kind` is the word of a line, and its other members are the fields of that word: numbers in
/// digits alone, and strings. Of a member that is given more than once the last counts. Days are days of requests.
pub fn read_json_body(alloc: Global, body: &[u8]) -> Result<Request, BodyFault>
    ensures ok { IfOk result (λ r. Says body.now (request r)) }
    ensures err { IfErr result (FailsBody body.now) }
    ensures dated { IfOk result (λ r. is_dated r ≡ true) }
{
    match Value::from_slice(alloc, body) {
        Ok(value) => read_value(alloc, &value),
        Err(error) => {
            if error.is_memory() {
                Err(BodyFault::Memory)
            } else {
                Err(BodyFault::NotJson)
            }
        }
    }
}

// The body has no known kind.
fn no_kind(alloc: Global) -> Result<Request, BodyFault>
    ensures said { IsSaid result spec.no_kind }
    ensures dated { IfOk result (λ r. is_dated r ≡ true) }
{
    Err(BodyFault::Member(String::from_str(alloc, "kind")?))
}

// Its kind, where it is one word.
#[tactic(auto, unfolding(crate::specs::Bodies::kind_told))]
fn kind_of(value: &Value) -> Option<&str>
    ensures kind { option_map (λ kind. kind.now) result ≡ spec.kind_told (view value.now) }
    ensures short { IfSome result (λ kind. spec.is_one_word kind.now ≡ true) }
{
    let kind = value.get("kind")?.as_str()?;
    if is_one_word(kind.as_bytes()) {
        Some(kind)
    } else {
        None
    }
}

// What a JSON value says.
fn read_value(alloc: Global, value: &Value) -> Result<Request, BodyFault>
    ensures said { IsSaid result (spec.said (view value.now)) }
    ensures dated { IfOk result (λ r. is_dated r ≡ true) }
{
    match kind_of(value) {
        Some(kind) => read_kind(alloc, value, kind),
        None => no_kind(alloc),
    }
}

// What an object of this kind says.
#[tactic(auto, unfolding(crate::specs::Bodies::said_by_word))]
fn read_kind(alloc: Global, value: &Value, kind: &str) -> Result<Request, BodyFault>
    requires short { spec.is_one_word kind.now ≡ true }
    ensures said { IsSaid result (spec.said_by_word (view value.now) kind.now (word_of kind.now)) }
    ensures dated { IfOk result (λ r. is_dated r ≡ true) }
{
    match read_word(kind.as_bytes()) {
        None => no_kind(alloc),
        Some(Word::Show) => no_kind(alloc),
        Some(word) => read_fields(alloc, value, kind, fields_of(word)),
    }
}

// What an object with these fields says.
#[tactic(auto, unfolding(crate::specs::Bodies::said_by_line))]
fn read_fields(
    alloc: Global,
    value: &Value,
    kind: &str,
    fields: &[Field],
) -> Result<Request, BodyFault>
    requires short { spec.is_one_word kind.now ≡ true }
    requires few { length fields.now ≤ 10 }
    ensures said { IsSaid result (spec.said_by_line fields.now (as_object (view value.now)) (line_of_fields (kind.now ∷ spec.fields_told (view value.now) fields.now))) }
    ensures dated { IfOk result (λ r. is_dated r ≡ true) }
{
    let Some(members) = value.as_object() else {
        return no_kind(alloc);
    };
    match read_spelled(alloc, value, kind, fields)? {
        Line::Request(request) => without_others(alloc, request, fields, members),
        Line::Show(_) => no_kind(alloc),
        Line::Bad(number) => bad_field(alloc, fields, number),
    }
}

// What the line says that has these fields.
#[tactic(auto, using(crate::proofs::SpellLemmas::spelled_line))]
fn read_spelled(
    alloc: Global,
    value: &Value,
    kind: &str,
    fields: &[Field],
) -> Result<Line, NoMemory>
    requires short { spec.is_one_word kind.now ≡ true }
    requires few { length fields.now ≤ 10 }
    ensures line { IfOk result (λ l. l ≡ line_of_fields (kind.now ∷ spec.fields_told (view value.now) fields.now)) }
    ensures dated { IfOk result IsDatedLine }
{
    // By way of a line, so that each kind has one reader.
    let line = spell(alloc, kind, value, fields)?;
    Ok(read_line(&line))
}

// The field with this number of the line is bad.
fn bad_field(alloc: Global, fields: &[Field], number: u8) -> Result<Request, BodyFault>
    ensures said { IsSaid result (spec.bad (spec.field_numbered fields.now number)) }
    ensures dated { IfOk result (λ r. is_dated r ≡ true) }
{
    let name = match fields.get((number as usize).saturating_sub(2)) {
        Some(field) => field.name(),
        None => "kind",
    };
    Err(BodyFault::Member(String::from_str(alloc, name)?))
}

// The request, where no member is left that is no field.
fn without_others(
    alloc: Global,
    request: Request,
    fields: &[Field],
    members: &Map<String, Value>,
) -> Result<Request, BodyFault>
    requires dated { is_dated request ≡ true }
    ensures said { IsSaid result (spec.without_others request (spec.first_other fields.now (members_view members.now.entries))) }
    ensures dated { IfOk result (λ r. is_dated r ≡ true) }
{
    match first_other(fields, members) {
        None => Ok(request),
        Some(name) => Err(BodyFault::Member(String::from_str(alloc, name)?)),
    }
}

// The first member, by bytes, that is neither the kind nor a field.
#[tactic(auto, unfolding(crate::specs::Bodies::first_other))]
fn first_other<'a>(fields: &[Field], members: &'a Map<String, Value>) -> Option<&'a str>
    ensures { option_map (λ name. name.now) result ≡ spec.first_other fields.now (members_view members.now.entries) }
{
    for (name, _) in members.iter() {
        if !is_expected(fields, name.as_str()) {
            return Some(name.as_str());
        }
    }
    None
}

#[tactic(auto, unfolding(crate::specs::Bodies::is_expected))]
fn is_expected(fields: &[Field], name: &str) -> bool
    ensures { result ≡ spec.is_expected fields.now name.now }
{
    name == "kind" || is_field(fields, name)
}

fn is_field(fields: &[Field], name: &str) -> bool
    ensures { result ≡ list_any (λ f. bytes_eq name.now (field_name f)) fields.now }
{
    fields.iter().any(|field| name == field.name())
}
