// The fields of a line, from left to right.
ghost use Rattle.std.specs.Prelude.{◌≡◌, ◌+◌, ◌≤◌, ◌==◌, ◌∷◌, ℕ, List, length, take, drop, not, Some, Ok, IfOk, IfErr};
ghost use Rattle.std.specs.List.{position_or_len, prefix_len};
ghost use Rattle.card_lines.specs.Fields.{fields_of, fields_left, field, end_at, Reads, ReadsAll};
ghost use Rattle.card_lines.specs.Forms.{name_of, number_of, day_of, category_of, place_of, channel_of, plan_kind_of, finding_of};

use crate::forms;
use crate::line::BadField;
use card_events::{Category, Channel, Day, Finding, Name, Num, Place, PlanKind};
use std::simd::prelude::*;

/// The first field, and the rest of the line.
pub fn split_field(text: &[u8]) -> (&[u8], &[u8])
    ensures { fields_of text.now ≡ result.0.now ∷ fields_left result.1.now }
{
    let at = space_at(text);
    text.split_at(at)
}

// Where the first space stands, or the length. Most fields are short: sixteen bytes are compared at once, or twice eight.
fn space_at(text: &[u8]) -> usize
    ensures value { result ≡ position_or_len (λ b. b == 32) text.now }
    ensures bound { result ≤ length text.now }
{
    let length = text.len();
    if length >= 16 {
        let at = space_of_16(text);
        if at < 16 {
            return at;
        }
    } else if length >= 8 {
        let at = space_of_8(text, 0);
        if at < 8 {
            return at;
        }
        return length - 8 + space_of_8(text, length - 8);
    }
    space_by_byte(text)
}

// The same of the first sixteen bytes.
#[inline(always)]
fn space_of_16(text: &[u8]) -> usize
    requires { 16 ≤ length text.now }
    ensures { result ≡ prefix_len (λ b. not (b == 32)) (take 16 text.now) }
{
    let spaces = u8x16::from_slice(text)
        .simd_eq(u8x16::splat(b' '))
        .to_bitmask();
    if spaces == 0 {
        16
    } else {
        spaces.trailing_zeros() as usize
    }
}

// The same of the eight bytes from `at` on.
#[inline(always)]
fn space_of_8(text: &[u8], at: usize) -> usize
    requires { at + 8 ≤ length text.now }
    ensures { result ≡ prefix_len (λ b. not (b == 32)) (take 8 (drop at text.now)) }
{
    let spaces = u8x8::from_slice(&text[at..])
        .simd_eq(u8x8::splat(b' '))
        .to_bitmask();
    if spaces == 0 {
        8
    } else {
        spaces.trailing_zeros() as usize
    }
}

fn space_by_byte(text: &[u8]) -> usize
    ensures value { result ≡ position_or_len (λ b. b == 32) text.now }
    ensures bound { result ≤ length text.now }
{
    for (i, b) in text.iter().enumerate() {
        if *b == b' ' {
            return i;
        }
    }
    text.len()
}

fn next_field<'a>(number: u8, rest: &mut &'a [u8]) -> Result<&'a [u8], BadField>
    ensures ok { IfOk result (λ text. field Some number (fields_left rest.old.now) ≡ Ok (text.now, fields_left rest.new.now)) }
    ensures err { IfErr result (λ bad. field (λ (x : List ℕ). Some x) number (fields_left rest.old.now) ≡ Err bad.0) }
{
    match *rest {
        [] => Err(BadField(number)),
        [_, text @ ..] => {
            let (field, others) = split_field(text);
            *rest = others;
            Ok(field)
        }
    }
}

/// The next field as a name.
#[tactic(auto, unfolding(crate::specs::Forms::name_of))]
pub fn name_field(number: u8, rest: &mut &[u8]) -> Result<Name, BadField>
    ensures { Reads result (fields_left rest.new.now) (field name_of number (fields_left rest.old.now)) }
{
    let text = next_field(number, rest)?;
    match Name::read(text) {
        None => Err(BadField(number)),
        Some(name) => Ok(name),
    }
}

/// The next field as a number.
pub fn number_field(number: u8, rest: &mut &[u8]) -> Result<Num, BadField>
    ensures { Reads result (fields_left rest.new.now) (field number_of number (fields_left rest.old.now)) }
{
    let text = next_field(number, rest)?;
    match forms::read_number(text) {
        None => Err(BadField(number)),
        Some(value) => Ok(value),
    }
}

/// The next field as a day.
pub fn day_field(number: u8, rest: &mut &[u8]) -> Result<Day, BadField>
    ensures { Reads result (fields_left rest.new.now) (field day_of number (fields_left rest.old.now)) }
{
    let text = next_field(number, rest)?;
    match forms::read_day(text) {
        None => Err(BadField(number)),
        Some(day) => Ok(day),
    }
}

/// The next field as a category.
pub fn category_field(number: u8, rest: &mut &[u8]) -> Result<Category, BadField>
    ensures { Reads result (fields_left rest.new.now) (field category_of number (fields_left rest.old.now)) }
{
    let text = next_field(number, rest)?;
    match forms::read_category(text) {
        None => Err(BadField(number)),
        Some(category) => Ok(category),
    }
}

/// The next field as a place.
pub fn place_field(number: u8, rest: &mut &[u8]) -> Result<Place, BadField>
    ensures { Reads result (fields_left rest.new.now) (field place_of number (fields_left rest.old.now)) }
{
    let text = next_field(number, rest)?;
    match forms::read_place(text) {
        None => Err(BadField(number)),
        Some(place) => Ok(place),
    }
}

/// The next field as a channel.
pub fn channel_field(number: u8, rest: &mut &[u8]) -> Result<Channel, BadField>
    ensures { Reads result (fields_left rest.new.now) (field channel_of number (fields_left rest.old.now)) }
{
    let text = next_field(number, rest)?;
    match forms::read_channel(text) {
        None => Err(BadField(number)),
        Some(channel) => Ok(channel),
    }
}

/// The next field as a kind of plan.
pub fn plan_kind_field(number: u8, rest: &mut &[u8]) -> Result<PlanKind, BadField>
    ensures { Reads result (fields_left rest.new.now) (field plan_kind_of number (fields_left rest.old.now)) }
{
    let text = next_field(number, rest)?;
    match forms::read_plan_kind(text) {
        None => Err(BadField(number)),
        Some(kind) => Ok(kind),
    }
}

/// The next field as a finding.
pub fn finding_field(number: u8, rest: &mut &[u8]) -> Result<Finding, BadField>
    ensures { Reads result (fields_left rest.new.now) (field finding_of number (fields_left rest.old.now)) }
{
    let text = next_field(number, rest)?;
    match forms::read_finding(text) {
        None => Err(BadField(number)),
        Some(finding) => Ok(finding),
    }
}

/// No field is left; else the next one, of this number, is surplus.
#[tactic(auto, using(crate::proofs::FieldLemmas::not_at_end))]
pub fn at_end(number: u8, rest: &[u8]) -> Result<(), BadField>
    ensures { ReadsAll result (end_at number (fields_left rest.now)) }
{
    match rest {
        [] => Ok(()),
        [_, ..] => Err(BadField(number)),
    }
}
