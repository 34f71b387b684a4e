// Lines, by their word.
ghost use Rattle.std.specs.Prelude.{◌≡◌, ℕ, List, Result};
ghost use Rattle.card_events.specs.declared.request.Request.{Request};
ghost use Rattle.card_lines.specs.Fields.{fields_left, ReadsAll};
ghost use Rattle.card_lines.specs.Lines.{roll_of, holiday_of, fee_row_of, index_of, posted_of, show_of, line_of_word, line_of, IsDatedLine};
ghost use Rattle.card_lines.specs.Lines as spec;

use crate::fields::{at_end, day_field, name_field, number_field, split_field};
use crate::line::{BadField, Line};
use crate::post_reading::read_post;
use crate::word::{PostKind, Word, read_word};
use card_events::{Name, Request, Shared};

/// What the line says, given without its line feed and without a carriage return before that. `Line::Bad` has the number of
/// the first field that is missing, surplus or not of its form; a line of more than 512 bytes is bad at 0.
pub fn read_line(line: &[u8]) -> Line
    ensures line { result ≡ line_of line.now }
    ensures dated { IsDatedLine result }
{
    read_words(line)
}

#[tactic(auto, unfolding(crate::specs::Lines::line_of, crate::specs::Lines::line_of_fields))]
fn read_words(line: &[u8]) -> Line
    ensures { result ≡ line_of line.now }
{
    if line.len() > 512 {
        return Line::Bad(0);
    }
    let (word, rest) = split_field(line);
    match read_word(word) {
        None => Line::Bad(1),
        Some(word) => read_fields(word, rest),
    }
}

#[tactic(auto, unfolding(crate::specs::Lines::line_of_word))]
fn read_fields(word: Word, rest: &[u8]) -> Line
    ensures { result ≡ line_of_word word (fields_left rest.now) }
{
    match word {
        Word::Roll => request_line(read_roll(rest)),
        Word::Holiday => request_line(read_holiday(rest)),
        Word::FeeRow => request_line(read_fee_row(rest)),
        Word::Index => request_line(read_index(rest)),
        Word::Show => show_line(read_show(rest)),
        Word::Post(kind) => request_line(read_posted(kind, rest)),
    }
}

fn request_line(read: Result<Request, BadField>) -> Line
    ensures { (r : Result Request ℕ) → ReadsAll read r → result ≡ spec.request_line r }
{
    match read {
        Ok(request) => Line::Request(request),
        Err(BadField(number)) => Line::Bad(number),
    }
}

fn show_line(read: Result<Name, BadField>) -> Line
    ensures { (r : Result (List ℕ) ℕ) → ReadsAll read r → result ≡ spec.show_line r }
{
    match read {
        Ok(account) => Line::Show(account),
        Err(BadField(number)) => Line::Bad(number),
    }
}

#[tactic(auto, unfolding(crate::specs::Lines::roll_of))]
fn read_roll(text: &[u8]) -> Result<Request, BadField>
    ensures { ReadsAll result (roll_of (fields_left text.now)) }
{
    let mut rest = text;
    let day = day_field(2, &mut rest)?;
    at_end(3, rest)?;
    Ok(Request::Shared(Shared::Roll(day)))
}

#[tactic(auto, unfolding(crate::specs::Lines::holiday_of))]
fn read_holiday(text: &[u8]) -> Result<Request, BadField>
    ensures { ReadsAll result (holiday_of (fields_left text.now)) }
{
    let mut rest = text;
    let day = day_field(2, &mut rest)?;
    at_end(3, rest)?;
    Ok(Request::Shared(Shared::Holiday(day)))
}

#[tactic(auto, unfolding(crate::specs::Lines::fee_row_of))]
fn read_fee_row(text: &[u8]) -> Result<Request, BadField>
    ensures { ReadsAll result (fee_row_of (fields_left text.now)) }
{
    let mut rest = text;
    let day = day_field(2, &mut rest)?;
    let first = number_field(3, &mut rest)?;
    let repeat = number_field(4, &mut rest)?;
    let row = Shared::FeeRow { day, first, repeat };
    at_end(5, rest)?;
    Ok(Request::Shared(row))
}

#[tactic(auto, unfolding(crate::specs::Lines::index_of))]
fn read_index(text: &[u8]) -> Result<Request, BadField>
    ensures { ReadsAll result (index_of (fields_left text.now)) }
{
    let mut rest = text;
    let day = day_field(2, &mut rest)?;
    let rate = number_field(3, &mut rest)?;
    at_end(4, rest)?;
    Ok(Request::Shared(Shared::Index { day, rate }))
}

#[tactic(auto, unfolding(crate::specs::Lines::posted_of))]
fn read_posted(kind: PostKind, text: &[u8]) -> Result<Request, BadField>
    ensures { ReadsAll result (posted_of kind (fields_left text.now)) }
{
    let mut rest = text;
    let account = name_field(2, &mut rest)?;
    let key = name_field(3, &mut rest)?;
    let post = read_post(kind, rest)?;
    Ok(Request::Post { account, key, post })
}

#[tactic(auto, unfolding(crate::specs::Lines::show_of))]
fn read_show(text: &[u8]) -> Result<Name, BadField>
    ensures { ReadsAll result (show_of (fields_left text.now)) }
{
    let mut rest = text;
    let account = name_field(2, &mut rest)?;
    at_end(3, rest)?;
    Ok(account)
}
