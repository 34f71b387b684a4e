// The columns of a record, counted from 1.
ghost use Rattle.std.specs.Prelude.{◌≡◌, ◌≤◌, ◌-◌, Some, None, IfOk, IfErr};
ghost use Rattle.card_lines.specs.Fields.{ReadsAll};
ghost use Rattle.card_lines.specs.Forms.{name_of, number_of, day_of, place_of, channel_of};
ghost use Rattle.csv.specs.Records.{fields_of, field_at};
ghost use Rattle.card_text.specs.Columns.{column, exactly, no_column};
ghost use Rattle.card_text.specs.Kinds.{kind_of};

use crate::kind::{RecordKind, read_kind};
use card_events::{Channel, Day, Name, Num, Place};
use card_lines::{BadField, read_channel, read_day, read_number, read_place};
use csv::ByteRecord;

fn field(fields: &ByteRecord, number: u8) -> Result<&[u8], BadField>
    requires { 1 ≤ number }
    ensures ok { IfOk result (λ text. field_at (fields_of fields.now) (number - 1) ≡ Some text.now) }
    ensures err { IfErr result (λ bad. (field_at (fields_of fields.now) (number - 1) ≡ None) × (bad.0 ≡ number)) }
{
    match fields.get(number as usize - 1) {
        None => Err(BadField(number)),
        Some(text) => Ok(text),
    }
}

/// The column as a name.
#[tactic(auto, unfolding(card_lines::specs::Forms::name_of))]
pub fn name_column(fields: &ByteRecord, number: u8) -> Result<Name, BadField>
    requires { 1 ≤ number }
    ensures { ReadsAll result (column name_of number (fields_of fields.now)) }
{
    let text = field(fields, number)?;
    match Name::read(text) {
        None => Err(BadField(number)),
        Some(name) => Ok(name),
    }
}

/// The column as a kind.
pub fn kind_column(fields: &ByteRecord, number: u8) -> Result<RecordKind, BadField>
    requires { 1 ≤ number }
    ensures { ReadsAll result (column kind_of number (fields_of fields.now)) }
{
    let text = field(fields, number)?;
    match read_kind(text) {
        None => Err(BadField(number)),
        Some(kind) => Ok(kind),
    }
}

/// The column as a day.
pub fn day_column(fields: &ByteRecord, number: u8) -> Result<Day, BadField>
    requires { 1 ≤ number }
    ensures { ReadsAll result (column day_of number (fields_of fields.now)) }
{
    let text = field(fields, number)?;
    match read_day(text) {
        None => Err(BadField(number)),
        Some(day) => Ok(day),
    }
}

/// The column as a place.
pub fn place_column(fields: &ByteRecord, number: u8) -> Result<Place, BadField>
    requires { 1 ≤ number }
    ensures { ReadsAll result (column place_of number (fields_of fields.now)) }
{
    let text = field(fields, number)?;
    match read_place(text) {
        None => Err(BadField(number)),
        Some(place) => Ok(place),
    }
}

/// The column as a number.
pub fn number_column(fields: &ByteRecord, number: u8) -> Result<Num, BadField>
    requires { 1 ≤ number }
    ensures { ReadsAll result (column number_of number (fields_of fields.now)) }
{
    let text = field(fields, number)?;
    match read_number(text) {
        None => Err(BadField(number)),
        Some(value) => Ok(value),
    }
}

/// The column as a channel.
pub fn channel_column(fields: &ByteRecord, number: u8) -> Result<Channel, BadField>
    requires { 1 ≤ number }
    ensures { ReadsAll result (column channel_of number (fields_of fields.now)) }
{
    let text = field(fields, number)?;
    match read_channel(text) {
        None => Err(BadField(number)),
        Some(channel) => Ok(channel),
    }
}

/// The column has exactly these bytes.
#[tactic(auto, unfolding(crate::specs::Columns::exactly))]
pub fn fixed_column(fields: &ByteRecord, number: u8, text: &[u8]) -> Result<(), BadField>
    requires { 1 ≤ number }
    ensures { ReadsAll result (column (exactly text.now) number (fields_of fields.now)) }
{
    if field(fields, number)? == text {
        Ok(())
    } else {
        Err(BadField(number))
    }
}

/// The record has no such column.
pub fn no_column(fields: &ByteRecord, number: u8) -> Result<(), BadField>
    requires { 1 ≤ number }
    ensures { ReadsAll result (no_column number (fields_of fields.now)) }
{
    match field(fields, number) {
        Ok(_) => Err(BadField(number)),
        Err(_) => Ok(()),
    }
}
