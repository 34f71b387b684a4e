// The entries of an account as CSV.
ghost use Rattle.std.specs.Fmt.{decimal};
ghost use Rattle.std.specs.Prelude.{◌≡◌, ◌<◌, ◌++◌, length, IfOk, OnOk};
ghost use Rattle.std.specs.Io.KnownBytes.{Appends};
ghost use Rattle.std.specs.List.{All, flat_map};
ghost use Rattle.std.specs.Str.{IsUtf8};
ghost use Rattle.std.specs.String.{string_bytes};
ghost use Rattle.csv.specs.Writing.{default_writer, row_text, text_written};
ghost use Rattle.card_text.specs.Export as spec;
ghost use Rattle.card_text.specs.Records.{IsAtRecord};

use card_events::NoMemory;
use card_model::{Entry, EntryKind, Segment, Sort};
use csv::{Writer, WriterBuilder};
use std::alloc::Global;
use std::io::Write;

/// Why an entry stands, in a word.
pub fn kind_word(kind: EntryKind) -> &'static str
    ensures { result.now ≡ spec.kind_word kind }
{
    match kind {
        EntryKind::Charge => "charge",
        EntryKind::Credit => "credit",
        EntryKind::Payment => "payment",
        EntryKind::Return => "return",
        EntryKind::Refund => "refund",
        EntryKind::Fee => "fee",
        EntryKind::Interest => "interest",
        EntryKind::Hold => "hold",
    }
}

// A word with the number behind it.
fn numbered(alloc: Global, word: &str, number: u8) -> Result<String, NoMemory>
    ensures { IfOk result (λ text. string_bytes text ≡ word.now ++ decimal number) }
{
    Ok(format!(in alloc; "{word}{number}")?)
}

// The name of the segment of a sort with a number.
pub fn segment_name(alloc: Global, sort: Sort, number: u8) -> Result<String, NoMemory>
    ensures { IfOk result (λ text. string_bytes text ≡ spec.segment_name sort number) }
{
    match sort {
        Sort::Credit => Ok(String::from_str(alloc, "credit")?),
        Sort::Held => Ok(String::from_str(alloc, "held")?),
        Sort::Purchase => numbered(alloc, "purchase:", number),
        Sort::Cash => numbered(alloc, "cash:", number),
        Sort::Transfer => numbered(alloc, "transfer:", number),
        Sort::Promo => numbered(alloc, "promo:", number),
        Sort::Deferred => numbered(alloc, "deferred:", number),
    }
}

// Writes the names of the columns.
fn write_columns<W: Write + Drop>(writer: &mut Writer<W>) -> Result<(), NoMemory>
    requires { IsAtRecord writer.old }
    ensures row { OnOk result (Appends (text_written W.contents writer.old) (text_written W.contents writer.new) (row_text default_writer spec.columns)) }
    ensures next { OnOk result (IsAtRecord writer.new) }
{
    let columns = [
        "day".as_bytes(),
        "segment".as_bytes(),
        "kind".as_bytes(),
        "post".as_bytes(),
        "cents".as_bytes(),
    ];
    match writer.write_fields(&columns) {
        Ok(()) => Ok(()),
        Err(_) => Err(NoMemory),
    }
}

// Writes the record of an entry on a segment of a sort.
fn write_entry<W: Write + Drop>(
    alloc: Global,
    writer: &mut Writer<W>,
    entry: &Entry,
    sort: Sort,
) -> Result<(), NoMemory>
    requires { IsAtRecord writer.old }
    ensures row { OnOk result (Appends (text_written W.contents writer.old) (text_written W.contents writer.new) (row_text default_writer (spec.entry_fields sort entry.now))) }
    ensures next { OnOk result (IsAtRecord writer.new) }
    ensures utf8 { OnOk result (IsUtf8 (row_text default_writer (spec.entry_fields sort entry.now))) }
{
    let day = entry.day.to_string(alloc)?;
    let segment = segment_name(alloc, sort, entry.segment)?;
    let post = entry.post.to_string(alloc)?;
    let cents = entry.cents.to_string(alloc)?;
    let fields = [
        day.as_bytes(),
        segment.as_bytes(),
        kind_word(entry.kind).as_bytes(),
        post.as_bytes(),
        cents.as_bytes(),
    ];
    match writer.write_fields(&fields) {
        Ok(()) => Ok(()),
        Err(_) => Err(NoMemory),
    }
}

// Writes the records of entries.
#[tactic(auto, unfolding(crate::specs::Export::entry_row))]
fn write_entries<W: Write + Drop>(
    alloc: Global,
    writer: &mut Writer<W>,
    entries: &[Entry],
    segments: &[Segment],
) -> Result<(), NoMemory>
    requires next { IsAtRecord writer.old }
    requires segments { All (λ e. e.segment < length segments.now) entries.now }
    ensures rows { OnOk result (Appends (text_written W.contents writer.old) (text_written W.contents writer.new) (flat_map (spec.entry_row segments.now) entries.now)) }
    ensures utf8 { OnOk result (IsUtf8 (flat_map (spec.entry_row segments.now) entries.now)) }
{
    for i in 0..entries.len() {
        let entry = &entries[i];
        write_entry(alloc, writer, entry, segments[entry.segment as usize].sort)?;
    }
    Ok(())
}

// The bytes of the entries as CSV.
#[tactic(auto, unfolding(crate::specs::Export::export_text))]
fn export_bytes(alloc: Global, entries: &[Entry], segments: &[Segment]) -> Result<Vec<u8>, NoMemory>
    requires { All (λ e. e.segment < length segments.now) entries.now }
    ensures bytes { IfOk result (λ bytes. bytes.items ≡ spec.export_text entries.now segments.now) }
    ensures utf8 { OnOk result (IsUtf8 (spec.export_text entries.now segments.now)) }
{
    let mut writer = WriterBuilder::new().from_writer(Vec::new(alloc));
    write_columns(&mut writer)?;
    write_entries(alloc, &mut writer, entries, segments)?;
    match writer.into_inner() {
        Ok(bytes) => Ok(bytes),
        Err(_) => Err(NoMemory),
    }
}

/// The entries of an account as CSV, in their order: the columns `day,segment,kind,post,cents`, then a record an entry, with
/// its day as `YYYY-MM-DD`, its segment (`credit`, `held`, or the sort and the number, as `purchase:2`), its kind, the number
/// of its post, 0 for interest and late fees, and its cents with a minus where they lower what is owed. Each record ends with
/// a line feed.
pub fn export_text(
    alloc: Global,
    entries: &[Entry],
    segments: &[Segment],
) -> Result<String, NoMemory>
    requires { All (λ e. e.segment < length segments.now) entries.now }
    ensures { IfOk result (λ text. string_bytes text ≡ spec.export_text entries.now segments.now) }
{
    match String::from_utf8(export_bytes(alloc, entries, segments)?) {
        Ok(text) => Ok(text),
        Err(_) => unreachable!(),
    }
}
