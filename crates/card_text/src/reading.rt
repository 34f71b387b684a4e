// The records of some bytes, in order.
use card_events::NoMemory;
use csv::{ByteRecord, ErrorKind, Reader, ReaderBuilder};
use std::alloc::Global;
use std::marker::Model;

/// The records that are left of some bytes. There is no reader where none is left.
#[derive(Drop)]
pub struct RecordReader<'a> {
    reader: Option<Box<Reader<&'a [u8]>>>,
}

impl<'a> Model for RecordReader<'a> {
    ghost use Rattle.std.specs.Prelude.{ℕ, List, IfSome};
    ghost use Rattle.card_text.specs.Reading.{records_of, IsReading};

    ghost Value = { List (List (List ℕ)) };

    ghost view = { λ r. records_of r.reader };

    ghost invariant = { λ r. IfSome r.reader (λ reader. IsReading reader.value) };
}

impl<'a> RecordReader<'a> {
    ghost use Rattle.std.specs.Prelude.{◌≡◌, ◌≤◌, ◌+◌, [], drop, length, slice_get, option_map, IfOk, OnOk, OnErr};
    ghost use Rattle.csv.specs.Reading.{default_config, records, strip_bom};
    ghost use Rattle.csv.specs.Records.{fields_of};

    /// All records of these bytes, without a byte order mark at their start. They may differ in length.
    pub fn of(alloc: Global, bytes: &'a [u8]) -> Result<RecordReader<'a>, NoMemory>
        ensures value { IfOk result (λ r. r ≡ records default_config (strip_bom bytes.now)) }
        ensures few { IfOk result (λ r. length r ≤ length bytes.now + 1) }
    {
        let reader = ReaderBuilder::new()
            .has_headers(false)
            .flexible(true)
            .from_reader(alloc, bytes);
        let reader = Box::new(alloc, reader)?;
        Ok(RecordReader {
            reader: Some(reader),
        })
    }

    /// Takes away the first record that is left. None comes exactly where none is; if memory runs out, none is.
    pub fn next_record(&mut self, alloc: Global) -> Result<Option<ByteRecord>, NoMemory>
        ensures first { IfOk result (λ found. option_map fields_of found ≡ slice_get self.old 0) }
        ensures left { OnOk result (self.new ≡ drop 1 self.old) }
        ensures err { OnErr result (self.new ≡ []) }
    {
        let Some(mut reader) = self.reader.take() else {
            return Ok(None);
        };
        let mut fields = ByteRecord::new(alloc);
        match reader.read_byte_record(&mut fields) {
            Ok(true) => {
                self.reader = Some(reader);
                Ok(Some(fields))
            }
            Ok(false) => Ok(None),
            Err(error) => match error.kind() {
                ErrorKind::Io(_) | ErrorKind::OutOfMemory => Err(NoMemory),
                _ => unreachable!(),
            },
        }
    }

    /// No record is left.
    pub fn end(&mut self)
        ensures { self.new ≡ [] }
    {
        self.reader = None;
    }
}
