// The items of all records.
use crate::item::Item;
use crate::reading::RecordReader;
use crate::record::import_record;
use card_events::NoMemory;
use std::alloc::Global;
use std::marker::Model;

/// The items that are left of the records of some bytes, in order, without a good header.
#[derive(Drop)]
pub struct Records<'a> {
    records: RecordReader<'a>,
    // How many records were taken.
    number: u64,
}

impl<'a> Model for Records<'a> {
    ghost use Rattle.std.specs.Prelude.{List, length, ◌+◌, ◌<◌, ◌^◌};
    ghost use Rattle.card_text.specs.declared.item.Item.{Item};
    ghost use Rattle.card_text.specs.Import.{items_of};

    ghost Value = { List Item };

    ghost view = { λ r. items_of (r.number + 1) r.records };

    ghost invariant = { λ r. r.number + length r.records < 2 ^ 64 };
}

impl<'a> Records<'a> {
    ghost use Rattle.std.specs.Prelude.{◌≡◌, [], drop, slice_get, IfOk, IfSome, OnOk, OnErr};
    ghost use Rattle.card_text.specs.Import.{items_of_bytes};
    ghost use Rattle.card_text.specs.Items.{IsDatedItem};

    /// The items of all records of these bytes. They are read as CSV: fields between commas, quoted or not; CR, LF and CR LF
    /// end records; empty lines are none; records may differ in length; a byte order mark at the start is left out.
    pub fn of(alloc: Global, bytes: &'a [u8]) -> Result<Records<'a>, NoMemory>
        ensures { IfOk result (λ r. r ≡ items_of_bytes bytes.now) }
    {
        let records = RecordReader::of(alloc, bytes)?;
        Ok(Records { records, number: 0 })
    }

    /// Takes away the first item that is left. None comes exactly where none is; if memory runs out, none is.
    pub fn next_item(&mut self, alloc: Global) -> Result<Option<Item>, NoMemory>
        ensures item { IfOk result (λ item. item ≡ slice_get self.old 0) }
        ensures left { OnOk result (self.new ≡ drop 1 self.old) }
        ensures dated { IfOk result (λ item. IfSome item IsDatedItem) }
        ensures err { OnErr result (self.new ≡ []) }
    {
        match self.take_item(alloc) {
            Ok(item) => Ok(item),
            Err(NoMemory) => {
                self.records.end();
                Err(NoMemory)
            }
        }
    }

    fn take_item(&mut self, alloc: Global) -> Result<Option<Item>, NoMemory>
        ensures item { IfOk result (λ item. item ≡ slice_get self.old 0) }
        ensures left { OnOk result (self.new ≡ drop 1 self.old) }
        ensures dated { IfOk result (λ item. IfSome item IsDatedItem) }
    {
        while let Some(fields) = self.records.next_record(alloc)? {
            self.number += 1;
            if let Some(item) = import_record(self.number, &fields) {
                return Ok(Some(item));
            }
        }
        Ok(None)
    }
}
