// One record.
ghost use Rattle.std.specs.Prelude.{◌≡◌, ◌↔◌, None, IfSome};
ghost use Rattle.card_lines.specs.Fields.{ReadsAll};
ghost use Rattle.csv.specs.Records.{fields_of};
ghost use Rattle.card_text.specs.Import.{header, header_of, request_of, item_of_record};
ghost use Rattle.card_text.specs.Import as spec;
ghost use Rattle.card_text.specs.Items.{IsDatedItem};

use crate::header::read_header;
use crate::item::Item;
use crate::post::read_post;
use crate::record_columns::{kind_column, name_column, no_column};
use card_events::Request;
use card_lines::BadField;
use csv::ByteRecord;

/// What the record says that has this number, counted from 1. Record 1 is to be the header
/// `account,key,kind,day,place,cents,minute,channel`; None comes exactly for it. Each other record has these eight fields:
/// `charge` and `credit` with a place, and with minute and channel empty; `payment` with its place empty. A record that isn't
/// so is bad in its first column, counted from 1, that is missing, surplus or not of its form. Days are days of requests.
pub fn import_record(row: u64, fields: &ByteRecord) -> Option<Item>
    ensures item { result ≡ item_of_record row (fields_of fields.now) }
    ensures none { (result ≡ None) ↔ ((row ≡ 1) × (fields_of fields.now ≡ header)) }
    ensures dated { IfSome result IsDatedItem }
{
    read_item(row, fields)
}

#[tactic(auto, unfolding(crate::specs::Import::item_of_record))]
fn read_item(row: u64, fields: &ByteRecord) -> Option<Item>
    ensures { result ≡ item_of_record row (fields_of fields.now) }
{
    if row == 1 {
        return header_item(fields);
    }
    match read_request(fields) {
        Ok(request) => Some(Item::Request(request)),
        Err(BadField(field)) => Some(Item::Bad { number: row, field }),
    }
}

fn header_item(fields: &ByteRecord) -> Option<Item>
    ensures { result ≡ spec.header_item (header_of (fields_of fields.now)) }
{
    match read_header(fields) {
        Ok(()) => None,
        Err(BadField(field)) => Some(Item::Bad { number: 1, field }),
    }
}

#[tactic(auto, unfolding(crate::specs::Import::request_of))]
fn read_request(fields: &ByteRecord) -> Result<Request, BadField>
    ensures { ReadsAll result (request_of (fields_of fields.now)) }
{
    let account = name_column(fields, 1)?;
    let key = name_column(fields, 2)?;
    let kind = kind_column(fields, 3)?;
    let post = read_post(kind, fields)?;
    no_column(fields, 9)?;
    Ok(Request::Post { account, key, post })
}
