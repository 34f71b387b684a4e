ghost use Rattle.card_lines.specs.Fields.{ReadsAll};
ghost use Rattle.csv.specs.Records.{fields_of};
ghost use Rattle.card_text.specs.Import.{header_of};

use crate::record_columns::{fixed_column, no_column};
use card_lines::BadField;
use csv::ByteRecord;

/// The record is the header, whose eight fields name the columns; else the first column that isn't as there.
#[tactic(auto, unfolding(crate::specs::Import::header_of, crate::specs::Import::exactly_all))]
pub fn read_header(fields: &ByteRecord) -> Result<(), BadField>
    ensures { ReadsAll result (header_of (fields_of fields.now)) }
{
    fixed_column(fields, 1, b"account")?;
    fixed_column(fields, 2, b"key")?;
    fixed_column(fields, 3, b"kind")?;
    fixed_column(fields, 4, b"day")?;
    fixed_column(fields, 5, b"place")?;
    fixed_column(fields, 6, b"cents")?;
    fixed_column(fields, 7, b"minute")?;
    fixed_column(fields, 8, b"channel")?;
    no_column(fields, 9)
}
