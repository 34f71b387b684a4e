// The columns of each kind of post, behind account, key and kind.
ghost use Rattle.card_lines.specs.Fields.{ReadsAll};
ghost use Rattle.csv.specs.Records.{fields_of};
ghost use Rattle.card_text.specs.Import.{post_of, movement_of, payment_of};

use crate::kind::RecordKind;
use crate::record_columns::{
    channel_column, day_column, fixed_column, number_column, place_column,
};
use card_events::{Day, Num, Place, Post};
use card_lines::BadField;
use csv::ByteRecord;

/// What a charge and a merchant's credit have alike.
#[derive(Clone, Copy)]
pub struct Movement {
    day: Day,
    place: Place,
    cents: Num,
}

/// The post of this kind that columns 4 to 8 give.
#[tactic(auto, unfolding(crate::specs::Import::post_of))]
pub fn read_post(kind: RecordKind, fields: &ByteRecord) -> Result<Post, BadField>
    ensures { ReadsAll result (post_of kind (fields_of fields.now)) }
{
    match kind {
        RecordKind::Charge => {
            let Movement { day, place, cents } = read_movement(fields)?;
            Ok(Post::Charge { day, place, cents })
        }
        RecordKind::Credit => {
            let Movement { day, place, cents } = read_movement(fields)?;
            Ok(Post::Credit { day, place, cents })
        }
        RecordKind::Payment => read_payment(fields),
    }
}

#[tactic(auto, unfolding(crate::specs::Import::movement_of))]
fn read_movement(fields: &ByteRecord) -> Result<Movement, BadField>
    ensures { ReadsAll result (movement_of (fields_of fields.now)) }
{
    let day = day_column(fields, 4)?;
    let place = place_column(fields, 5)?;
    let cents = number_column(fields, 6)?;
    let movement = Movement { day, place, cents };
    fixed_column(fields, 7, b"")?;
    fixed_column(fields, 8, b"")?;
    Ok(movement)
}

#[tactic(auto, unfolding(crate::specs::Import::payment_of))]
fn read_payment(fields: &ByteRecord) -> Result<Post, BadField>
    ensures { ReadsAll result (payment_of (fields_of fields.now)) }
{
    let day = day_column(fields, 4)?;
    fixed_column(fields, 5, b"")?;
    let cents = number_column(fields, 6)?;
    let minute = number_column(fields, 7)?;
    let channel = channel_column(fields, 8)?;
    Ok(Post::Payment {
        day,
        minute,
        channel,
        cents,
    })
}
