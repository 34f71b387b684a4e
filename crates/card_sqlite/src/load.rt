ghost use Rattle.std.specs.Prelude.{◌≡◌, ◌≤◌, ◌++◌, ◌∷◌, [], false, IfOk, OnOk, OnErr};
ghost use Rattle.sqlite_trees.specs.View.{doubt};
ghost use Rattle.sqlite_value.specs.Order.{column};
ghost use Rattle.sqlite.specs.State.{HasCleanDisk, IsUnchanged};
ghost use Rattle.sqlite.specs.Held.{state};
ghost use Rattle.sqlite.specs.Values.{IsInt};
ghost use Rattle.card_sqlite.specs.Kept.{kept_schema, row_in, seq_in, IsFor, Creates, Keeps, AreKept, IsSettled, Stays, StaysKept};
ghost use Rattle.card_sqlite.specs.Reading.{ReadsOn, IsLeft};
ghost use Rattle.sqlite.specs.declared.types.Value.TheVariants.{Int, Blob};

use card_ports::Rows;
use sqlite::types::Type;
use sqlite::{Alter, Connection, Error, ErrorCode, Row as Record, Rows as Records};
use sqlite_value::value::ValueRef;
use std::alloc::Global;

// Makes the table `kept` where it is missing.
fn create<S: Alter>(conn: &mut Connection<S>) -> Result<usize, Error>
    ensures made { HasCleanDisk (state S.Store conn.new) → IsFor (state S.Store conn.old).now.schema → OnOk result (Creates (state S.Store conn.old).now (state S.Store conn.new).now) }
    ensures settled { HasCleanDisk (state S.Store conn.new) → IsFor (state S.Store conn.old).now.schema → IsSettled (state S.Store conn.old) → OnOk result (IsSettled (state S.Store conn.new)) }
    ensures err { HasCleanDisk (state S.Store conn.new) → IsSettled (state S.Store conn.old) → OnErr result (Stays (state S.Store conn.old) (state S.Store conn.new)) }
    ensures mode { HasCleanDisk (state S.Store conn.new) → IsFor (state S.Store conn.old).now.schema → IsSettled (state S.Store conn.old) → (state S.Store conn.new).in_transaction ≡ false }
    ensures clean { doubt (state S.Store conn.old).is_clean ≤ doubt (state S.Store conn.new).is_clean }
{
    conn.execute(
        "CREATE TABLE IF NOT EXISTS kept (seq INTEGER PRIMARY KEY, body BLOB NOT NULL) STRICT",
        &[],
    )
}

// A seq below 0 reads as 0.
fn seq_of(seq: i64) -> u64
    ensures { result ≡ seq_in (Int seq) }
{
    // No row has the number 0, so such a record is damaged.
    if seq < 0 { 0 } else { seq as u64 }
}

// The bytes of a record's body, where they lie.
fn body_of(found: &Record) -> Result<&[u8], Error>
    ensures { IfOk result (λ body. column found.now 1 ≡ Blob body.now) }
{
    match found.get_ref(1)? {
        ValueRef::Blob(body) => Ok(body),
        other => Err(Error::InvalidColumnType(1, Type::of(other))),
    }
}

// Adds the row of a record at the end.
fn add_row(rows: &mut Rows, found: &Record) -> Result<(), Error>
    ensures row { OnOk result (rows.new ≡ rows.old ++ row_in found.now ∷ []) }
    ensures number { OnOk result (IsInt (column found.now 0)) }
{
    let seq: i64 = found.get(0)?;
    match rows.push(seq_of(seq), body_of(found)?) {
        Ok(()) => Ok(()),
        Err(_) => Err(Error::SqliteFailure(ErrorCode::OutOfMemory)),
    }
}

// Moves to the next record and adds its row. False comes past the last.
fn add_next<S: Alter>(records: &mut Records<'_, S>, rows: &mut Rows) -> Result<bool, Error>
    ensures same_reference { records.new.conn.ghost_name ≡ records.old.conn.ghost_name }
    ensures read { HasCleanDisk (state S.Store records.new.conn.now) → IfOk result (ReadsOn S.Store records.old.conn.now records.new.conn.now rows.old rows.new) }
    ensures ok { HasCleanDisk (state S.Store records.new.conn.now) → OnOk result (IsUnchanged (state S.Store records.old.conn.now) (state S.Store records.new.conn.now)) }
    ensures err { HasCleanDisk (state S.Store records.new.conn.now) → OnErr result (IsLeft (state S.Store records.old.conn.now) (state S.Store records.new.conn.now)) }
    ensures mode { records.old.conn.now.in_transaction ≡ false → records.new.conn.now.in_transaction ≡ false }
    ensures clean { doubt (state S.Store records.old.conn.now).is_clean ≤ doubt (state S.Store records.new.conn.now).is_clean }
{
    records.advance()?;
    match records.get() {
        Some(record) => {
            add_row(rows, record)?;
            Ok(true)
        }
        None => Ok(false),
    }
}

// The rows of the records of `kept`, in order of seq. Each is added as its record is read.
fn read<S: Alter>(conn: &mut Connection<S>, alloc: Global) -> Result<Rows, Error>
    ensures given { HasCleanDisk (state S.Store conn.new) → (state S.Store conn.old).now.schema ≡ kept_schema → IfOk result (AreKept (state S.Store conn.old).now.trees) }
    ensures ok { HasCleanDisk (state S.Store conn.new) → (state S.Store conn.old).now.schema ≡ kept_schema → OnOk result (IsUnchanged (state S.Store conn.old) (state S.Store conn.new)) }
    ensures err { HasCleanDisk (state S.Store conn.new) → (state S.Store conn.old).now.schema ≡ kept_schema → IsSettled (state S.Store conn.old) → OnErr result (Stays (state S.Store conn.old) (state S.Store conn.new)) }
    ensures mode { (state S.Store conn.old).in_transaction ≡ false → (state S.Store conn.new).in_transaction ≡ false }
    ensures clean { doubt (state S.Store conn.old).is_clean ≤ doubt (state S.Store conn.new).is_clean }
{
    let mut rows = Rows::new(alloc);
    let mut records = conn.query("SELECT seq, body FROM kept ORDER BY seq", &[])?;
    'records: for _ in 0..u64::MAX {
        if !add_next(&mut records, &mut rows)? {
            return Ok(rows);
        }
    }
    // No disk holds so many records.
    Err(Error::SqliteFailure(ErrorCode::TooBig))
}

/// Makes the table where it is missing, and gives its rows.
pub(crate) fn load<S: Alter>(conn: &mut Connection<S>, alloc: Global) -> Result<Rows, Error>
    ensures given { HasCleanDisk (state S.Store conn.new) → IsFor (state S.Store conn.old).now.schema → IfOk result (λ rows. Keeps (state S.Store conn.old).now rows) }
    ensures made { HasCleanDisk (state S.Store conn.new) → IsFor (state S.Store conn.old).now.schema → OnOk result (Creates (state S.Store conn.old).now (state S.Store conn.new).now) }
    ensures kept { HasCleanDisk (state S.Store conn.new) → IsFor (state S.Store conn.old).now.schema → IsSettled (state S.Store conn.old) → StaysKept (state S.Store conn.old) (state S.Store conn.new) }
    ensures mode { HasCleanDisk (state S.Store conn.new) → IsFor (state S.Store conn.old).now.schema → IsSettled (state S.Store conn.old) → (state S.Store conn.new).in_transaction ≡ false }
    ensures clean { doubt (state S.Store conn.old).is_clean ≤ doubt (state S.Store conn.new).is_clean }
{
    create(conn)?;
    read(conn, alloc)
}
