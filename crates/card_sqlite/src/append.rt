ghost use Rattle.std.specs.Prelude.{◌≡◌, [], ◌∷◌, false, pos, FitsSigned, IsTrue, IfSome, OnOk, OnErr};
ghost use Rattle.std.specs.Int.{w64};
ghost use Rattle.sqlite.specs.State.{HasCleanDisk, KeepsCommit, Survives, ExecutesInside};
ghost use Rattle.sqlite.specs.Held.{state};
ghost use Rattle.sqlite.specs.declared.types.Value.TheVariants.{Int, Blob};
ghost use Rattle.card_sqlite.specs.Kept.{insert_text, kept_schema, AddsRow, AddsAll, Grows, GrowsTable, InTransaction, IsSettled, Stays};

use card_ports::Row;
use sqlite::{Alter, Connection, Error, ErrorCode, Transaction, params};

// The seq as a rowid, where it is one.
fn rowid_of(seq: u64) -> Option<i64>
    ensures same { IfSome result (λ id. id ≡ pos seq) }
    ensures fits { IfSome result (FitsSigned w64) }
{
    i64::try_from(seq).ok()
}

fn put<S: Alter>(tx: &mut Transaction<'_, S>, seq: i64, body: &[u8]) -> Result<usize, Error>
    ensures same_reference { tx.new.conn.ghost_name ≡ tx.old.conn.ghost_name }
    ensures runs { InTransaction (state S.Store tx.old.conn.now) (state S.Store tx.new.conn.now)
        (λ old new. ExecutesInside 0 insert_text (Int seq ∷ Blob body.now ∷ []) old new result) }
    ensures survives { Survives (state S.Store tx.old.conn.now) (state S.Store tx.new.conn.now) (λ _. ⊥) }
{
    tx.execute(
        "INSERT INTO kept (seq, body) VALUES (?1, ?2)",
        params![seq, body],
    )
}

fn insert<S: Alter>(tx: &mut Transaction<'_, S>, row: &Row) -> Result<usize, Error>
    ensures same_reference { tx.new.conn.ghost_name ≡ tx.old.conn.ghost_name }
    ensures added { InTransaction (state S.Store tx.old.conn.now) (state S.Store tx.new.conn.now) (λ old new. old.now.schema ≡ kept_schema → OnOk result (AddsRow row.now old new)) }
    ensures inside { InTransaction (state S.Store tx.old.conn.now) (state S.Store tx.new.conn.now) (λ old new. OnOk result (IsTrue new.in_transaction)) }
    ensures kept { InTransaction (state S.Store tx.old.conn.now) (state S.Store tx.new.conn.now) KeepsCommit }
    ensures survives { Survives (state S.Store tx.old.conn.now) (state S.Store tx.new.conn.now) (λ _. ⊥) }
{
    let Some(seq) = rowid_of(row.seq) else {
        return Err(Error::IntegralValueOutOfRange(0));
    };
    put(tx, seq, row.body.bytes())
}

fn insert_all<S: Alter>(tx: &mut Transaction<'_, S>, rows: &[Row]) -> Result<(), Error>
    ensures same_reference { tx.new.conn.ghost_name ≡ tx.old.conn.ghost_name }
    ensures added { InTransaction (state S.Store tx.old.conn.now) (state S.Store tx.new.conn.now) (λ old new. old.now.schema ≡ kept_schema → OnOk result (AddsAll rows.now old new)) }
    ensures inside { InTransaction (state S.Store tx.old.conn.now) (state S.Store tx.new.conn.now) (λ old new. OnOk result (IsTrue new.in_transaction)) }
    ensures kept { InTransaction (state S.Store tx.old.conn.now) (state S.Store tx.new.conn.now) KeepsCommit }
    ensures survives { Survives (state S.Store tx.old.conn.now) (state S.Store tx.new.conn.now) (λ _. ⊥) }
{
    for row in rows {
        insert(tx, row)?;
    }
    Ok(())
}

/// Adds the rows in one transaction. A connection that is in one already is refused.
pub(crate) fn append<S: Alter>(conn: &mut Connection<S>, rows: &[Row]) -> Result<(), Error>
    ensures added { HasCleanDisk (state S.Store conn.new) → (state S.Store conn.old).now.schema ≡ kept_schema
        → OnOk result (GrowsTable rows.now (state S.Store conn.old).now (state S.Store conn.new).now) }
    ensures err { HasCleanDisk (state S.Store conn.new) → IsSettled (state S.Store conn.old) → OnErr result (Stays (state S.Store conn.old) (state S.Store conn.new)) }
    ensures mode { conn.old.in_transaction ≡ false → conn.new.in_transaction ≡ false }
    ensures crash { Survives (state S.Store conn.old) (state S.Store conn.new) (λ trees. (state S.Store conn.old).now.schema ≡ kept_schema → Grows (state S.Store conn.old).now.trees rows.now trees) }
{
    if !conn.is_autocommit() {
        return Err(Error::SqliteFailure(ErrorCode::TransactionState));
    }
    let mut tx = conn.transaction();
    insert_all(&mut tx, rows)?;
    tx.commit()
}
