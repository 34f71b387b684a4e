//! Whether a schema is that of the ledger's file: no table, or `kept` alone, and nothing else.

ghost use Rattle.std.specs.Prelude.{◌≡◌, ◌↔◌, [], ◌∷◌, IsTrue};
ghost use Rattle.card_sqlite.specs.Kept.{HasNoRules, seq_column, body_column, kept, kept_schema, IsFor};

use sqlite_schema::code::Terms;
use sqlite_schema::schema::{Column, Kind, Schema, Stamps, Table};
use sqlite_value::keys::Collation;
use sqlite_value::value::Value;

fn is_seq(column: &Column) -> bool
    ensures { IsTrue result ↔ (column.now ≡ seq_column) }
{
    column.name.as_slice() == b"seq".as_slice()
        && matches!(column.kind, Kind::Integer)
        && column.is_strict
        && !column.not_null
        && matches!(&column.default, Value::Null)
        && matches!(column.collation, Collation::Binary)
}

fn is_body(column: &Column) -> bool
    ensures { IsTrue result ↔ (column.now ≡ body_column) }
{
    column.name.as_slice() == b"body".as_slice()
        && matches!(column.kind, Kind::Blob)
        && column.is_strict
        && column.not_null
        && matches!(&column.default, Value::Null)
        && matches!(column.collation, Collation::Binary)
}

fn are_columns(columns: &[Column]) -> bool
    ensures { IsTrue result ↔ (columns.now ≡ seq_column ∷ body_column ∷ []) }
{
    match columns {
        [seq, body] => is_seq(seq) && is_body(body),
        _ => false,
    }
}

fn are_none(terms: &Terms) -> bool
    ensures { IsTrue result ↔ (terms.now ≡ []) }
{
    terms.roots.is_empty()
}

fn has_no_stamps(stamps: &Stamps) -> bool
    ensures { IsTrue result ↔ (stamps.now ≡ record { places = []; terms = []; formats = [] }) }
{
    stamps.places.is_empty() && are_none(&stamps.terms) && stamps.formats.is_empty()
}

fn is_key(primary: &[usize]) -> bool
    ensures { IsTrue result ↔ (primary.now ≡ 0 ∷ []) }
{
    match primary {
        [place] => *place == 0,
        _ => false,
    }
}

fn has_no_rules(table: &Table) -> bool
    ensures { IsTrue result ↔ HasNoRules table.now }
{
    table.uniques.is_empty()
        && table.orders.is_empty()
        && are_none(&table.checks)
        && table.references.is_empty()
        && table.computed.is_empty()
        && has_no_stamps(&table.stamps)
        && !table.is_counted
}

fn is_kept(table: &Table) -> bool
    ensures { IsTrue result ↔ (table.now ≡ kept) }
{
    table.name.as_slice() == b"kept".as_slice()
        && table.tree == 0
        && are_columns(table.columns.as_slice())
        && table.key == Some(0)
        && is_key(table.primary.as_slice())
        && has_no_rules(table)
}

/// The schema is that of `kept` alone.
pub(crate) fn is_kept_alone(schema: &Schema) -> bool
    ensures { IsTrue result ↔ (schema.now ≡ kept_schema) }
{
    match schema.tables.as_slice() {
        [table] => is_kept(table) && schema.indexes.is_empty() && schema.views.is_empty(),
        _ => false,
    }
}

/// The schema has no table, or `kept` alone.
pub(crate) fn fits(schema: &Schema) -> bool
    ensures { IsTrue result ↔ IsFor schema.now }
{
    // What other tables and indexes do to the three statements isn't examined, so they are refused.
    let empty = schema.tables.is_empty() && schema.indexes.is_empty() && schema.views.is_empty();
    empty || is_kept_alone(schema)
}
