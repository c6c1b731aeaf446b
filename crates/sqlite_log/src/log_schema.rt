//! Whether a database has the table of a log, and nothing else. Called by `opening`.
ghost use Rattle.std.specs.Prelude.{◌≡◌, ◌↔◌, IsTrue};
ghost use Rattle.sqlite_log.specs.Table.{HasNoRules, log_columns, last_columns};
ghost use Rattle.sqlite_log.specs.Table.{column_of, log_schema, log_table, no_schema};

use sqlite_schema::schema::{Column, Kind, Schema, Table};
use sqlite_value::keys::Collation;
use sqlite_value::value::Value;

/// Nothing stands in the database.
pub(crate) fn is_blank(schema: &Schema) -> bool
    ensures { IsTrue result ↔ (schema.now ≡ no_schema) }
{
    schema.tables.is_empty() && schema.indexes.is_empty() && schema.views.is_empty()
}

/// The table of a log stands in it, and nothing else.
pub(crate) fn is_log_schema(schema: &Schema) -> bool
    ensures { IsTrue result ↔ (schema.now ≡ log_schema) }
{
    match schema.tables.as_slice() {
        [table] => is_log_table(table) && schema.indexes.is_empty() && schema.views.is_empty(),
        _ => false,
    }
}

fn is_log_table(table: &Table) -> bool
    ensures { IsTrue result ↔ (table.now ≡ log_table) }
{
    table.name.as_slice() == b"record".as_slice()
        && table.tree == 0
        && are_log_columns(table.columns.as_slice())
        && table.key == Some(0)
        && table.primary.as_slice() == [0usize].as_slice()
        && has_no_rules(table)
}

/// No rule but those of its columns.
fn has_no_rules(table: &Table) -> bool
    ensures { IsTrue result ↔ HasNoRules table.now }
{
    table.uniques.is_empty()
        && table.orders.is_empty()
        && table.checks.roots.is_empty()
        && table.references.is_empty()
        && table.computed.is_empty()
        && table.stamps.places.is_empty()
        && table.stamps.terms.roots.is_empty()
        && table.stamps.formats.is_empty()
        && !table.is_counted
}

fn are_log_columns(columns: &[Column]) -> bool
    ensures { IsTrue result ↔ (columns.now ≡ log_columns) }
{
    match columns {
        [seq, kind, origin, more @ ..] => {
            is_column(seq, b"seq", Kind::Integer, false)
                && is_column(kind, b"kind", Kind::Text, true)
                && is_column(origin, b"origin", Kind::Text, false)
                && are_last_columns(more)
        }
        _ => false,
    }
}

fn are_last_columns(columns: &[Column]) -> bool
    ensures { IsTrue result ↔ (columns.now ≡ last_columns) }
{
    match columns {
        [number, user, dest, text] => {
            is_column(number, b"number", Kind::Integer, false)
                && is_column(user, b"user", Kind::Text, false)
                && is_column(dest, b"dest", Kind::Text, false)
                && is_column(text, b"text", Kind::Blob, false)
        }
        _ => false,
    }
}

/// A column of this name takes values of this type alone.
fn is_column(column: &Column, name: &[u8], kind: Kind, not_null: bool) -> bool
    ensures { IsTrue result ↔ (column.now ≡ column_of name.now kind not_null) }
{
    column.name.as_slice() == name
        && column.kind == kind
        && column.is_strict
        && column.not_null == not_null
        && matches!(column.default, Value::Null)
        && column.collation == Collation::Binary
}
