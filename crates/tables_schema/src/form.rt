//! Whether a table of a schema has exactly the form of one of the store's.

ghost use Rattle.std.specs.Prelude.{◌≡◌, ◌↔◌, [], ◌∷◌, map, IsTrue, bytes_eq};
ghost use Rattle.sqlite_value.specs.Keys.{plain};
ghost use Rattle.tables_schema.specs.Forms.{strict};
ghost use Rattle.tables_schema.specs.Shapes.{expected_column, IsPlain};

use sqlite_schema::schema::{Column, Kind, Table};
use sqlite_value::keys::Collation;
use sqlite_value::value::Value;

/// A column as the text that makes its table says: its name, its type, and whether it is NOT NULL.
#[derive(Clone, Copy)]
pub(crate) struct Expected<'a> {
    pub name: &'a [u8],
    pub kind: Kind,
    pub required: bool,
}

/// Columns in the words of SQL, their names as bytes: `b"hash" BLOB NOT NULL, b"deriver" TEXT`.
macro_rules! columns {
    (@kind TEXT) => { Kind::Text };
    (@kind BLOB) => { Kind::Blob };
    (@kind INTEGER) => { Kind::Integer };
    (@column $name:literal $kind:ident) => {
        Expected { name: $name, kind: columns!(@kind $kind), required: false }
    };
    (@column $name:literal $kind:ident NOT NULL) => {
        Expected { name: $name, kind: columns!(@kind $kind), required: true }
    };
    ($($name:literal $($word:ident)+),+ $(,)?) => {
        [$(columns!(@column $name $($word)+)),+]
    };
}

pub(crate) use columns;

pub(crate) fn same_text(a: &[u8], b: &[u8]) -> bool
    ensures same { IsTrue result ↔ a.now ≡ b.now }
    ensures value { result ≡ bytes_eq a.now b.now }
{
    a == b
}

pub(crate) fn same_places(a: &[usize], b: &[usize]) -> bool
    ensures same { IsTrue result ↔ a.now ≡ b.now }
    ensures value { result ≡ bytes_eq a.now b.now }
{
    a == b
}

fn is_column(column: &Column, wanted: &Expected<'_>) -> bool
    ensures { IsTrue result ↔ column.now ≡ expected_column wanted.now }
{
    same_text(column.name.as_slice(), wanted.name)
        && column.kind == wanted.kind
        && column.is_strict
        && column.not_null == wanted.required
        && matches!(column.default, Value::Null)
        && column.collation == Collation::Binary
}

fn are_columns(columns: &[Column], wanted: &[Expected<'_>]) -> bool
    ensures { IsTrue result ↔ columns.now ≡ map expected_column wanted.now }
{
    if columns.len() != wanted.len() {
        return false;
    }
    for at in 0..columns.len() {
        if !is_column(&columns[at], &wanted[at]) {
            return false;
        }
    }
    true
}

/// A table with no more than columns and keys.
fn is_plain(table: &Table) -> bool
    ensures { IsTrue result ↔ IsPlain table.now }
{
    table.key.is_none()
        && table.checks.roots.is_empty()
        && table.references.is_empty()
        && table.computed.is_empty()
        && table.stamps.places.is_empty()
        && table.stamps.terms.roots.is_empty()
        && table.stamps.formats.is_empty()
        && !table.is_counted
}

fn is_only_key(table: &Table, key: &[usize]) -> bool
    ensures { IsTrue result ↔ (table.now.uniques ≡ key.now ∷ []) × (table.now.orders ≡ plain ∷ []) }
{
    let [only] = table.uniques.as_slice() else {
        return false;
    };
    let [order] = table.orders.as_slice() else {
        return false;
    };
    same_places(only.as_slice(), key) && order.digits == 0
}

/// Whether the table is STRICT, has these columns and this PRIMARY KEY, and nothing else.
pub(crate) fn is_table(
    table: &Table,
    name: &[u8],
    tree: u32,
    columns: &[Expected<'_>],
    key: &[usize],
) -> bool
    ensures { IsTrue result
        ↔ table.now ≡ record (strict name.now (map expected_column columns.now) key.now) { tree = tree } }
{
    is_plain(table)
        && same_text(table.name.as_slice(), name)
        && table.tree == tree
        && are_columns(table.columns.as_slice(), columns)
        && same_places(table.primary.as_slice(), key)
        && is_only_key(table, key)
}
