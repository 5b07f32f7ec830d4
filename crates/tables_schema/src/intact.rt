//! Whether a table is in a schema, whatever tables of other programs are next to it.

ghost use Rattle.std.specs.Prelude.{◌≡◌, ◌↔◌, ◌==◌, ◌^◌, ◌||◌, ◌&&◌, true, false, not, nat_le, map, find, Some, IsTrue};
ghost use Rattle.std.specs.Prelude.{bytes_eq};
ghost use Rattle.std.specs.List.{list_all};
ghost use Rattle.tables_schema.specs.Forms.{strict};
ghost use Rattle.tables_schema.specs.Shapes.{expected_column};
ghost use Rattle.tables_schema.specs.Intact.{IsIntact, points_at, is_unreferred, is_unshared, is_unguarded};
ghost use Rattle.tables_schema.specs.Presence.{HasForm, IsUnaffected, IsThis};

use crate::form::{Expected, is_table, same_places, same_text};
use sqlite_schema::schema::{Index, Reference, Schema, Table};

/// Whether the reference finds a table with this tree.
fn points_at(schema: &Schema, tree: u32, reference: &Reference) -> bool
    ensures { result ≡ points_at schema.now tree reference.now }
{
    match schema.table_named(reference.parent.as_slice()) {
        Some(at) => match schema.tables.as_slice().get(at) {
            Some(table) => table.tree == tree,
            None => false,
        },
        None => false,
    }
}

fn none_points_at(schema: &Schema, tree: u32, references: &[Reference]) -> bool
    ensures { result ≡ list_all (λ r. not (points_at schema.now tree r)) references.now }
{
    match references {
        [] => true,
        [first, rest @ ..] => {
            !points_at(schema, tree, first) && none_points_at(schema, tree, rest)
        }
    }
}

fn none_refers(schema: &Schema, tree: u32, tables: &[Table]) -> bool
    ensures { result ≡ list_all (λ t. list_all (λ r. not (points_at schema.now tree r)) t.references) tables.now }
{
    match tables {
        [] => true,
        [first, rest @ ..] => {
            none_points_at(schema, tree, first.references.as_slice())
                && none_refers(schema, tree, rest)
        }
    }
}

/// Whether it is another tree's table, or of this name.
fn is_unshared_by(table: &Table, name: &[u8], tree: u32) -> bool
    ensures { result ≡ (not (table.now.tree == tree) || bytes_eq table.now.name name.now) }
{
    table.tree != tree || same_text(table.name.as_slice(), name)
}

/// Whether no table of another name has the tree.
fn are_unshared(tables: &[Table], name: &[u8], tree: u32) -> bool
    ensures { result ≡ list_all (λ t. not (t.tree == tree) || bytes_eq t.name name.now) tables.now }
{
    match tables {
        [] => true,
        [first, rest @ ..] => {
            is_unshared_by(first, name, tree) && are_unshared(rest, name, tree)
        }
    }
}

/// Whether it is no unique index of the table, or that of its key.
fn is_key(index: &Index, tree: u32, key: &[usize]) -> bool
    ensures { result
        ≡ (not (index.now.is_unique && (index.now.table == tree))
        || (bytes_eq index.now.columns key.now && (index.now.order.digits == 0))) }
{
    if index.is_unique && index.table == tree {
        return same_places(index.columns.as_slice(), key) && index.order.digits == 0;
    }
    true
}

/// Whether each unique index of the table is that of its key.
fn are_keys(indexes: &[Index], tree: u32, key: &[usize]) -> bool
    ensures { result ≡ list_all
        (λ i. not (i.is_unique && (i.table == tree)) || (bytes_eq i.columns key.now && (i.order.digits == 0)))
        indexes.now }
{
    match indexes {
        [] => true,
        [first, rest @ ..] => { is_key(first, tree, key) && are_keys(rest, tree, key) }
    }
}

/// The first table with this tree is of this form.
fn is_first(
    tables: &[Table],
    tree: u32,
    name: &[u8],
    columns: &[Expected<'_>],
    key: &[usize],
) -> bool
    ensures { IsTrue result
        ↔ find (λ t. t.tree == tree) tables.now
        ≡ Some (record (strict name.now (map expected_column columns.now) key.now) { tree = tree }) }
{
    match tables {
        [] => false,
        [first, rest @ ..] => {
            if first.tree == tree {
                is_table(first, name, tree, columns, key)
            } else {
                is_first(rest, tree, name, columns, key)
            }
        }
    }
}

/// Whether the tree is none of a computed table.
fn is_low(tree: u32) -> bool
    ensures { IsTrue result ↔ nat_le (2 ^ 31) tree ≡ false }
{
    tree < 0x8000_0000
}

/// Whether the table has this form, and is found by its tree too.
fn has_form(
    tables: &[Table],
    table: &Table,
    name: &[u8],
    columns: &[Expected<'_>],
    key: &[usize],
) -> bool
    ensures { IsTrue result ↔ HasForm tables.now (strict name.now (map expected_column columns.now) key.now) table.now }
{
    is_table(table, name, table.tree, columns, key)
        && is_first(tables, table.tree, name, columns, key)
        && is_low(table.tree)
}

/// Whether nothing else acts on the table of this tree.
fn is_unaffected(schema: &Schema, name: &[u8], tree: u32, key: &[usize]) -> bool
    ensures { IsTrue result ↔ IsUnaffected schema.now name.now tree key.now }
{
    let tables = schema.tables.as_slice();
    none_refers(schema, tree, tables)
        && are_unshared(tables, name, tree)
        && are_keys(schema.indexes.as_slice(), tree, key)
}

/// Whether the table has this form, is found by its tree too, and nothing else acts on it.
fn is_this(
    schema: &Schema,
    table: &Table,
    name: &[u8],
    columns: &[Expected<'_>],
    key: &[usize],
) -> bool
    ensures { IsTrue result ↔ IsThis schema.now (strict name.now (map expected_column columns.now) key.now) table.now }
{
    has_form(schema.tables.as_slice(), table, name, columns, key)
        && is_unaffected(schema, name, table.tree, key)
}

/// Whether the first table of the name is of this form, and nothing else acts on it.
pub(crate) fn exists(schema: &Schema, name: &[u8], columns: &[Expected<'_>], key: &[usize]) -> bool
    ensures { IsTrue result ↔ IsIntact schema.now (strict name.now (map expected_column columns.now) key.now) }
{
    match schema.table_named(name) {
        Some(at) => match schema.tables.as_slice().get(at) {
            Some(table) => is_this(schema, table, name, columns, key),
            None => false,
        },
        None => false,
    }
}
