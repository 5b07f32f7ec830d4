//! Whether a schema has the nine tables that each form of the store has, or nothing of the store's.

ghost use Rattle.std.specs.Prelude.{◌≡◌, ◌↔◌, not, IsTrue, codes};
ghost use Rattle.std.specs.List.{list_all, list_any, AllByRecursion};
ghost use Rattle.sqlite_schema.specs.Names.{same_name};
ghost use Rattle.sqlite.specs.Does.{lacks_sequence};
ghost use Rattle.tables_schema.specs.Intact.{IsIntact, HasTables};
ghost use Rattle.tables_schema.specs.Forms.{meta, object, refs, outs, permanent, user_root, profile, generation};
ghost use Rattle.tables_schema.specs.Forms.{runtime, further_tables};
ghost use Rattle.tables_schema.specs.Presence.{IsFree, HasNone};

use crate::nine::{
    generation_is_intact, meta_is_intact, object_is_intact, outs_is_intact, permanent_is_intact,
    profile_is_intact, refs_is_intact, runtime_is_intact, user_root_is_intact,
};
use sqlite_schema::names::same_name;
use sqlite_schema::schema::{Reference, Schema, Table};

fn first_are_intact(schema: &Schema) -> bool
    ensures { IsTrue result ↔ IsIntact schema.now meta × IsIntact schema.now object × IsIntact schema.now refs }
{
    meta_is_intact(schema) && object_is_intact(schema) && refs_is_intact(schema)
}

fn next_are_intact(schema: &Schema) -> bool
    ensures { IsTrue result ↔ IsIntact schema.now outs × IsIntact schema.now permanent × IsIntact schema.now user_root }
{
    outs_is_intact(schema) && permanent_is_intact(schema) && user_root_is_intact(schema)
}

fn last_are_intact(schema: &Schema) -> bool
    ensures { IsTrue result
        ↔ IsIntact schema.now profile × IsIntact schema.now generation × IsIntact schema.now runtime }
{
    profile_is_intact(schema) && generation_is_intact(schema) && runtime_is_intact(schema)
}

pub(crate) fn has_tables(schema: &Schema) -> bool
    ensures { IsTrue result ↔ HasTables schema.now }
{
    first_are_intact(schema) && next_are_intact(schema) && last_are_intact(schema)
}

fn none_awaits(references: &[Reference], name: &[u8]) -> bool
    ensures { result ≡ list_all (λ r. not (same_name r.parent name.now)) references.now }
{
    match references {
        [] => true,
        [first, rest @ ..] => {
            !same_name(first.parent.as_slice(), name) && none_awaits(rest, name)
        }
    }
}

fn is_unawaited(tables: &[Table], name: &[u8]) -> bool
    ensures { result ≡ list_all (λ t. list_all (λ r. not (same_name r.parent name.now)) t.references) tables.now }
{
    match tables {
        [] => true,
        [first, rest @ ..] => {
            none_awaits(first.references.as_slice(), name) && is_unawaited(rest, name)
        }
    }
}

/// Whether nothing of the schema has the name, and no foreign key refers to it.
pub(crate) fn is_free(schema: &Schema, name: &[u8]) -> bool
    ensures { IsTrue result ↔ IsFree schema.now name.now }
{
    schema.table_named(name).is_none()
        && schema.index_named(name).is_none()
        && schema.view_named(name).is_none()
        && is_unawaited(schema.tables.as_slice(), name)
}

fn any_counted(tables: &[Table]) -> bool
    ensures { result ≡ list_any (λ t. t.is_counted) tables.now }
{
    match tables {
        [] => false,
        [first, rest @ ..] => first.is_counted || any_counted(rest),
    }
}

/// Whether a table counts its rowids and there is no counter, which no honest database shows.
pub(crate) fn lacks_sequence(schema: &Schema) -> bool
    ensures { result ≡ lacks_sequence schema.now }
{
    any_counted(schema.tables.as_slice())
        && match schema.table_named(b"sqlite_sequence") {
            Some(at) => schema.tables.as_slice().get(at).is_none(),
            None => true,
        }
}

fn further_are_free(schema: &Schema) -> bool
    ensures { IsTrue result ↔ AllByRecursion (λ t. IsFree schema.now t.name) further_tables }
{
    is_free(schema, b"piece") && is_free(schema, b"temp_root")
}

pub(crate) fn has_none(schema: &Schema) -> bool
    ensures { IsTrue result ↔ HasNone schema.now }
{
    is_free(schema, b"meta")
        && is_free(schema, b"object")
        && is_free(schema, b"refs")
        && is_free(schema, b"outs")
        && is_free(schema, b"permanent")
        && is_free(schema, b"user_root")
        && is_free(schema, b"profile")
        && is_free(schema, b"generation")
        && is_free(schema, b"runtime")
        && further_are_free(schema)
        && !lacks_sequence(schema)
}
