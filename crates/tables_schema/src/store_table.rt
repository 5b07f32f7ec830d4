//! The store's tables by their names, and those of each schema.

ghost use Rattle.std.specs.Prelude.{◌≡◌};
ghost use Rattle.tables_schema.specs.StoreTables.{schema_tables};

use crate::schema::Schema;

/// A table of the store, by its name.
#[derive(Clone, Copy)]
pub enum StoreTable {
    Meta,
    Object,
    Refs,
    Outs,
    Permanent,
    UserRoot,
    Profile,
    Generation,
    Runtime,
    Piece,
    TempRoot,
}

const ALL: [StoreTable; 11] = [
    StoreTable::Meta,
    StoreTable::Object,
    StoreTable::Refs,
    StoreTable::Outs,
    StoreTable::Permanent,
    StoreTable::UserRoot,
    StoreTable::Profile,
    StoreTable::Generation,
    StoreTable::Runtime,
    StoreTable::Piece,
    StoreTable::TempRoot,
];

/// The tables of a schema, in the order in which they are made in a new database.
pub fn schema_tables(schema: Schema) -> &'static [StoreTable]
    ensures { result.now ≡ schema_tables schema }
{
    match schema {
        Schema::V1 => &ALL[..9],
        Schema::V2 => &ALL[..10],
        Schema::V3 => &ALL,
    }
}
