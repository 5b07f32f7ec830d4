//! Whether each of the two further tables is in a schema, by its own columns.

ghost use Rattle.std.specs.Prelude.{◌↔◌, IsTrue};
ghost use Rattle.tables_schema.specs.Intact.{IsIntact};
ghost use Rattle.tables_schema.specs.Forms.{piece, temp_root};

use crate::form::{Expected, columns};
use crate::intact::exists;
use sqlite_schema::schema::{Kind, Schema};

const PIECE: [Expected<'static>; 3] = columns![
    b"base" TEXT NOT NULL,
    b"num" INTEGER NOT NULL,
    b"bytes" BLOB NOT NULL,
];

const TEMP_ROOT: [Expected<'static>; 3] = columns![
    b"owner" TEXT NOT NULL,
    b"session" INTEGER NOT NULL,
    b"target" TEXT NOT NULL,
];

pub(crate) fn piece_is_intact(schema: &Schema) -> bool
    ensures { IsTrue result ↔ IsIntact schema.now piece }
{
    exists(schema, b"piece", &PIECE, &[1, 2])
}

pub(crate) fn temp_root_is_intact(schema: &Schema) -> bool
    ensures { IsTrue result ↔ IsIntact schema.now temp_root }
{
    exists(schema, b"temp_root", &TEMP_ROOT, &[1, 2, 3])
}
