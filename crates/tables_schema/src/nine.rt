//! Whether each of the nine tables is in a schema, by its own columns.

ghost use Rattle.std.specs.Prelude.{◌↔◌, IsTrue};
ghost use Rattle.tables_schema.specs.Intact.{IsIntact};
ghost use Rattle.tables_schema.specs.Forms.{meta, object, refs, outs, permanent, user_root, profile, generation};
ghost use Rattle.tables_schema.specs.Forms.{runtime};

use crate::form::{Expected, columns};
use crate::intact::exists;
use sqlite_schema::schema::{Kind, Schema};

const META: [Expected<'static>; 2] = columns![
    b"word" TEXT NOT NULL,
    b"val" TEXT NOT NULL,
];

const OBJECT: [Expected<'static>; 5] = columns![
    b"base" TEXT NOT NULL,
    b"nar" BLOB NOT NULL,
    b"hash" BLOB NOT NULL,
    b"deriver" TEXT,
    b"ca" TEXT,
];

const REFS: [Expected<'static>; 2] = columns![
    b"base" TEXT NOT NULL,
    b"target" TEXT NOT NULL,
];

const OUTS: [Expected<'static>; 3] = columns![
    b"base" TEXT NOT NULL,
    b"name" TEXT NOT NULL,
    b"target" TEXT NOT NULL,
];

const PERMANENT: [Expected<'static>; 2] = columns![
    b"name" TEXT NOT NULL,
    b"target" TEXT NOT NULL,
];

const USER_ROOT: [Expected<'static>; 3] = columns![
    b"owner" TEXT NOT NULL,
    b"name" TEXT NOT NULL,
    b"target" TEXT NOT NULL,
];

const PROFILE: [Expected<'static>; 3] = columns![
    b"owner" TEXT NOT NULL,
    b"name" TEXT NOT NULL,
    b"cur" INTEGER NOT NULL,
];

const GENERATION: [Expected<'static>; 4] = columns![
    b"owner" TEXT NOT NULL,
    b"name" TEXT NOT NULL,
    b"num" INTEGER NOT NULL,
    b"target" TEXT NOT NULL,
];

const RUNTIME: [Expected<'static>; 2] = columns![
    b"label" TEXT NOT NULL,
    b"target" TEXT NOT NULL,
];

pub(crate) fn meta_is_intact(schema: &Schema) -> bool
    ensures { IsTrue result ↔ IsIntact schema.now meta }
{
    exists(schema, b"meta", &META, &[1])
}

pub(crate) fn object_is_intact(schema: &Schema) -> bool
    ensures { IsTrue result ↔ IsIntact schema.now object }
{
    exists(schema, b"object", &OBJECT, &[1])
}

pub(crate) fn refs_is_intact(schema: &Schema) -> bool
    ensures { IsTrue result ↔ IsIntact schema.now refs }
{
    exists(schema, b"refs", &REFS, &[1, 2])
}

pub(crate) fn outs_is_intact(schema: &Schema) -> bool
    ensures { IsTrue result ↔ IsIntact schema.now outs }
{
    exists(schema, b"outs", &OUTS, &[1, 2])
}

pub(crate) fn permanent_is_intact(schema: &Schema) -> bool
    ensures { IsTrue result ↔ IsIntact schema.now permanent }
{
    exists(schema, b"permanent", &PERMANENT, &[1])
}

pub(crate) fn user_root_is_intact(schema: &Schema) -> bool
    ensures { IsTrue result ↔ IsIntact schema.now user_root }
{
    exists(schema, b"user_root", &USER_ROOT, &[1, 2])
}

pub(crate) fn profile_is_intact(schema: &Schema) -> bool
    ensures { IsTrue result ↔ IsIntact schema.now profile }
{
    exists(schema, b"profile", &PROFILE, &[1, 2])
}

pub(crate) fn generation_is_intact(schema: &Schema) -> bool
    ensures { IsTrue result ↔ IsIntact schema.now generation }
{
    exists(schema, b"generation", &GENERATION, &[1, 2, 3])
}

pub(crate) fn runtime_is_intact(schema: &Schema) -> bool
    ensures { IsTrue result ↔ IsIntact schema.now runtime }
{
    exists(schema, b"runtime", &RUNTIME, &[1, 2])
}
