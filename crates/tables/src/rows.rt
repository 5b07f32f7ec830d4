//! Reading and testing of all rows, and the comparison of the directory.

ghost use Rattle.std.specs.Prelude.{◌≡◌, ◌↔◌, List, ℕ, IsTrue, IfOk, MatchOption};
ghost use Rattle.sqlite.specs.State.{HasCleanDisk};
ghost use Rattle.sqlite.specs.Held.{state};
ghost use Rattle.tables_sql.specs.Contents.{contents_of};
ghost use Rattle.tables_world.specs.Worlds.{IsSoundBy, world_in};
ghost use Rattle.tables_outline.specs.Outline.{outline_of};
ghost use Rattle.tables.specs.Opening.{HasFurtherOf};
ghost use Rattle.tables_rows.specs.Frames.{ReadsOnly};
ghost use Rattle.tables_writes.specs.Writes.{MayReadWith};
ghost use Rattle.tables.specs.Adopted.{HasTables, ReadsStore};

use crate::unopened::Cause;
use paths::StoreDir;
use sqlite::{Alter, Connection};
use std::alloc::Global;
use tables_load_objects::load_objects;
use tables_load_roots::load_roots;
use tables_outline::Outline;
use tables_recognize::settings;
use tables_schema::Schema;
use tables_sql::failure::Failed;

/// The contents of a store's rows: the directory, and the outline, which stays in memory.
#[derive(Drop)]
pub(crate) struct Loaded {
    pub(crate) dir: StoreDir,
    pub(crate) outline: Outline,
}

/// The store directory and the outline of the rows. `None` if the rows aren't sound by the schema.
fn read<S: Alter>(
    alloc: Global,
    conn: &mut Connection<S>,
    schema: Schema,
) -> Result<Option<Loaded>, Failed>
    requires { MayReadWith S.Store conn.old (HasFurtherOf schema) }
    ensures read { ReadsOnly S.Store conn.old conn.new result }
    ensures reported { HasCleanDisk (state S.Store conn.new) → IfOk result (λ o. MatchOption o
        ((dir : List ℕ) → ¬ IsSoundBy schema dir (contents_of (state S.Store conn.old).now))
        (λ r. IsSoundBy schema r.dir (contents_of (state S.Store conn.old).now)
        × (outline_of (world_in (contents_of (state S.Store conn.old).now)) ≡ r.outline))) }
{
    let Some(dir) = settings::read(alloc, conn, schema)? else {
        return Ok(None);
    };
    let mut outline = Outline::new(alloc);
    if !load_objects(alloc, conn, schema, &dir, &mut outline)? {
        return Ok(None);
    }
    if !load_roots(alloc, conn, schema, &mut outline)? {
        return Ok(None);
    }
    Ok(Some(Loaded { dir, outline }))
}

fn is_same(a: &StoreDir, b: &StoreDir) -> bool
    ensures { IsTrue result ↔ a.now ≡ b.now }
{
    a.as_str() == b.as_str()
}

/// The contents of the rows. `BadSchema` if the rows aren't sound by the schema; then `OtherStoreDir` if they name a
/// directory other than `dir`.
pub(crate) fn read_as<S: Alter>(
    alloc: Global,
    conn: &mut Connection<S>,
    dir: &StoreDir,
    schema: Schema,
) -> Result<Loaded, Cause>
    requires { HasTables S.Store schema conn.old }
    ensures { ReadsStore S.Store conn.old conn.new result schema dir.now }
{
    let Some(loaded) = read(alloc, conn, schema)? else {
        return Err(Cause::BadSchema);
    };
    if !is_same(&loaded.dir, dir) {
        return Err(Cause::OtherStoreDir);
    }
    Ok(loaded)
}
