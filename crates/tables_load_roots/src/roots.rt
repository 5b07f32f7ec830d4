//! All roots.

ghost use Rattle.std.specs.Prelude.{◌≡◌, ◌↔◌, IsTrue, IfOk};
ghost use Rattle.std.specs.FinMap as finite;
ghost use Rattle.sqlite.specs.State.{HasCleanDisk};
ghost use Rattle.sqlite.specs.Held.{state};
ghost use Rattle.tables_sql.specs.Contents.{contents_of};
ghost use Rattle.tables_world.specs.Worlds.{rows_of};
ghost use Rattle.tables_load_roots.specs.Loaded.{are_fixed, are_moving, are_roots, with_fixed, with_moving};
ghost use Rattle.tables_load_roots.specs.Loaded.{with_explicit, with_roots, HasNoExplicit, AreAllSound, AreObjects};
ghost use Rattle.tables_load_roots.specs.Loading.{MayLoad, MayLoadAll, Loads};
ghost use Rattle.tables_rows.specs.Frames.{ReadsOnly};

use crate::profiles;
use crate::table::load_table;
use sqlite::{Alter, Connection};
use std::alloc::Global;
use tables_outline::Outline;
use tables_rows::permanent::PermanentRoot;
use tables_rows::runtime::RuntimeRoot;
use tables_rows::temp_roots::TempRoot;
use tables_rows::user_roots::UserRoot;
use tables_schema::Schema;
use tables_sql::failure::Failed;

/// Permanent roots and user roots.
fn load_fixed<S: Alter>(
    alloc: Global,
    conn: &mut Connection<S>,
    outline: &mut Outline,
) -> Result<bool, Failed>
    requires { MayLoad S.Store conn.old outline.old
        (λ o _. (o.permanent ≡ finite.empty) × (o.user_roots ≡ finite.empty)) }
    ensures { Loads S.Store conn.old conn.new result outline.old outline.new are_fixed with_fixed }
{
    if !load_table::<PermanentRoot, S>(alloc, conn, outline)? {
        return Ok(false);
    }
    load_table::<UserRoot, S>(alloc, conn, outline)
}

/// Profiles and runtime roots.
fn load_moving<S: Alter>(
    alloc: Global,
    conn: &mut Connection<S>,
    outline: &mut Outline,
) -> Result<bool, Failed>
    requires { MayLoad S.Store conn.old outline.old
        (λ o _. (o.profiles ≡ finite.empty) × (o.runtime ≡ finite.empty)) }
    ensures { Loads S.Store conn.old conn.new result outline.old outline.new are_moving with_moving }
{
    if !profiles::read(alloc, conn, outline)? {
        return Ok(false);
    }
    load_table::<RuntimeRoot, S>(alloc, conn, outline)
}

/// All roots but the temporary ones.
fn load_explicit<S: Alter>(
    alloc: Global,
    conn: &mut Connection<S>,
    outline: &mut Outline,
) -> Result<bool, Failed>
    requires { MayLoad S.Store conn.old outline.old (λ o _. HasNoExplicit o) }
    ensures { Loads S.Store conn.old conn.new result outline.old outline.new are_roots with_explicit }
{
    if !load_fixed(alloc, conn, outline)? {
        return Ok(false);
    }
    load_moving(alloc, conn, outline)
}

/// Whether all roots of the rows are sound with the objects of the outline, which are those of the rows. If so, they
/// are put into the outline. Temporary roots are read by the third schema alone, since no other has a table of them.
///
/// # Errors
///
/// Memory or the disk failed. The rows are as they were, and the outline may have some of the roots.
pub fn load_roots<S: Alter>(
    alloc: Global,
    conn: &mut Connection<S>,
    schema: Schema,
    outline: &mut Outline,
) -> Result<bool, Failed>
    requires { MayLoadAll S.Store schema conn.old outline.old }
    ensures read { ReadsOnly S.Store conn.old conn.new result }
    ensures reported { HasCleanDisk (state S.Store conn.new) → IfOk result
        (λ ok. AreObjects outline.old.objects (contents_of (state S.Store conn.old).now)
        → (IsTrue ok ↔ AreAllSound (rows_of (contents_of (state S.Store conn.old).now)))) }
    ensures loaded { HasCleanDisk (state S.Store conn.new) → IfOk result
        (λ ok. IsTrue ok → outline.new ≡ with_roots outline.old (contents_of (state S.Store conn.old).now)) }
{
    if !load_explicit(alloc, conn, outline)? {
        return Ok(false);
    }
    if !schema.has_temporary() {
        return Ok(true);
    }
    load_table::<TempRoot, S>(alloc, conn, outline)
}
