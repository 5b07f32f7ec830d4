//! A table of roots: its rows are read, tested, and put into the outline.

ghost use Rattle.std.specs.Prelude.{◌≡◌, Bool, IsTrue, IfOk, ⊤};
ghost use Rattle.sqlite.specs.Effect.{Database};
ghost use Rattle.sqlite.specs.State.{HasCleanDisk};
ghost use Rattle.sqlite.specs.Held.{state};
ghost use Rattle.tables_sql.specs.Contents.{Contents};
ghost use Rattle.tables_rows.specs.Frames.{MayRead, Finds};
ghost use Rattle.tables_outline.specs.Outline.{OutlineValue};
ghost use Rattle.tables_load_roots.specs.Loaded.{Objects, all_pass, all_put, LoadAs};
ghost use Rattle.tables_load_roots.specs.Loading.{MayLoad, Loads};

use sqlite::{Alter, Connection};
use std::alloc::{AllocError, Global};
use tables_outline::Outline;
use tables_sql::failure::Failed;

/// A table of roots, by its rows.
pub trait RootTable: Sized + Drop {
    // Whether a row passes, with what the outline has.
    ghost passes: { Self → OutlineValue → Bool };

    // The outline with a row's root.
    ghost put: { Self → OutlineValue → OutlineValue };

    // What the database needs in addition to the tables that each schema has.
    ghost needs: { Database → Type 0 } = { λ _. ⊤ };

    // The outlines that the roots may be put into.
    ghost fits: { OutlineValue → Contents → Type 0 };

    // Whether all roots are sound with these objects.
    ghost are_sound: { Objects → Contents → Bool };

    // The outline with all roots.
    ghost with_rows: { OutlineValue → Contents → OutlineValue };

    /// All rows, in order.
    fn all<S: Alter>(alloc: Global, conn: &mut Connection<S>) -> Result<Vec<Self>, Failed>
        requires frame { MayRead S.Store conn.old }
        requires exists { HasCleanDisk (state S.Store conn.old) → IsTrue (state S.Store conn.old).is_open
            → needs (state S.Store conn.old).now }
        ensures { Finds S.Store conn.old conn.new result (λ c rows. (o : OutlineValue) → fits o c
            → LoadAs passes put rows.items o (are_sound o.objects c) (with_rows o c)) };

    /// Whether the row passes. If so, its root is put into the outline.
    fn take(self, alloc: Global, outline: &mut Outline) -> Result<bool, AllocError>
        ensures reported { IfOk result (λ ok. ok ≡ passes self outline.old) }
        ensures loaded { IfOk result (λ ok. IsTrue ok → outline.new ≡ put self outline.old) };
}

/// Whether each row passes. If so, the outline has them all.
fn load_rows<T: RootTable>(
    alloc: Global,
    outline: &mut Outline,
    rows: Vec<T>,
) -> Result<bool, AllocError>
    ensures reported { IfOk result (λ ok. ok ≡ all_pass T.passes T.put rows.items outline.old) }
    ensures loaded { IfOk result (λ ok. IsTrue ok → outline.new ≡ all_put T.put rows.items outline.old) }
{
    'rows: for row in rows {
        if !row.take(alloc, outline)? {
            return Ok(false);
        }
    }
    Ok(true)
}

/// Whether the roots of one table are sound with the objects of the outline. If so, they are put into the outline.
///
/// # Errors
///
/// Memory or the disk failed. The rows are as they were, and the outline may have some of the roots.
pub fn load_table<T: RootTable, S: Alter>(
    alloc: Global,
    conn: &mut Connection<S>,
    outline: &mut Outline,
) -> Result<bool, Failed>
    requires roots { MayLoad S.Store conn.old outline.old T.fits }
    requires exists { HasCleanDisk (state S.Store conn.old) → IsTrue (state S.Store conn.old).is_open
        → T.needs (state S.Store conn.old).now }
    ensures { Loads S.Store conn.old conn.new result outline.old outline.new T.are_sound T.with_rows }
{
    let rows = T::all(alloc, conn)?;
    let sound = load_rows::<T>(alloc, outline, rows)?;
    Ok(sound)
}
