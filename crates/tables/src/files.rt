//! Opening a file.

ghost use Rattle.std.specs.Prelude.{◌≡◌, codes, IsTrue, IsErrAnd, IfOk, IfErr};
ghost use Rattle.sqlite_wal.specs.Files.{image_at};
ghost use Rattle.tables_recognize.specs.Opened.{is_uri};
ghost use Rattle.tables.specs.Causes.{cause_of};
ghost use Rattle.tables.specs.declared.unopened.Cause.TheVariants.{BadSchema};
ghost use Rattle.tables.specs.Opened.{Opens, IsUnopened};

use crate::adoption::take;
use crate::unopened::Unopened;
use paths::StoreDir;
use sqlite::{FileFrom, FileStore, Start};
use std::rt::HostRuntime;
use tables_recognize::file;
use tables_recognize::file::Opened;
use tables_writes::Tables;

/// Opens the file at a path as the store of a directory. Makes the store's tables if the file is missing or has none of
/// them. `start` is ghost: what a theorem assumes of the file. No code reads it, and a program passes `Unknown`.
///
/// ```rust
/// use tables::Unknown;
///
/// let tables = tables::open(rt, "nixkeep.db", dir, Unknown)?;
/// drop(tables.release());
/// ```
///
/// # Errors
///
/// `File`: `sqlite` didn't open the file, or can't read what it holds. `Store`: the database isn't opened as a store.
/// Then the database is as it was.
pub fn open<S: Start>(
    rt: &HostRuntime,
    path: &str,
    dir: &StoreDir,
    start: S,
) -> Result<Tables<FileStore<FileFrom<S>>>, Unopened<FileStore<FileFrom<S>>, FileFrom<S>>>
    ensures memory { path.now ≡ codes ":memory:" → IsErrAnd result (λ e. cause_of e ≡ BadSchema) }
    ensures uri { IsTrue (is_uri path.now) → IsErrAnd result (λ e. cause_of e ≡ BadSchema) }
    ensures dir { IfOk result (λ t. t.dir ≡ dir.now) }
    ensures opens { IfOk result (λ t. Opens (image_at S.Start) dir.now t) }
    ensures cause { IfErr result (λ e. IsUnopened (image_at S.Start) dir.now e) }
{
    match file::open(rt, path, start) {
        Ok(opened) => {
            let Opened { conn, found } = opened;
            match take(rt.alloc(), conn, found, dir) {
                Ok(tables) => Ok(tables),
                Err(unadopted) => Err(Unopened::Store(unadopted)),
            }
        }
        Err(unopened) => Err(Unopened::File(unopened)),
    }
}
