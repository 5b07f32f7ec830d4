//! Opening a store over a connection.

ghost use Rattle.std.specs.Prelude.{◌≡◌, false};
ghost use Rattle.sqlite.specs.Held.{state};
ghost use Rattle.tables.specs.Opening.{OpensStore, LeavesOpening, unlimited};
ghost use Rattle.tables.specs.Adopted.{Adopts, IsRecognisedAs};

use crate::earlier::open_earlier;
use crate::found::{open_existing, open_new};
use crate::unopened::{Cause, Unadopted};
use paths::StoreDir;
use sqlite::{Alter, Connection};
use std::alloc::Global;
use tables_recognize::file;
use tables_recognize::file::{Opened, Unreadable};
use tables_schema::Schema;
use tables_schema::recognition::Recognised;
use tables_writes::Tables;

/// Opens a store over a connection; `found` says which of the store's tables it has.
pub(crate) fn take<S: Alter>(
    alloc: Global,
    conn: Connection<S>,
    found: Recognised,
    dir: &StoreDir,
) -> Result<Tables<S>, Unadopted<S>>
    requires { IsRecognisedAs S.Store found conn }
    ensures { Adopts S.Store dir.now (state S.Store conn) result
        (OpensStore S.Store dir.now (state S.Store conn).now) (LeavesOpening dir.now (state S.Store conn).now) }
{
    match found {
        Recognised::Nothing => open_new(alloc, conn, dir),
        Recognised::Tables(Schema::V1) => open_earlier(alloc, conn, dir, Schema::V1),
        Recognised::Tables(Schema::V2) => open_earlier(alloc, conn, dir, Schema::V2),
        Recognised::Tables(Schema::V3) => open_existing(alloc, conn, dir),
        Recognised::Other => {
            let cause = Cause::BadSchema;
            Err(Unadopted { conn, cause })
        }
    }
}

/// Opens a connection as the store of a directory. Reads and tests all of its rows. Makes the store's tables if the
/// database has none of them, and migrates those of an earlier schema to schema 3. An error returns the connection,
/// with the tables as they were. A limit on steps is cleared in either case.
///
/// ```rust
/// use paths::StoreDir;
/// use tables::{Cause, Tables, Unadopted};
///
/// let (nix, gnu) = (StoreDir::parse(alloc, "/nix/store")?, StoreDir::parse(alloc, "/gnu/store")?);
/// let conn = tables::open_in_memory(alloc, &nix)?.release();
/// let cause = match tables::adopt(alloc, conn, &gnu) {
///     Ok(tables) => {
///         drop(tables.release());
///         None
///     }
///     Err(Unadopted { conn: _conn, cause }) => Some(cause),
/// };
/// assert_eq!(rt; cause, Some(Cause::OtherStoreDir));
/// ```
///
/// # Errors
///
/// `BadSchema`: some of the store's tables exist but aren't a sound store, or another program's table interferes (a
/// foreign key, an index, a missing rowid counter). Then `OtherStoreDir`: the database is the store of another
/// directory. `Failed`: the database failed, or memory ran out.
pub fn adopt<S: Alter>(
    alloc: Global,
    mut conn: Connection<S>,
    dir: &StoreDir,
) -> Result<Tables<S>, Unadopted<S>>
    requires idle { conn.in_transaction ≡ false }
    ensures { Adopts S.Store dir.now (unlimited (state S.Store conn)) result
        (OpensStore S.Store dir.now (state S.Store conn).now) (LeavesOpening dir.now (state S.Store conn).now) }
{
    conn.set_step_limit(None);
    match file::inspect(alloc, conn) {
        Ok(opened) => {
            let Opened { conn, found } = opened;
            take(alloc, conn, found, dir)
        }
        Err(unreadable) => {
            let Unreadable { conn, failure } = unreadable;
            let cause = Cause::Failed(failure);
            Err(Unadopted { conn, cause })
        }
    }
}
