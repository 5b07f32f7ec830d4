//! Opening a file: a database with what it has of the store's tables, or why it isn't opened.

ghost use Rattle.std.specs.Prelude.{◌≡◌, false, None, IsTrue, IsErrAnd, IfOk, IfErr, MatchResult, codes};
ghost use Rattle.sqlite.specs.State.{HasCleanDisk, IsUnchanged, Survives};
ghost use Rattle.sqlite.specs.Held.{state};
ghost use Rattle.sqlite_wal.specs.Files.{image_at};
ghost use Rattle.sqlite.specs.Files.{file_state};
ghost use Rattle.sqlite.specs.Start.{FindsIn};
ghost use Rattle.tables_recognize.specs.Opened.{IsFound, FailsToOpen, IsAsOpened, FailsToOpenFile, is_uri};
ghost use Rattle.tables_sql.specs.Calls.{KeepsShown};

use crate::connection::connect;
pub use crate::files::Unfound;
use crate::files::{find, opening_failure};
use crate::recognition;
use sqlite::{Alter, Connection, FileFrom, FileStore, Leftover, Start};
use sqlite_disk::Disk;
use std::alloc::Global;
use std::rt::HostRuntime;
use tables_schema::recognition::Recognised;
use tables_sql::failure::Failed;

/// A database that was opened, and by which schema it holds the store's tables. If it does, it is ready for
/// transactions.
pub struct Opened<S: Alter> {
    /// The connection, outside a transaction.
    pub conn: Connection<S>,
    /// What the database has of the store's tables.
    pub found: Recognised,
}

/// A database that was opened, but what it has of the store's tables can't be read.
#[derive(Drop)]
pub struct Unreadable<S: Alter> {
    /// The connection, as it was, outside a transaction.
    pub conn: Connection<S>,
    /// Why it can't be read.
    pub failure: Failed,
}

/// Why a file wasn't opened. `S` is the store of a connection, over files `D`.
#[derive(Drop)]
pub enum UnopenedFile<S: Alter, D: Disk> {
    /// No files were opened at the path.
    Unfound(Unfound<D>),
    /// The files were opened, but `sqlite` opened no connection to them.
    Refused {
        /// The failure that kept it from being opened; none, where it is something else than a database.
        failure: Option<Failed>,
        /// What is left of the files.
        left: Leftover<D>,
    },
    /// The database was opened, but what it has of the store's tables can't be read.
    Unreadable(Unreadable<S>),
}

/// Opens a connection: finds what its database has of the store's tables. Nothing changes, and where it can't be read,
/// the connection is returned with the failure.
pub fn inspect<S: Alter>(alloc: Global, mut conn: Connection<S>) -> Result<Opened<S>, Unreadable<S>>
    requires idle { conn.in_transaction ≡ false }
    ensures idle { MatchResult result (λ it. it.conn.in_transaction ≡ false) (λ e. e.conn.in_transaction ≡ false) }
    ensures found { IfOk result
        (λ it. HasCleanDisk (state S.Store it.conn) → IsFound it.found (state S.Store it.conn)) }
    ensures unchanged { IfOk result
        (λ it. HasCleanDisk (state S.Store it.conn) → IsUnchanged (state S.Store conn) (state S.Store it.conn)) }
    ensures cause { IfErr result
        (λ e. HasCleanDisk (state S.Store e.conn) → FailsToOpen (state S.Store conn) (state S.Store e.conn) e.failure) }
    ensures same { MatchResult result
        (λ it. HasCleanDisk (state S.Store it.conn) → KeepsShown (state S.Store conn) (state S.Store it.conn))
        (λ e. HasCleanDisk (state S.Store e.conn) → KeepsShown (state S.Store conn) (state S.Store e.conn)) }
    ensures survives { MatchResult result (λ it. Survives (state S.Store conn) (state S.Store it.conn) (λ _. ⊥))
        (λ e. Survives (state S.Store conn) (state S.Store e.conn) (λ _. ⊥)) }
{
    match recognition::open(alloc, &mut conn) {
        Ok(found) => Ok(Opened { conn, found }),
        Err(failure) => Err(Unreadable { conn, failure }),
    }
}

/// Opens the file at a path, or makes an empty database there. `start` is what the file held, which no
/// code reads: a theorem is stated over any, and a program passes `Unknown`, or `Wary` where a torn write may leave any
/// bytes. Out of memory and `Unfound` need no cause: `sqlite` gives none for memory, for a path that can't be opened,
/// or for a file that another connection has open.
pub fn open<S: Start>(
    rt: &HostRuntime,
    path: &str,
    start: S,
) -> Result<Opened<FileStore<FileFrom<S>>>, UnopenedFile<FileStore<FileFrom<S>>, FileFrom<S>>>
    ensures memory { path.now ≡ codes ":memory:"
        → IsErrAnd result (λ e. (it : _) × (e ≡ UnopenedFile.Unfound it) × (it.failure ≡ None)) }
    ensures uri { IsTrue (is_uri path.now)
        → IsErrAnd result (λ e. (it : _) × (e ≡ UnopenedFile.Unfound it) × (it.failure ≡ None)) }
    ensures idle { IfOk result (λ it. it.conn.in_transaction ≡ false) }
    ensures found { IfOk result (λ it. HasCleanDisk (file_state it.conn) → IsFound it.found (file_state it.conn)) }
    ensures opened { IfOk result (λ it. (was : _) × IsAsOpened (image_at S.Start) was it.conn) }
    ensures held { IfOk result
        (λ it. HasCleanDisk (file_state it.conn) → FindsIn (image_at S.Start) (file_state it.conn)) }
    ensures guarded { IfOk result (λ it. HasCleanDisk (file_state it.conn) → (file_state it.conn).IsShielded) }
    ensures cause { IfErr result (FailsToOpenFile (image_at S.Start)) }
{
    match find(rt, path, start) {
        Ok(found) => match connect(rt, found) {
            Ok(conn) => match inspect(rt.alloc(), conn) {
                Ok(opened) => Ok(opened),
                Err(untold) => Err(UnopenedFile::Unreadable(untold)),
            },
            Err((error, left)) => Err(UnopenedFile::Refused {
                failure: opening_failure(error),
                left,
            }),
        },
        Err(unfound) => Err(UnopenedFile::Unfound(unfound)),
    }
}
