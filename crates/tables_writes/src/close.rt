//! Closing the connection of a store.

ghost use Rattle.std.specs.Prelude.{⊤, MatchResult};
ghost use Rattle.sqlite_store.specs.FileStore.{view};
ghost use Rattle.sqlite_trees.specs.View.{IsClean};
ghost use Rattle.sqlite_wal.specs.Reads.{AreClean};
ghost use Rattle.sqlite.specs.Closing.{IsCopied};
ghost use Rattle.sqlite.specs.Files.{FailsToClose, IsClosed};

use sqlite::{Connection, Error, FileStore, Files, MemStore};
use sqlite_disk::Disk;

/// A storage whose connections, of type `C`, can be closed.
pub trait Close<C> {
    /// What is left of the storage.
    type Left: Drop;

    // What it is of a connection.
    ghost closes: { C → Self.Left → Type 0 };

    /// Closes a connection. What is committed is brought into its file, if it has one. Nothing else changes, and a
    /// failure leaves what was.
    fn close(conn: C) -> Self::Left
        ensures { closes conn result };
}

impl Close<Connection<MemStore>> for MemStore {
    type Left = ();

    ghost closes = { λ _ _. ⊤ };

    fn close(conn: Connection<MemStore>) {
        drop(conn);
    }
}

impl<D: Disk + Drop> Close<Connection<FileStore<D>>> for FileStore<D> {
    type Left = Result<Files<D>, (Error, FileStore<D>)>;

    // The last commit is in the database file alone, as it reads now and after a crash. A failure has its cause, and
    // gives no crash a new outcome.
    ghost closes = { λ conn left. MatchResult left (λ files. AreClean D.Disk files.log files.db → IsCopied conn files)
        (λ e. IsClosed conn e.1 × (IsClean (view e.1) → FailsToClose conn e.1 e.0)) };

    fn close(conn: Connection<FileStore<D>>) -> Result<Files<D>, (Error, FileStore<D>)> {
        conn.close_files()
    }
}
