//! Why a database isn't opened as a store.

ghost use Rattle.std.specs.Prelude.{◌≡◌};
ghost use Rattle.std.specs.Option.{option_map_or};
ghost use Rattle.tables.specs.Causes.{cause_of};
ghost use Rattle.tables.specs.declared.unopened.Cause.TheVariants.{BadSchema, Failed as failing};

use sqlite::{Alter, Connection};
use tables_recognize::Disk;
use tables_recognize::file::UnopenedFile;
use tables_sql::failure::Failed;

/// Why a database isn't opened as a store.
#[derive(Clone, Copy, Debug, PartialEq, Eq)]
pub enum Cause {
    /// Some of the store's tables exist but aren't a sound store: a table is missing or has another form, or the rows
    /// aren't sound. Or another program's table interferes (a foreign key, an index, a missing rowid counter), also if
    /// the store's tables are sound or none of them exists.
    BadSchema,
    /// The database is the store of another directory.
    OtherStoreDir,
    /// Memory ran out, the store directory is too large for a row, or the disk failed.
    Failed(Failed),
}

impl From<Failed> for Cause {
    ghost from_gives = { λ failure cause. cause ≡ failing failure };

    fn from(failure: Failed) -> Cause {
        Cause::Failed(failure)
    }
}

/// A connection that isn't opened as a store, and why.
#[derive(Drop)]
pub struct Unadopted<S: Alter> {
    /// The connection, outside a transaction.
    pub conn: Connection<S>,
    /// Why the connection isn't opened as a store.
    pub cause: Cause,
}

/// Why a file isn't opened as a store, and what is left of it. `cause` says why. `S` is the store of a connection, over
/// files `D`.
#[derive(Drop)]
pub enum Unopened<S: Alter, D: Disk> {
    /// The file wasn't opened, or its database can't be read.
    File(UnopenedFile<S, D>),
    /// The database of the file isn't opened as a store.
    Store(Unadopted<S>),
}

/// The failure that kept a file from being opened, or that it is no database.
fn cause_of_failure(failure: Option<Failed>) -> Cause
    ensures { result ≡ option_map_or failing failure BadSchema }
{
    match failure {
        Some(failure) => Cause::Failed(failure),
        None => Cause::BadSchema,
    }
}

impl<S: Alter, D: Disk> Unopened<S, D> {
    /// Why the file isn't opened as a store. `BadSchema` for a file that isn't a database.
    ///
    /// ```rust
    /// use tables::Cause;
    ///
    /// // Of a file with the text `no database`:
    /// assert_eq!(rt; unopened.cause(), Cause::BadSchema);
    /// ```
    pub fn cause(&self) -> Cause
        ensures { result ≡ cause_of self.now }
    {
        match self {
            Unopened::File(UnopenedFile::Unfound(unfound)) => cause_of_failure(unfound.failure),
            Unopened::File(
                UnopenedFile::Refused {
                    failure,
                    left: _left,
                },
            ) => cause_of_failure(*failure),
            Unopened::File(UnopenedFile::Unreadable(unreadable)) => {
                Cause::Failed(unreadable.failure)
            }
            Unopened::Store(unadopted) => unadopted.cause,
        }
    }
}
