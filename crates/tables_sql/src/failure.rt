//! What a call on the tables fails with.

use sqlite::{Error, ErrorCode};
use std::alloc::{AllocError, AllocFailed};

/// Why a call failed. It has committed nothing, but that what a commit was writing when the disk failed may be there
/// when the database is opened again. `model::Failure` has more: what a program fails with that also has files and
/// streams.
#[derive(Clone, Copy, Debug, PartialEq, Eq)]
pub enum Failed {
    /// Memory ran out.
    Memory,
    /// A row would be larger than a database can hold.
    Size,
    /// The disk failed, or an earlier failure of it had shut the connection. So it is where `sqlite` refuses a call: by
    /// a limit on steps, for lack of a rowid, or because an entry of a set is there already; where two rows share a
    /// rowid at opening; and where a row isn't as its table has them, which an honest disk never shows.
    Disk,
}

impl From<AllocError> for Failed {
    ghost use Rattle.std.specs.Prelude.{◌≡◌};
    ghost use Rattle.tables_sql.specs.declared.failure.Failed.TheVariants.{Memory};

    ghost from_gives = { λ _ f. f ≡ Memory };

    fn from(_: AllocError) -> Failed {
        Failed::Memory
    }
}

impl<T: Drop> From<AllocFailed<T>> for Failed {
    ghost use Rattle.std.specs.Prelude.{◌≡◌};
    ghost use Rattle.tables_sql.specs.declared.failure.Failed.TheVariants.{Memory};

    ghost from_gives = { λ _ f. f ≡ Memory };

    fn from(_: AllocFailed<T>) -> Failed {
        Failed::Memory
    }
}

impl From<Error> for Failed {
    ghost use Rattle.std.specs.Prelude.{◌≡◌};
    ghost use Rattle.tables_sql.specs.Failures.{failure_of};

    ghost from_gives = { λ e f. f ≡ failure_of e };

    fn from(error: Error) -> Failed {
        match error {
            Error::SqliteFailure(ErrorCode::OutOfMemory) => Failed::Memory,
            Error::SqliteFailure(ErrorCode::TooBig) => Failed::Size,
            _ => Failed::Disk,
        }
    }
}
