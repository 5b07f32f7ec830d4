//! The files of a database at a path: opened, or not.

ghost use Rattle.std.specs.Prelude.{◌≡◌, ◌⊎◌, codes, None, IsTrue, IfOk, IfErr, IsErrAnd, false, true};
ghost use Rattle.sqlite_std_file.specs.File.{file_is_usable, IsFresh};
ghost use Rattle.tables_sql.specs.Failures.{opening_failure};
ghost use Rattle.tables_recognize.specs.Opened.{IsOpeningError, IsUnfound, is_uri};

use crate::options::options;
use sqlite::{Error, ErrorCode, FileFrom, Options, Start};
use sqlite_disk::{Disk, Files};
use sqlite_std_file::OpenError;
use std::io::ErrorKind;
use std::marker::PhantomData;
use std::rt::HostRuntime;
use tables_sql::failure::Failed;

const NO_MEMORY: Error = Error::SqliteFailure(ErrorCode::OutOfMemory);

const CANNOT_OPEN: Error = Error::SqliteFailure(ErrorCode::CannotOpen);

/// Why no files were opened at a path. `D` are the files. Only `find` makes one, where it opened none, and that takes
/// the `Start` of `D`. So a call with one `Start` can't open the files, and then return this.
#[derive(Drop)]
pub struct Unfound<D: Disk> {
    /// The failure that kept them from being opened: out of memory, or none.
    pub failure: Option<Failed>,
    of: PhantomData<D>,
}

/// Files that were opened, and how a connection keeps their pages.
pub(crate) struct Found<D: Disk> {
    pub(crate) files: Files<D>,
    pub(crate) options: Options,
}

/// The failure that kept a file from being opened; none, where it is something else than a database.
pub(crate) fn opening_failure(error: Error) -> Option<Failed>
    ensures { result ≡ opening_failure error }
{
    match error {
        Error::SqliteFailure(ErrorCode::OutOfMemory) => Some(Failed::Memory),
        Error::SqliteFailure(ErrorCode::TooBig) => Some(Failed::Size),
        Error::SqliteFailure(
            ErrorCode::SystemIoFailure | ErrorCode::DiskFull | ErrorCode::Closed,
        ) => Some(Failed::Disk),
        _ => None,
    }
}

/// The error of `sqlite` for an error of the host: out of memory if it says so, busy if another program has the file
/// open, else that the file can't be opened.
fn opening_error(error: OpenError) -> Error
    ensures { IsOpeningError error result }
{
    match error {
        OpenError::OutOfMemory => NO_MEMORY,
        OpenError::Busy => Error::SqliteFailure(ErrorCode::DatabaseBusy),
        OpenError::HotJournal => CANNOT_OPEN,
        OpenError::Io(error) if error.kind() == ErrorKind::OutOfMemory => NO_MEMORY,
        OpenError::Io(_) => CANNOT_OPEN,
    }
}

/// Whether a path is a URI for `sqlite`: it begins with `file:`.
fn is_uri(path: &str) -> bool
    ensures { result ≡ is_uri path.now }
{
    path.starts_with("file:")
}

/// The file at a path and its log. Neither memory nor a URI is one, as for `sqlite`.
fn open_pair<S: Start>(rt: &HostRuntime, path: &str, start: S) -> Result<Files<FileFrom<S>>, Error>
    ensures memory { path.now ≡ codes ":memory:" → result ≡ Err (Error.SqliteFailure ErrorCode.CannotOpen) }
    ensures uri { IsTrue (is_uri path.now) → result ≡ Err (Error.SqliteFailure ErrorCode.CannotOpen) }
    ensures usable { IfOk result
        (λ files. IsTrue (file_is_usable S.Start files.log) × IsTrue (file_is_usable S.Start files.db)) }
    ensures fresh { IfOk result (λ files. IsFresh true files.log × IsFresh false files.db) }
    ensures kind { IfErr result
        (λ e. (e ≡ Error.SqliteFailure ErrorCode.CannotOpen)
        ⊎ ((e ≡ Error.SqliteFailure ErrorCode.OutOfMemory) ⊎ (e ≡ Error.SqliteFailure ErrorCode.DatabaseBusy))) }
{
    if path == ":memory:" || is_uri(path) {
        return Err(CANNOT_OPEN);
    }
    match sqlite_std_file::open(rt, path, start) {
        Ok(files) => Ok(files),
        Err(error) => Err(opening_error(error)),
    }
}

/// The `Unfound` of this error: no files were opened.
fn make_unfound<D: Disk>(error: Error) -> Unfound<D>
    ensures { result.failure ≡ opening_failure error }
{
    Unfound {
        failure: opening_failure(error),
        of: PhantomData,
    }
}

/// Opens the file at a path and its log, or makes both. Nothing else of this library opens files.
pub(crate) fn find<S: Start>(
    rt: &HostRuntime,
    path: &str,
    start: S,
) -> Result<Found<FileFrom<S>>, Unfound<FileFrom<S>>>
    ensures memory { path.now ≡ codes ":memory:" → IsErrAnd result (λ e. e.failure ≡ None) }
    ensures uri { IsTrue (is_uri path.now) → IsErrAnd result (λ e. e.failure ≡ None) }
    ensures usable { IfOk result
        (λ it. IsTrue (file_is_usable S.Start it.files.log) × IsTrue (file_is_usable S.Start it.files.db)) }
    ensures fresh { IfOk result (λ it. IsFresh true it.files.log × IsFresh false it.files.db) }
    ensures cause { IfErr result (λ e. IsUnfound e.failure) }
{
    let options = match options(rt, path) {
        Ok(options) => options,
        Err(error) => return Err(make_unfound(error)),
    };
    match open_pair(rt, path, start) {
        Ok(files) => Ok(Found { files, options }),
        Err(error) => Err(make_unfound(error)),
    }
}
