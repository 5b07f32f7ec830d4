//! A connection to files that were opened, which keeps as many of their pages as `options` says.

ghost use Rattle.std.specs.Prelude.{true, false, IsTrue, IfOk, IfErr};
ghost use Rattle.sqlite_wal.specs.Files.{image_at};
ghost use Rattle.sqlite_std_file.specs.File.{file_is_usable, IsFresh};
ghost use Rattle.tables_recognize.specs.Opened.{IsOpenedOver, Refuses};

use crate::files::Found;
use sqlite::{Connection, Error, FileFrom, FileStore, Leftover, Start};
use std::rt::HostRuntime;

/// Opens a connection to files that were just opened, as `Connection::open_from` does; a new file has no sums.
pub(crate) fn connect<S: Start>(
    rt: &HostRuntime,
    found: Found<FileFrom<S>>,
) -> Result<Connection<FileStore<FileFrom<S>>>, (Error, Leftover<FileFrom<S>>)>
    requires usable { IsTrue (file_is_usable S.Start found.files.log) × IsTrue (file_is_usable S.Start found.files.db) }
    requires fresh { IsFresh true found.files.log × IsFresh false found.files.db }
    ensures opened { IfOk result (IsOpenedOver (image_at S.Start)) }
    ensures cause { IfErr result (λ e. Refuses e.0 e.1) }
{
    let Found { files, options } = found;
    let new_has_sums = false;
    match Connection::open_files_with(rt.alloc(), files, options, new_has_sums) {
        Ok(mut conn) => {
            conn.set_clock(rt);
            Ok(conn)
        }
        Err((error, left)) => Err((error, left)),
    }
}
