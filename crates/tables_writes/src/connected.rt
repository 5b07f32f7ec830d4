//! Tables over a connection, of their parts.

ghost use Rattle.std.specs.Prelude.{◌≡◌};
ghost use Rattle.tables_writes.specs.TablesValue.{Agrees};

use crate::tables::Tables;
use paths::StoreDir;
use sqlite::{Alter, Connection};
use std::alloc::Global;
use tables_outline::Outline;

/// The tables over a connection whose rows are sound in a store directory, and have this outline.
pub fn over<S: Alter>(
    alloc: Global,
    connection: Connection<S>,
    dir: StoreDir,
    outline: Outline,
) -> Tables<S>
    requires { Agrees S.Store (record { connection = connection; dir = dir; outline = outline }) }
    ensures { result ≡ record { connection = connection; dir = dir; outline = outline } }
{
    Tables {
        alloc,
        connection,
        dir,
        outline,
    }
}
