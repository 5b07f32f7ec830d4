//! Opening a database with the store's tables of schema 3, or with none of them.

ghost use Rattle.sqlite.specs.Held.{state};
ghost use Rattle.tables_make.specs.NewTables.{LeavesMade};
ghost use Rattle.tables_schema.specs.declared.schema.Schema.TheVariants.{V3};
ghost use Rattle.tables.specs.Opening.{OpensExisting, OpensNew};
ghost use Rattle.tables.specs.Adopted.{Adopts, HasTables, HasNoTables};

use crate::rows::{Loaded, read_as};
use crate::unopened::{Cause, Unadopted};
use paths::StoreDir;
use sqlite::{Alter, Connection};
use std::alloc::Global;
use tables_make::new_tables;
use tables_outline::Outline;
use tables_schema::Schema;
use tables_sql::failure::Failed;
use tables_writes::{Tables, over};

/// Opens a connection that holds all eleven tables of a store.
pub(crate) fn open_existing<S: Alter>(
    alloc: Global,
    mut conn: Connection<S>,
    dir: &StoreDir,
) -> Result<Tables<S>, Unadopted<S>>
    requires { HasTables S.Store V3 conn }
    ensures { Adopts S.Store dir.now (state S.Store conn) result
        (OpensExisting S.Store dir.now (state S.Store conn).now) (λ _. ⊥) }
{
    match read_as(alloc, &mut conn, dir, Schema::V3) {
        Ok(loaded) => {
            let Loaded { dir: own, outline } = loaded;
            Ok(over(alloc, conn, own, outline))
        }
        Err(cause) => Err(Unadopted { conn, cause }),
    }
}

/// Makes the store's tables in a database that has none of them, and opens them.
pub(crate) fn open_new<S: Alter>(
    alloc: Global,
    mut conn: Connection<S>,
    dir: &StoreDir,
) -> Result<Tables<S>, Unadopted<S>>
    requires { HasNoTables S.Store conn }
    ensures { Adopts S.Store dir.now (state S.Store conn) result (OpensNew S.Store (state S.Store conn).now)
        (LeavesMade dir.now (state S.Store conn).now) }
{
    let Ok(own) = dir.clone() else {
        let cause = Cause::Failed(Failed::Memory);
        return Err(Unadopted { conn, cause });
    };
    match new_tables::make(&mut conn, dir.as_str()) {
        Ok(()) => {
            let outline = Outline::new(alloc);
            Ok(over(alloc, conn, own, outline))
        }
        Err(failure) => {
            let cause = Cause::Failed(failure);
            Err(Unadopted { conn, cause })
        }
    }
}
