//! Opening tables of an earlier schema, which migrates them to schema 3.

ghost use Rattle.std.specs.Prelude.{◌≡◌, ◌≢◌, false, IsTrue, IfOk, IfErr, OnOk, OnErr};
ghost use Rattle.sqlite.specs.State.{HasCleanDisk, Survives};
ghost use Rattle.sqlite.specs.Held.{state};
ghost use Rattle.tables_sql.specs.Calls.{KeepsShown};
ghost use Rattle.tables_schema.specs.declared.schema.Schema.TheVariants.{V3};
ghost use Rattle.tables_make.specs.Migrated.{IsMigrated};
ghost use Rattle.tables_make.specs.Commits.{Migrates};
ghost use Rattle.tables.specs.Opening.{AreRead, OpensMigrated, LeavesMigration, IsCause};
ghost use Rattle.tables.specs.Adopted.{Adopts, HasTables};

use crate::rows::{Loaded, read_as};
use crate::unopened::{Cause, Unadopted};
use paths::StoreDir;
use sqlite::{Alter, Connection};
use std::alloc::Global;
use tables_schema::Schema;
use tables_sql::failure::Failed;
use tables_writes::{Tables, over};

/// Migrates the tables of a schema to schema 3. Tables of schema 3 stay as they are.
fn bring<S: Alter>(alloc: Global, conn: &mut Connection<S>, schema: Schema) -> Result<(), Failed>
    requires tables { HasTables S.Store schema conn.old }
    requires is_open { HasCleanDisk (state S.Store conn.old) → IsTrue (state S.Store conn.old).is_open }
    ensures migrates { Migrates S.Store conn.old conn.new result schema }
    ensures needed { OnErr result (schema ≢ V3) }
{
    match schema {
        Schema::V1 => tables_make::from_first(alloc, conn),
        Schema::V2 => tables_make::from_second(conn),
        Schema::V3 => Ok(()),
    }
}

/// Reads the rows, tests them by their schema, compares the directory, and then migrates the tables to schema 3.
fn read_and_bring<S: Alter>(
    alloc: Global,
    conn: &mut Connection<S>,
    dir: &StoreDir,
    schema: Schema,
) -> Result<Loaded, Cause>
    requires { HasTables S.Store schema conn.old }
    ensures idle { conn.new.in_transaction ≡ false }
    ensures dir { IfOk result (λ r. r.dir ≡ dir.now) }
    ensures reported { HasCleanDisk (state S.Store conn.new)
        → IfOk result (λ r. AreRead schema dir.now (state S.Store conn.old).now r.outline) }
    ensures brought { HasCleanDisk (state S.Store conn.new)
        → OnOk result (IsMigrated schema dir.now (state S.Store conn.old) (state S.Store conn.new)) }
    ensures cause { HasCleanDisk (state S.Store conn.new)
        → IfErr result (IsCause dir.now (state S.Store conn.old) (state S.Store conn.new)) }
    ensures same { HasCleanDisk (state S.Store conn.new)
        → OnErr result (KeepsShown (state S.Store conn.old) (state S.Store conn.new)) }
    ensures survives { Survives (state S.Store conn.old) (state S.Store conn.new)
        (LeavesMigration schema dir.now (state S.Store conn.old).now) }
{
    let loaded = read_as(alloc, conn, dir, schema)?;
    bring(alloc, conn, schema)?;
    Ok(loaded)
}

/// Opens a connection that holds the tables of a schema, and migrates them to schema 3.
pub(crate) fn open_earlier<S: Alter>(
    alloc: Global,
    mut conn: Connection<S>,
    dir: &StoreDir,
    schema: Schema,
) -> Result<Tables<S>, Unadopted<S>>
    requires { HasTables S.Store schema conn }
    ensures { Adopts S.Store dir.now (state S.Store conn) result
        (OpensMigrated S.Store schema dir.now (state S.Store conn).now)
        (LeavesMigration schema dir.now (state S.Store conn).now) }
{
    match read_and_bring(alloc, &mut conn, dir, schema) {
        Ok(loaded) => {
            let Loaded { dir: own, outline } = loaded;
            Ok(over(alloc, conn, own, outline))
        }
        Err(cause) => Err(Unadopted { conn, cause }),
    }
}
