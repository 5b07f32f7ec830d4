//! A transaction over the store's tables: what is written inside it is committed at once, or not at all.

ghost use Rattle.std.specs.Prelude.{◌≡◌, true, false, IsTrue, IfErr, OnOk, OnErr};
ghost use Rattle.sqlite.specs.State.{HasCleanDisk, IsRolledBack, Survives};
ghost use Rattle.sqlite.specs.Held.{state};
ghost use Rattle.tables_sql.specs.Contents.{contents_of};
ghost use Rattle.tables_sql.specs.Failures.{FailsToCommit};
ghost use Rattle.tables_sql.specs.Calls.{IsUnderWay, IsReady, IsCommitted, IsDurable, Leaves};

use crate::failure::Failed;
use sqlite::{Alter, Connection, Transaction};

/// Begins a transaction. Dropped before `commit`, it rolls back.
pub fn begin<S: Alter>(conn: &mut Connection<S>) -> Transaction<'_, S>
    requires idle { conn.old.in_transaction ≡ false }
    requires ready { HasCleanDisk (state S.Store conn.old) → IsTrue (state S.Store conn.old).is_open
        → IsReady (state S.Store conn.old) }
    ensures same_reference { result.conn.ghost_name ≡ conn.entry.ghost_name }
    ensures begun { result.conn.now ≡ record conn.old { in_transaction = true } }
    ensures under_way { HasCleanDisk (state S.Store result.conn.now) → IsUnderWay (state S.Store result.conn.now) }
{
    conn.transaction()
}

/// Commits what the transaction wrote.
pub fn commit<S: Alter>(tx: Transaction<'_, S>) -> Result<(), Failed>
    requires { HasCleanDisk (state S.Store tx.conn.now) → IsUnderWay (state S.Store tx.conn.now) }
    ensures ended { tx.exit.0.now.in_transaction ≡ false }
    ensures done { HasCleanDisk (state S.Store tx.exit.0.now)
        → OnOk result (IsCommitted (state S.Store tx.entry.conn.now) (state S.Store tx.exit.0.now)) }
    ensures cause { HasCleanDisk (state S.Store tx.exit.0.now)
        → IfErr result (FailsToCommit (state S.Store tx.entry.conn.now) (state S.Store tx.exit.0.now)) }
    ensures failed { HasCleanDisk (state S.Store tx.exit.0.now)
        → OnErr result (IsRolledBack (state S.Store tx.entry.conn.now) (state S.Store tx.exit.0.now)) }
    ensures survives { Survives (state S.Store tx.entry.conn.now) (state S.Store tx.exit.0.now)
        (λ db. db ≡ (state S.Store tx.entry.conn.now).now.trees) }
    ensures durable { IsTrue (state S.Store tx.exit.0.now).is_open → IsDurable (state S.Store tx.exit.0.now) }
    ensures leaves { Survives (state S.Store tx.entry.conn.now) (state S.Store tx.exit.0.now)
        (λ db. Leaves (state S.Store tx.entry.conn.now).now db (contents_of (state S.Store tx.entry.conn.now).now)) }
{
    tx.commit()?;
    Ok(())
}
