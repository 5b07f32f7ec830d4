//! Changes of the rows, each committed at once or not at all.

ghost use Rattle.std.specs.Prelude.{IsTrue};
ghost use Rattle.sqlite.specs.State.{HasCleanDisk};
ghost use Rattle.sqlite.specs.Held.{state};
ghost use Rattle.tables_sql.specs.Contents.{Contents, contents_of};
ghost use Rattle.tables_sql.specs.Calls.{IsWhole};
ghost use Rattle.tables_rows.specs.Reasons.{Rows, HasReason};
ghost use Rattle.tables_writes.specs.Writes.{MayCommit, CommitsRows};
ghost use Rattle.tables_rows.specs.Frames.{IsInside, Makes, StaysInside};

use sqlite::{Alter, Connection, Transaction};
use tables_sql::failure::Failed;
use tables_sql::transaction;

/// A change of the rows, written in a transaction.
pub(crate) trait Change {
    // The contents after the change, by those before.
    ghost change: { Self → Contents → Contents };

    // The contents to which the change may be made.
    ghost fits: { Self → Contents → Type 0 };

    // The rows that the change puts.
    ghost rows: { Self → Rows };

    fn write<S: Alter>(&self, tx: &mut Transaction<'_, S>) -> Result<(), Failed>
        requires under_way { IsInside S.Store tx.old.conn }
        requires whole { HasCleanDisk (state S.Store tx.old.conn.now) → IsTrue (state S.Store tx.old.conn.now).is_open
            → IsWhole (state S.Store tx.old.conn.now).now }
        requires fits { HasCleanDisk (state S.Store tx.old.conn.now) → IsTrue (state S.Store tx.old.conn.now).is_open
            → fits self.now (contents_of (state S.Store tx.old.conn.now).now) }
        ensures frame { StaysInside S.Store tx.old.conn tx.new.conn result }
        ensures done { Makes S.Store tx.old.conn tx.new.conn result (change self.now) }
        ensures cause { HasReason S.Store tx.old.conn.now tx.new.conn.now result (rows self.now) };
}

/// Commits a change in one transaction. A failure leaves the rows as they were.
pub(crate) fn commit<S: Alter, C: Change>(
    conn: &mut Connection<S>,
    change: &C,
) -> Result<(), Failed>
    requires { MayCommit S.Store conn.old (C.fits change.now) }
    ensures frame { CommitsRows S.Store conn.old conn.new result (C.change change.now) }
    ensures cause { HasReason S.Store conn.old conn.new result (C.rows change.now) }
{
    let mut tx = transaction::begin(conn);
    change.write(&mut tx)?;
    transaction::commit(tx)
}
