//! The promises of a statement on a table, by its kind: a read, a delete or an insert.
//!
//! Two tables are missing in earlier schemas. A statement on one of them says by `needs` that the database has it.

ghost use Rattle.std.specs.Prelude.{List, Option, ⊤};
ghost use Rattle.sqlite_value.specs.Order.{Row};
ghost use Rattle.sqlite_schema.specs.declared.schema.Table.{Table};
ghost use Rattle.sqlite.specs.Effect.{Database};
ghost use Rattle.tables_sql.specs.Contents.{Contents};
ghost use Rattle.tables_rows.specs.Frames.{MayRead, IsInside, Meets, Finds, Inserts, Removes};

use sqlite::{Alter, Connection, Transaction};
use std::alloc::Global;
use tables_sql::failure::Failed;

/// The entries that a read finds.
pub type Found<T> = Result<Vec<T>, Failed>;

/// Entries that are read outside a transaction.
pub trait Find {
    type Entry;

    ghost needs: { Database → Type 0 } = { λ _. ⊤ };

    // The entries that are found, by the contents.
    ghost shows: { Self → Contents → List Self.Entry → Type 0 };

    /// Reads the entries, in the order of their keys.
    fn find<S: Alter>(&self, alloc: Global, conn: &mut Connection<S>) -> Found<Self::Entry>
        requires frame { MayRead S.Store conn.old }
        requires exists { Meets S.Store conn.old needs }
        ensures found { Finds S.Store conn.old conn.new result (λ c all. shows self.now c all.items) }
        ensures exists { Meets S.Store conn.new needs };
}

/// Entries that are deleted inside a transaction.
pub trait Delete {
    ghost needs: { Database → Type 0 } = { λ _. ⊤ };

    // The contents after the delete, by those before.
    ghost change: { Self → Contents → Contents };

    /// Removes the entries, if there are any.
    fn delete<S: Alter>(&self, tx: &mut Transaction<'_, S>) -> Result<(), Failed>
        requires under { IsInside S.Store tx.old.conn }
        requires exists { Meets S.Store tx.old.conn.now needs }
        ensures { Removes S.Store tx.old.conn tx.new.conn result (change self.now) };
}

/// A row that is put inside a transaction.
pub trait Insert {
    ghost needs: { Database → Type 0 } = { λ _. ⊤ };

    // The table of the row.
    ghost table: { Table };

    // The columns of the row.
    ghost columns: { Self → Row };

    // The type of what the table keeps under a key.
    ghost Kept: { Type 0 };

    // The entry under the key of the row, if there is one.
    ghost present: { Self → Contents → Option Kept };

    // The contents after the insert, by those before.
    ghost change: { Self → Contents → Contents };

    /// Adds the row. If its key is there already, the answer is `Disk` and nothing changes, unless the call fails
    /// otherwise.
    fn insert<S: Alter>(&self, tx: &mut Transaction<'_, S>) -> Result<(), Failed>
        requires under { IsInside S.Store tx.old.conn }
        requires exists { Meets S.Store tx.old.conn.now needs }
        ensures { Inserts S.Store tx.old.conn tx.new.conn result table (columns self.now) (present self.now)
            (change self.now) };
}
