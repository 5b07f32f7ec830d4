//! Queries outside a transaction: their rows are read one at a time.

ghost use Rattle.std.specs.Prelude.{◌≡◌, ◌⊎◌, ◌++◌, ◌∷◌, [], false, List, IfOk, IfErr, OnOk};
ghost use Rattle.sqlite_value.specs.declared.value.Value.{Value};
ghost use Rattle.sqlite_value.specs.Order.{Row as Values};
ghost use Rattle.sqlite.specs.State.{HasCleanDisk, Survives};
ghost use Rattle.sqlite.specs.Held.{state};
ghost use Rattle.sqlite.specs.Values.{bound};
ghost use Rattle.tables_sql.specs.declared.failure.Failed.TheVariants.{Memory, Disk};
ghost use Rattle.tables_sql.specs.Failures.{IsQueryFailure};
ghost use Rattle.tables_sql.specs.Statements.{SelectsEntries};
ghost use Rattle.tables_sql.specs.Queries.{IsSelect, HasBegunWith, IsAnswered};

use crate::entry::Entry;
use crate::failure::Failed;
use sqlite::types::ValueRef;
use sqlite::{Alter, Connection, Row};
use std::alloc::Global;

/// What is made of the rows of an answer, which it is given one at a time.
pub trait Sink: Sized + Drop {
    // The sink was made of these rows.
    ghost is_of: { List (List Value) → Self → Type 0 };

    // The sink takes no answer that begins with these rows.
    ghost is_amiss: { List (List Value) → Type 0 };

    fn take(&mut self, row: &Row) -> Result<(), Failed>
        ensures loaded { OnOk result ((rows : List (List Value)) → is_of rows self.old
            → is_of (rows ++ row.now ∷ []) self.new) }
        ensures refused { IfErr result
            (λ f. (f ≡ Memory)
            ⊎ ((f ≡ Disk) × ((rows : List (List Value)) → is_of rows self.old → is_amiss (rows ++ row.now ∷ [])))) };
}

/// Passes the rows that a query shows to `sink`, one at a time, up to the first that it doesn't take. Nothing changes.
pub fn read_into<S: Alter, T: Sink>(
    conn: &mut Connection<S>,
    text: &str,
    params: &[ValueRef<'_>],
    mut sink: T,
) -> Result<T, Failed>
    requires reads { IsSelect text.now }
    requires empty { T.is_of [] sink }
    ensures idle { conn.old.in_transaction ≡ false → conn.new.in_transaction ≡ false }
    ensures shown { HasCleanDisk (state S.Store conn.new)
        → IfOk result
        (λ it. (rows : List Values)
        × IsAnswered text.now (bound params.now) (state S.Store conn.old) (state S.Store conn.new) rows
        × T.is_of rows it) }
    ensures cause { HasCleanDisk (state S.Store conn.new)
        → IfErr result
        (λ f. IsQueryFailure text.now (bound params.now) (state S.Store conn.old) (state S.Store conn.new) f
        ⊎ ((rows : List Values)
        × HasBegunWith text.now (bound params.now) (state S.Store conn.old) (state S.Store conn.new) rows
        × ((f ≡ Memory) ⊎ ((f ≡ Disk) × T.is_amiss rows)))) }
    ensures survives { Survives (state S.Store conn.old) (state S.Store conn.new) (λ _. ⊥) }
{
    let mut rows = conn.query(text, params)?;
    'rows: for _ in 0..u64::MAX {
        let Some(row) = rows.next()? else {
            return Ok(sink);
        };
        sink.take(row)?;
    }
    // No memory holds that many.
    Err(Failed::Memory)
}

/// The entries that a query shows, which must rise: an honest disk gives no others.
pub fn select<S: Alter, T: Entry>(
    alloc: Global,
    conn: &mut Connection<S>,
    text: &str,
    params: &[ValueRef<'_>],
) -> Result<Vec<T>, Failed>
    requires { IsSelect text.now }
    ensures { SelectsEntries S.Store conn.old conn.new result
        text.now (bound params.now) T.is_legible T.is_shown T.is_below }
{
    read_into(conn, text, params, Vec::new(alloc))
}
