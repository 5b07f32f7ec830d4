//! A query of a table's rows, whose rowids and texts are tested as they come.

ghost use Rattle.std.specs.Prelude.{◌≡◌, ◌↔◌, ◌⊎◌, [], List, IfOk, IfErr, IsTrue, true, false, map};
ghost use Rattle.std.specs.List.{AllByRecursion};
ghost use Rattle.sqlite_value.specs.declared.value.Value.TheVariants.{Int};
ghost use Rattle.sqlite_value.specs.Order.{Row as Values, column};
ghost use Rattle.sqlite.specs.State.{HasCleanDisk};
ghost use Rattle.sqlite.specs.Held.{state};
ghost use Rattle.tables_sql.specs.declared.failure.Failed.TheVariants.{Memory, Disk};
ghost use Rattle.tables_sql.specs.Failures.{IsQueryFailure};
ghost use Rattle.tables_sql.specs.Queries.{IsSelect, HasBegunWith, IsAnswered};
ghost use Rattle.tables_sql.specs.Texts.{IsReadableRow};
ghost use Rattle.tables_recognize.specs.Opened.{ShowIds};
ghost use Rattle.tables_recognize.specs.Tests.{IsSettled, LeavesShown};

use crate::rowids::{differ, read_id};
use crate::texts::are_readable;
use sqlite::{Alter, Connection, Row};
use std::alloc::Global;
use tables_sql::failure::Failed;
use tables_sql::query::{Sink, read_into};

/// The rowids that rows show first, and whether each text that they show is UTF-8.
#[derive(Drop)]
struct Tested {
    ids: Vec<i64>,
    are_readable: bool,
}

impl Sink for Tested {
    ghost is_of = { λ rows it. (map (λ row. column row 0) rows ≡ map Int it.ids.items)
        × (IsTrue it.are_readable ↔ AllByRecursion IsReadableRow rows) };

    ghost is_amiss = { λ rows. ¬ ShowIds rows };

    fn take(&mut self, row: &Row) -> Result<(), Failed> {
        self.ids.push(read_id(row)?)?;
        self.are_readable &= are_readable(row);
        Ok(())
    }
}

/// Whether each text that the query shows is UTF-8. It shows integers that differ first; where it doesn't, the answer
/// is `Disk`.
pub(crate) fn check<S: Alter>(
    alloc: Global,
    conn: &mut Connection<S>,
    text: &str,
) -> Result<bool, Failed>
    requires reads { IsSelect text.now }
    requires frame { IsSettled S.Store conn.old }
    ensures frame { LeavesShown S.Store conn.old conn.new }
    ensures shown { HasCleanDisk (state S.Store conn.new)
        → IfOk result
        (λ all. (rows : List Values) × IsAnswered text.now [] (state S.Store conn.old) (state S.Store conn.new) rows
        × ShowIds rows × (IsTrue all ↔ AllByRecursion IsReadableRow rows)) }
    ensures cause { HasCleanDisk (state S.Store conn.new)
        → IfErr result (λ f. IsQueryFailure text.now [] (state S.Store conn.old) (state S.Store conn.new) f
        ⊎ ((rows : List Values) × HasBegunWith text.now [] (state S.Store conn.old) (state S.Store conn.new) rows
        × ((f ≡ Memory) ⊎ ((f ≡ Disk) × ¬ ShowIds rows)))) }
{
    let empty = Tested {
        ids: Vec::new(alloc),
        are_readable: true,
    };
    let read = read_into(conn, text, &[], empty)?;
    let readable = read.are_readable;
    if differ(read.ids)? {
        Ok(readable)
    } else {
        Err(Failed::Disk)
    }
}
