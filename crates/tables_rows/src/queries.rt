//! Queries outside a transaction: what the connection shows stays, so it is ready as before.

ghost use Rattle.std.specs.Prelude.{◌≡◌, ◌⊎◌, true, List, IfOk, IfErr, length};
ghost use Rattle.std.specs.List.{AllZip, AllAdjacentBelow};
ghost use Rattle.sqlite_value.specs.Order.{Row as Values};
ghost use Rattle.sqlite_schema.specs.declared.schema.Table.{Table};
ghost use Rattle.sqlite.specs.State.{HasCleanDisk};
ghost use Rattle.sqlite.specs.Held.{state};
ghost use Rattle.sqlite.specs.Values.{bound};
ghost use Rattle.tables_sql.specs.declared.failure.Failed.TheVariants.{Memory, Disk};
ghost use Rattle.tables_sql.specs.Reading.{IsAmiss};
ghost use Rattle.tables_sql.specs.Failures.{IsQueryFailure};
ghost use Rattle.tables_sql.specs.Queries.{IsSelect, HasBegunWith, IsAnswered};
ghost use Rattle.tables_rows.specs.Frames.{MayRead, HasTable, LeftAsItWas};

use sqlite::types::ValueRef;
use sqlite::{Alter, Connection};
use std::alloc::Global;
use tables_sql::entry::Entry;
use tables_sql::failure::Failed;
use tables_sql::query;

/// The entries that a query shows, which must rise: an honest disk gives no others.
pub(crate) fn select<S: Alter, T: Entry>(
    alloc: Global,
    conn: &mut Connection<S>,
    text: &str,
    params: &[ValueRef<'_>],
) -> Result<Vec<T>, Failed>
    requires reads { IsSelect text.now }
    requires frame { MayRead S.Store conn.old }
    ensures frame { LeftAsItWas S.Store conn.old conn.new }
    ensures shown { HasCleanDisk (state S.Store conn.new) → IfOk result
        (λ all. (rows : List Values)
        × IsAnswered text.now (bound params.now) (state S.Store conn.old) (state S.Store conn.new) rows
        × AllZip T.is_shown rows all.items) }
    ensures rises { HasCleanDisk (state S.Store conn.new) → IfOk result
        (λ all. AllAdjacentBelow (λ x y. true ≡ T.is_below x y) all.items (length all.items)) }
    ensures cause { HasCleanDisk (state S.Store conn.new) → IfErr result
        (λ f. IsQueryFailure text.now (bound params.now) (state S.Store conn.old) (state S.Store conn.new) f
        ⊎ ((rows : List Values)
        × HasBegunWith text.now (bound params.now) (state S.Store conn.old) (state S.Store conn.new) rows
        × ((f ≡ Memory) ⊎ ((f ≡ Disk) × IsAmiss T.is_legible T.is_shown T.is_below rows)))) }
    ensures further { (t : Table) → HasTable S.Store conn.old t → HasTable S.Store conn.new t }
{
    query::select(alloc, conn, text, params)
}
