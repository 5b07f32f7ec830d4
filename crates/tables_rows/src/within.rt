//! Queries inside a transaction: they read what it has written so far.

ghost use Rattle.std.specs.Prelude.{◌≡◌, ◌⊎◌, ◌++◌, true, List, IfOk, IfErr, length};
ghost use Rattle.std.specs.List.{AllZip, AllAdjacentBelow};
ghost use Rattle.sqlite_value.specs.Order.{Row as Values};
ghost use Rattle.sqlite.specs.State.{HasCleanDisk};
ghost use Rattle.sqlite.specs.Held.{state};
ghost use Rattle.sqlite.specs.Values.{bound};
ghost use Rattle.tables_sql.specs.declared.failure.Failed.TheVariants.{Memory, Disk};
ghost use Rattle.tables_sql.specs.Reading.{IsAmiss};
ghost use Rattle.tables_sql.specs.Failures.{IsQueryFailure};
ghost use Rattle.tables_sql.specs.Queries.{IsSelect, HasBegunWith, IsAnswered};
ghost use Rattle.tables_rows.specs.Frames.{StaysInside};

use sqlite::types::ValueRef;
use sqlite::{Alter, Row, Transaction};
use std::alloc::Global;
use tables_sql::entry::Entry;
use tables_sql::failure::Failed;
use tables_sql::query::Sink;

/// The entries that these rows show, which must rise.
fn entries<T: Entry>(alloc: Global, rows: &[Row]) -> Result<Vec<T>, Failed>
    ensures shown { IfOk result (λ all. AllZip T.is_shown rows.now all.items) }
    ensures rises { IfOk result (λ all. AllAdjacentBelow (λ x y. true ≡ T.is_below x y) all.items (length all.items)) }
    ensures cause { IfErr result
        (λ f. (before : List Values) × (after : List Values) × (rows.now ≡ before ++ after)
        × ((f ≡ Memory) ⊎ ((f ≡ Disk) × IsAmiss T.is_legible T.is_shown T.is_below before))) }
{
    let mut all = Vec::new(alloc);
    'rows: for row in rows {
        all.take(row)?;
    }
    Ok(all)
}

/// The entries that a query shows, which must rise: an honest disk gives no others. Its rows are held until all are
/// read.
pub(crate) fn select<S: Alter, T: Entry>(
    alloc: Global,
    tx: &mut Transaction<'_, S>,
    text: &str,
    params: &[ValueRef<'_>],
) -> Result<Vec<T>, Failed>
    requires { IsSelect text.now }
    ensures frame { StaysInside S.Store tx.old.conn tx.new.conn result }
    ensures shown { HasCleanDisk (state S.Store tx.new.conn.now) → IfOk result
        (λ all. (rows : List Values)
        × IsAnswered text.now (bound params.now) (state S.Store tx.old.conn.now) (state S.Store tx.new.conn.now) rows
        × AllZip T.is_shown rows all.items) }
    ensures rises { IfOk result (λ all. AllAdjacentBelow (λ x y. true ≡ T.is_below x y) all.items (length all.items)) }
    ensures cause { HasCleanDisk (state S.Store tx.new.conn.now) → IfErr result
        (λ f. IsQueryFailure text.now (bound params.now) (state S.Store tx.old.conn.now) (state S.Store tx.new.conn.now)
        f
        ⊎ ((rows : List Values)
        × HasBegunWith text.now (bound params.now) (state S.Store tx.old.conn.now) (state S.Store tx.new.conn.now) rows
        × ((f ≡ Memory) ⊎ ((f ≡ Disk) × IsAmiss T.is_legible T.is_shown T.is_below rows)))) }
{
    let rows = tx.query_all(text, params)?;
    entries(alloc, rows.as_slice())
}
