//! An object inside a transaction.
#![tactic(auto, using(crate::proofs::ObjectLemmas::of_read))]

ghost use Rattle.std.specs.Prelude.{◌≡◌, map};
ghost use Rattle.std.specs.Ordering.{eq_by_cmp};
ghost use Rattle.std.specs.FinMap as finite;
ghost use Rattle.tables_sql.specs.Contents.{texts_cmp};
ghost use Rattle.tables_rows.specs.Entries.{stored_of, IsStored};
ghost use Rattle.tables_rows.specs.Frames.{IsInside, FindsInside};

use crate::objects::Object;
use crate::within;
use sqlite::{Alter, Transaction, params};
use std::alloc::Global;
use tables_sql::failure::Failed;

/// The object of this base inside a transaction, as that has left it so far, if there is one.
pub fn get_within<S: Alter>(
    alloc: Global,
    tx: &mut Transaction<'_, S>,
    base: &str,
) -> Result<Option<Object>, Failed>
    requires { IsInside S.Store tx.old.conn }
    ensures { FindsInside S.Store tx.old.conn tx.new.conn result
        (λ c o. IsStored c.objects base.now o) }
{
    let mut found = of_within(alloc, tx, base)?;
    Ok(found.pop())
}

/// The object of this base inside a transaction, if there is one, as a list of at most one.
fn of_within<S: Alter>(
    alloc: Global,
    tx: &mut Transaction<'_, S>,
    base: &str,
) -> Result<Vec<Object>, Failed>
    requires { IsInside S.Store tx.old.conn }
    ensures { FindsInside S.Store tx.old.conn tx.new.conn result
        (λ c all. map stored_of all.items
        ≡ finite.entries (finite.retain_keys c.objects (λ k. eq_by_cmp texts_cmp k base.now))) }
{
    within::select(
        alloc,
        tx,
        "SELECT base, nar, hash, deriver, ca FROM object WHERE base = ?1 ORDER BY base",
        params![base],
    )
}
