//! Runtime roots, as the rows have them.

ghost use Rattle.std.specs.Prelude.{◌≡◌, map};
ghost use Rattle.std.specs.FinMap as finite;
ghost use Rattle.tables_outline.specs.Maps.{labelled_bytes};
ghost use Rattle.tables_writes.specs.Rewritten.{put_pairs};
ghost use Rattle.tables_rows.specs.Reasons.{RowsOf};
ghost use Rattle.tables_writes.specs.RowsPut.{RuntimeRow};
ghost use Rattle.tables_rows.specs.Frames.{Writes};
ghost use Rattle.tables_writes.specs.Writes.{IsOpenInside};

use crate::change::Change;
use paths::StorePath;
use sqlite::{Alter, Transaction};
use std::collections::BTreeSet;
use tables_rows::{Delete, Insert, runtime};
use tables_sql::failure::Failed;

/// Adds a row for each runtime root of `roots`. The table has no rows yet.
pub(crate) fn put_runtime<S: Alter>(
    tx: &mut Transaction<'_, S>,
    roots: &BTreeSet<(String, StorePath)>,
) -> Result<(), Failed>
    requires { IsOpenInside S.Store tx.old.conn (λ c. c.runtime ≡ finite.empty) }
    ensures { Writes S.Store tx.old.conn tx.new.conn result
        (λ c. record c { runtime = put_pairs (map labelled_bytes roots.now.keys) c.runtime })
        (RowsOf RuntimeRow (map labelled_bytes roots.now.keys)) }
{
    // Labels and targets rise.
    let _count = roots.len();
    'roots: for root in roots.iter() {
        runtime::Row {
            label: root.0.as_str(),
            target: root.1.as_str(),
        }
        .insert(tx)?;
    }
    Ok(())
}

/// The change that replaces all runtime roots.
#[derive(Drop)]
pub(crate) struct ReplaceRuntime<'a> {
    pub(crate) roots: &'a BTreeSet<(String, StorePath)>,
}

impl<'a> Change for ReplaceRuntime<'a> {
    ghost use Rattle.std.specs.Prelude.{⊤};
    ghost use Rattle.model.specs.World.{pair_cmp};
    ghost use Rattle.tables_outline.specs.Maps.{seen_set};

    ghost change = { λ p c. record c { runtime = seen_set pair_cmp labelled_bytes p.roots.now.keys } };

    ghost fits = { λ p c. ⊤ };

    ghost rows = { λ p. RowsOf RuntimeRow (map labelled_bytes p.roots.now.keys) };

    fn write<S: Alter>(&self, tx: &mut Transaction<'_, S>) -> Result<(), Failed> {
        runtime::All.delete(tx)?;
        put_runtime(tx, self.roots)
    }
}
