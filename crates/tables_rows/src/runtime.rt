//! The runtime roots.
#![tactic(auto, using(crate::proofs::RuntimeRootLemmas::all_read))]

ghost use Rattle.std.specs.Prelude.{◌∷◌, [], ◌≡◌, map, ⊤, false};
ghost use Rattle.std.specs.FinMap as finite;
ghost use Rattle.sqlite_value.specs.declared.value.Value.TheVariants.{Text};
ghost use Rattle.tables_schema.specs.Forms.{runtime};
ghost use Rattle.tables_rows.specs.Entries.{runtime_of, ShowsRuntimeRoot, IsPairRow};
ghost use Rattle.std.specs.Ordering.{is_lt};
ghost use Rattle.tables_sql.specs.Contents.{pair_cmp};

use crate::{Delete, Find, Found, Insert, queries};
use sqlite::{Alter, Connection, Transaction, params};
use std::alloc::Global;
use std::cmp::Ordering;
use tables_sql::entry::Entry;
use tables_sql::failure::Failed;
use tables_sql::statement;

/// A runtime root: its label, and the base name of its target.
#[derive(Debug, Drop)]
pub struct RuntimeRoot {
    pub label: String,
    pub target: String,
}

impl Entry for RuntimeRoot {
    ghost is_shown = { ShowsRuntimeRoot };

    ghost is_legible = { IsPairRow };

    ghost is_below = { λ a b. is_lt (pair_cmp (runtime_of a).0 (runtime_of b).0) };

    fn read(row: &sqlite::Row) -> Result<RuntimeRoot, Failed> {
        Ok(RuntimeRoot {
            label: row.get(0)?,
            target: row.get(1)?,
        })
    }

    fn is_below(&self, other: &RuntimeRoot) -> bool {
        match self.label.cmp(&other.label) {
            Ordering::Less => true,
            Ordering::Equal => self.target < other.target,
            Ordering::Greater => false,
        }
    }
}

/// All runtime roots, in order.
#[derive(Drop)]
pub struct All;

impl Find for All {
    type Entry = RuntimeRoot;

    ghost shows = { λ it c all. map runtime_of all ≡ finite.entries c.runtime };

    fn find<S: Alter>(&self, alloc: Global, conn: &mut Connection<S>) -> Found<RuntimeRoot> {
        let text = "SELECT label, target FROM runtime ORDER BY label, target";
        queries::select(alloc, conn, text, &[])
    }
}

impl Delete for All {
    ghost change = { λ it c. record c { runtime = finite.from_entries [] } };

    fn delete<S: Alter>(&self, tx: &mut Transaction<'_, S>) -> Result<(), Failed> {
        statement::remove(tx, "DELETE FROM runtime", &[])
    }
}

/// The row of one runtime root.
#[derive(Drop)]
pub struct Row<'a> {
    pub label: &'a str,
    pub target: &'a str,
}

impl<'a> Insert for Row<'a> {
    ghost table = { runtime };

    ghost columns = { λ it. Text it.label.now ∷ Text it.target.now ∷ [] };

    ghost Kept = { ⊤ };

    ghost present = { λ it c. finite.get c.runtime (it.label.now, it.target.now) };

    ghost change = { λ it c. record c { runtime = finite.insert c.runtime (it.label.now, it.target.now) tt } };

    fn insert<S: Alter>(&self, tx: &mut Transaction<'_, S>) -> Result<(), Failed> {
        // A text is UTF-8.
        let _label = self.label.as_bytes();
        let _target = self.target.as_bytes();
        let text = "INSERT INTO runtime (label, target) VALUES (?1, ?2)";
        statement::add(tx, text, params![self.label, self.target])
    }
}
