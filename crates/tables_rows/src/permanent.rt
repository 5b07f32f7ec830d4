//! The permanent roots.
#![tactic(auto, using(crate::proofs::PermanentRootLemmas::all_read))]

ghost use Rattle.std.specs.Prelude.{◌∷◌, [], ◌≡◌, map};
ghost use Rattle.std.specs.FinMap as finite;
ghost use Rattle.sqlite_value.specs.declared.value.Value.TheVariants.{Text};
ghost use Rattle.tables_schema.specs.Forms.{permanent};
ghost use Rattle.tables_sql.specs.Contents.{Bytes, texts_cmp};
ghost use Rattle.tables_rows.specs.Entries.{permanent_of, ShowsPermanentRoot, IsPairRow};
ghost use Rattle.tables_rows.specs.Keys.{same, without_keys};
ghost use Rattle.std.specs.Ordering.{is_lt};

use crate::{Delete, Find, Found, Insert, queries};
use sqlite::{Alter, Connection, Transaction, params};
use std::alloc::Global;
use tables_sql::entry::Entry;
use tables_sql::failure::Failed;
use tables_sql::statement;

/// A permanent root: its name, and the base name of its target.
#[derive(Debug, Drop)]
pub struct PermanentRoot {
    pub name: String,
    pub target: String,
}

impl Entry for PermanentRoot {
    ghost is_shown = { ShowsPermanentRoot };

    ghost is_legible = { IsPairRow };

    ghost is_below = { λ a b. is_lt (texts_cmp (permanent_of a).0 (permanent_of b).0) };

    fn read(row: &sqlite::Row) -> Result<PermanentRoot, Failed> {
        Ok(PermanentRoot {
            name: row.get(0)?,
            target: row.get(1)?,
        })
    }

    fn is_below(&self, other: &PermanentRoot) -> bool {
        self.name < other.name
    }
}

/// All permanent roots, in order.
#[derive(Drop)]
pub struct All;

impl Find for All {
    type Entry = PermanentRoot;

    ghost shows = { λ it c all. map permanent_of all ≡ finite.entries c.permanent };

    fn find<S: Alter>(&self, alloc: Global, conn: &mut Connection<S>) -> Found<PermanentRoot> {
        let text = "SELECT name, target FROM permanent ORDER BY name";
        queries::select(alloc, conn, text, &[])
    }
}

/// The permanent root of this name.
#[derive(Drop)]
pub struct Of<'a> {
    pub name: &'a str,
}

impl<'a> Delete for Of<'a> {
    ghost change = { λ it c. record c { permanent = without_keys c.permanent (λ k. same k it.name.now) } };

    fn delete<S: Alter>(&self, tx: &mut Transaction<'_, S>) -> Result<(), Failed> {
        let text = "DELETE FROM permanent WHERE name = ?1";
        statement::remove(tx, text, params![self.name])
    }
}

/// The row of one permanent root.
#[derive(Drop)]
pub struct Row<'a> {
    pub name: &'a str,
    pub target: &'a str,
}

impl<'a> Insert for Row<'a> {
    ghost table = { permanent };

    ghost columns = { λ it. Text it.name.now ∷ Text it.target.now ∷ [] };

    ghost Kept = { Bytes };

    ghost present = { λ it c. finite.get c.permanent it.name.now };

    ghost change = { λ it c. record c { permanent = finite.insert c.permanent it.name.now it.target.now } };

    fn insert<S: Alter>(&self, tx: &mut Transaction<'_, S>) -> Result<(), Failed> {
        // A text is UTF-8.
        let _name = self.name.as_bytes();
        let _target = self.target.as_bytes();
        let text = "INSERT INTO permanent (name, target) VALUES (?1, ?2)";
        statement::add(tx, text, params![self.name, self.target])
    }
}
