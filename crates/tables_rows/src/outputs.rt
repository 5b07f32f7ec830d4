//! The outputs of derivations.
#![tactic(auto, using(crate::proofs::OutputLemmas::all_read))]

ghost use Rattle.std.specs.Prelude.{◌∷◌, [], ◌≡◌, map, false};
ghost use Rattle.std.specs.FinMap as finite;
ghost use Rattle.sqlite_value.specs.declared.value.Value.TheVariants.{Text};
ghost use Rattle.tables_schema.specs.Forms.{outs};
ghost use Rattle.tables_sql.specs.Contents.{Bytes, pair_cmp};
ghost use Rattle.tables_rows.specs.Entries.{output_of, ShowsOutput, IsTripleRow};
ghost use Rattle.tables_rows.specs.Keys.{same, without_keys};
ghost use Rattle.std.specs.Ordering.{is_lt};

use crate::{Delete, Find, Found, Insert, queries};
use sqlite::{Alter, Connection, Transaction, params};
use std::alloc::Global;
use std::cmp::Ordering;
use tables_sql::entry::Entry;
use tables_sql::failure::Failed;
use tables_sql::statement;

/// An output: the base name of a derivation's path, the output's name, and the base name of its path.
#[derive(Debug, Drop)]
pub struct Output {
    pub base: String,
    pub name: String,
    pub target: String,
}

impl Entry for Output {
    ghost is_shown = { ShowsOutput };

    ghost is_legible = { IsTripleRow };

    ghost is_below = { λ a b. is_lt (pair_cmp (output_of a).0 (output_of b).0) };

    fn read(row: &sqlite::Row) -> Result<Output, Failed> {
        Ok(Output {
            base: row.get(0)?,
            name: row.get(1)?,
            target: row.get(2)?,
        })
    }

    fn is_below(&self, other: &Output) -> bool {
        match self.base.cmp(&other.base) {
            Ordering::Less => true,
            Ordering::Equal => self.name < other.name,
            Ordering::Greater => false,
        }
    }
}

/// All outputs, in order.
#[derive(Drop)]
pub struct All;

impl Find for All {
    type Entry = Output;

    ghost shows = { λ it c all. map output_of all ≡ finite.entries c.outs };

    fn find<S: Alter>(&self, alloc: Global, conn: &mut Connection<S>) -> Found<Output> {
        let text = "SELECT base, name, target FROM outs ORDER BY base, name";
        queries::select(alloc, conn, text, &[])
    }
}

/// The outputs of this base.
#[derive(Drop)]
pub struct Of<'a> {
    pub base: &'a str,
}

impl<'a> Delete for Of<'a> {
    ghost change = { λ it c. record c { outs = without_keys c.outs (λ k. same k.0 it.base.now) } };

    fn delete<S: Alter>(&self, tx: &mut Transaction<'_, S>) -> Result<(), Failed> {
        statement::remove(tx, "DELETE FROM outs WHERE base = ?1", params![self.base])
    }
}

/// The row of one output.
#[derive(Drop)]
pub struct Row<'a> {
    pub base: &'a str,
    pub name: &'a str,
    pub target: &'a str,
}

impl<'a> Insert for Row<'a> {
    ghost table = { outs };

    ghost columns = { λ it. Text it.base.now ∷ Text it.name.now ∷ Text it.target.now ∷ [] };

    ghost Kept = { Bytes };

    ghost present = { λ it c. finite.get c.outs (it.base.now, it.name.now) };

    ghost change = { λ it c. record c { outs = finite.insert c.outs (it.base.now, it.name.now) it.target.now } };

    fn insert<S: Alter>(&self, tx: &mut Transaction<'_, S>) -> Result<(), Failed> {
        // A text is UTF-8.
        let _base = self.base.as_bytes();
        let _name = self.name.as_bytes();
        let _target = self.target.as_bytes();
        let text = "INSERT INTO outs (base, name, target) VALUES (?1, ?2, ?3)";
        statement::add(tx, text, params![self.base, self.name, self.target])
    }
}
