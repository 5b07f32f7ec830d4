//! The references: which path an object refers to.
#![tactic(auto, using(crate::proofs::ReferenceLemmas::all_read))]

ghost use Rattle.std.specs.Prelude.{◌∷◌, [], ◌≡◌, map, ⊤, false};
ghost use Rattle.std.specs.FinMap as finite;
ghost use Rattle.sqlite_value.specs.declared.value.Value.TheVariants.{Text};
ghost use Rattle.tables_schema.specs.Forms.{refs};
ghost use Rattle.tables_rows.specs.Entries.{reference_of, ShowsReference, IsPairRow};
ghost use Rattle.tables_rows.specs.Keys.{same, without_keys};
ghost use Rattle.std.specs.Ordering.{is_lt};
ghost use Rattle.tables_sql.specs.Contents.{pair_cmp};

use crate::{Delete, Find, Found, Insert, queries};
use sqlite::{Alter, Connection, Transaction, params};
use std::alloc::Global;
use std::cmp::Ordering;
use tables_sql::entry::Entry;
use tables_sql::failure::Failed;
use tables_sql::statement;

/// A reference: the base name of an object's path, and that of a path that it refers to.
#[derive(Debug, Drop)]
pub struct Reference {
    pub base: String,
    pub target: String,
}

impl Entry for Reference {
    ghost is_shown = { ShowsReference };

    ghost is_legible = { IsPairRow };

    ghost is_below = { λ a b. is_lt (pair_cmp (reference_of a).0 (reference_of b).0) };

    fn read(row: &sqlite::Row) -> Result<Reference, Failed> {
        Ok(Reference {
            base: row.get(0)?,
            target: row.get(1)?,
        })
    }

    fn is_below(&self, other: &Reference) -> bool {
        match self.base.cmp(&other.base) {
            Ordering::Less => true,
            Ordering::Equal => self.target < other.target,
            Ordering::Greater => false,
        }
    }
}

/// All references, in order.
#[derive(Drop)]
pub struct All;

impl Find for All {
    type Entry = Reference;

    ghost shows = { λ it c all. map reference_of all ≡ finite.entries c.refs };

    fn find<S: Alter>(&self, alloc: Global, conn: &mut Connection<S>) -> Found<Reference> {
        let text = "SELECT base, target FROM refs ORDER BY base, target";
        queries::select(alloc, conn, text, &[])
    }
}

/// The references of this base.
#[derive(Drop)]
pub struct Of<'a> {
    pub base: &'a str,
}

impl<'a> Delete for Of<'a> {
    ghost change = { λ it c. record c { refs = without_keys c.refs (λ k. same k.0 it.base.now) } };

    fn delete<S: Alter>(&self, tx: &mut Transaction<'_, S>) -> Result<(), Failed> {
        statement::remove(tx, "DELETE FROM refs WHERE base = ?1", params![self.base])
    }
}

/// The row of one reference.
#[derive(Drop)]
pub struct Row<'a> {
    pub base: &'a str,
    pub target: &'a str,
}

impl<'a> Insert for Row<'a> {
    ghost table = { refs };

    ghost columns = { λ it. Text it.base.now ∷ Text it.target.now ∷ [] };

    ghost Kept = { ⊤ };

    ghost present = { λ it c. finite.get c.refs (it.base.now, it.target.now) };

    ghost change = { λ it c. record c { refs = finite.insert c.refs (it.base.now, it.target.now) tt } };

    fn insert<S: Alter>(&self, tx: &mut Transaction<'_, S>) -> Result<(), Failed> {
        // A text is UTF-8.
        let _base = self.base.as_bytes();
        let _target = self.target.as_bytes();
        let text = "INSERT INTO refs (base, target) VALUES (?1, ?2)";
        statement::add(tx, text, params![self.base, self.target])
    }
}
