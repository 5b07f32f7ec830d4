//! The temporary roots of sessions, where there is a table of them.
#![tactic(auto, using(crate::proofs::TempRootLemmas::all_read))]

ghost use Rattle.std.specs.Prelude.{◌∷◌, [], ◌≡◌, ◌&&◌, map, pos, ⊤, false};
ghost use Rattle.std.specs.FinMap as finite;
ghost use Rattle.sqlite_value.specs.declared.value.Value.TheVariants.{Int, Text};
ghost use Rattle.tables_schema.specs.Forms.{temp_root};
ghost use Rattle.tables_sql.specs.Calls.{HasFurther};
ghost use Rattle.tables_rows.specs.Entries.{temp_root_of, ShowsTempRoot, IsTempRootRow};
ghost use Rattle.tables_rows.specs.Keys.{same, same_number, without_keys};
ghost use Rattle.std.specs.Ordering.{is_lt};
ghost use Rattle.tables_sql.specs.Contents.{session_path_cmp};

use crate::{Delete, Find, Found, Insert, queries};
use sqlite::{Alter, Connection, Transaction, params};
use std::alloc::Global;
use std::cmp::Ordering;
use tables_sql::entry::Entry;
use tables_sql::failure::Failed;
use tables_sql::statement;

/// A temporary root: its owner, the number of its session, and the base name of its target.
#[derive(Debug, Drop)]
pub struct TempRoot {
    pub owner: String,
    pub session: i64,
    pub target: String,
}

impl Entry for TempRoot {
    ghost is_shown = { ShowsTempRoot };

    ghost is_legible = { IsTempRootRow };

    ghost is_below = { λ a b. is_lt (session_path_cmp (temp_root_of a).0 (temp_root_of b).0) };

    fn read(row: &sqlite::Row) -> Result<TempRoot, Failed> {
        Ok(TempRoot {
            owner: row.get(0)?,
            session: row.get(1)?,
            target: row.get(2)?,
        })
    }

    fn is_below(&self, other: &TempRoot) -> bool {
        match self.owner.cmp(&other.owner) {
            Ordering::Less => true,
            Ordering::Equal => match self.session.cmp(&other.session) {
                Ordering::Less => true,
                Ordering::Equal => self.target < other.target,
                Ordering::Greater => false,
            },
            Ordering::Greater => false,
        }
    }
}

/// All temporary roots, in order.
#[derive(Drop)]
pub struct All;

impl Find for All {
    type Entry = TempRoot;

    ghost needs = { λ db. HasFurther db temp_root };

    ghost shows = { λ it c all. map temp_root_of all ≡ finite.entries c.temp_roots };

    fn find<S: Alter>(&self, alloc: Global, conn: &mut Connection<S>) -> Found<TempRoot> {
        let text = "SELECT owner, session, target FROM temp_root ORDER BY owner, session, target";
        queries::select(alloc, conn, text, &[])
    }
}

/// The temporary roots of this owner's session.
#[derive(Drop)]
pub struct Of<'a> {
    pub owner: &'a str,
    pub session: u32,
}

impl<'a> Delete for Of<'a> {
    ghost needs = { λ db. HasFurther db temp_root };

    ghost change = { λ it c. record c {
      temp_roots = without_keys c.temp_roots (λ k. same k.0 it.owner.now && same_number k.1 (pos it.session));
    } };

    fn delete<S: Alter>(&self, tx: &mut Transaction<'_, S>) -> Result<(), Failed> {
        let text = "DELETE FROM temp_root WHERE owner = ?1 AND session = ?2";
        statement::remove(tx, text, params![self.owner, self.session])
    }
}

/// The row of one temporary root.
#[derive(Drop)]
pub struct Row<'a> {
    pub owner: &'a str,
    pub session: u32,
    pub target: &'a str,
}

impl<'a> Insert for Row<'a> {
    ghost needs = { λ db. HasFurther db temp_root };

    ghost table = { temp_root };

    ghost columns = { λ it. Text it.owner.now ∷ Int (pos it.session) ∷ Text it.target.now ∷ [] };

    ghost Kept = { ⊤ };

    ghost present = { λ it c. finite.get c.temp_roots (it.owner.now, pos it.session, it.target.now) };

    ghost change = { λ it c. record c {
      temp_roots = finite.insert c.temp_roots (it.owner.now, pos it.session, it.target.now) tt;
    } };

    fn insert<S: Alter>(&self, tx: &mut Transaction<'_, S>) -> Result<(), Failed> {
        // A text is UTF-8.
        let _owner = self.owner.as_bytes();
        let _target = self.target.as_bytes();
        let text = "INSERT INTO temp_root (owner, session, target) VALUES (?1, ?2, ?3)";
        statement::add(tx, text, params![self.owner, self.session, self.target])
    }
}

impl<'a> Delete for Row<'a> {
    ghost needs = { λ db. HasFurther db temp_root };

    ghost change = { λ it c. record c {
      temp_roots = without_keys c.temp_roots
          (λ k. same k.0 it.owner.now && (same_number k.1 (pos it.session) && same k.2 it.target.now));
    } };

    fn delete<S: Alter>(&self, tx: &mut Transaction<'_, S>) -> Result<(), Failed> {
        let text = "DELETE FROM temp_root WHERE owner = ?1 AND session = ?2 AND target = ?3";
        statement::remove(tx, text, params![self.owner, self.session, self.target])
    }
}
