//! The generations of profiles.
#![tactic(auto, using(crate::proofs::GenerationLemmas::all_read))]

ghost use Rattle.std.specs.Prelude.{◌∷◌, [], ◌≡◌, ◌&&◌, map, pos, false};
ghost use Rattle.std.specs.FinMap as finite;
ghost use Rattle.sqlite_value.specs.declared.value.Value.TheVariants.{Int, Text};
ghost use Rattle.tables_schema.specs.Forms.{generation};
ghost use Rattle.tables_sql.specs.Contents.{Bytes, triple_cmp};
ghost use Rattle.tables_rows.specs.Entries.{generation_in, ShowsGeneration, IsGenerationRow};
ghost use Rattle.tables_rows.specs.Keys.{same, same_number, without_keys};
ghost use Rattle.std.specs.Ordering.{is_lt};

use crate::{Delete, Find, Found, Insert, queries};
use sqlite::{Alter, Connection, Transaction, params};
use std::alloc::Global;
use std::cmp::Ordering;
use tables_sql::entry::Entry;
use tables_sql::failure::Failed;
use tables_sql::statement;

/// A generation: its profile's owner and name, its number, and the base name of its target.
#[derive(Debug, Drop)]
pub struct Generation {
    pub owner: String,
    pub name: String,
    pub number: i64,
    pub target: String,
}

impl Entry for Generation {
    ghost is_shown = { ShowsGeneration };

    ghost is_legible = { IsGenerationRow };

    ghost is_below = { λ a b. is_lt (triple_cmp (generation_in a).0 (generation_in b).0) };

    fn read(row: &sqlite::Row) -> Result<Generation, Failed> {
        Ok(Generation {
            owner: row.get(0)?,
            name: row.get(1)?,
            number: row.get(2)?,
            target: row.get(3)?,
        })
    }

    fn is_below(&self, other: &Generation) -> bool {
        match self.owner.cmp(&other.owner) {
            Ordering::Less => true,
            Ordering::Equal => match self.name.cmp(&other.name) {
                Ordering::Less => true,
                Ordering::Equal => self.number < other.number,
                Ordering::Greater => false,
            },
            Ordering::Greater => false,
        }
    }
}

/// All generations, in order.
#[derive(Drop)]
pub struct All;

impl Find for All {
    type Entry = Generation;

    ghost shows = { λ it c all. map generation_in all ≡ finite.entries c.generations };

    fn find<S: Alter>(&self, alloc: Global, conn: &mut Connection<S>) -> Found<Generation> {
        let text = "SELECT owner, name, num, target FROM generation ORDER BY owner, name, num";
        queries::select(alloc, conn, text, &[])
    }
}

/// The row of one generation.
#[derive(Drop)]
pub struct Row<'a> {
    pub owner: &'a str,
    pub name: &'a str,
    pub number: u32,
    pub target: &'a str,
}

impl<'a> Insert for Row<'a> {
    ghost table = { generation };

    ghost columns = { λ it. Text it.owner.now ∷ Text it.name.now ∷ Int (pos it.number) ∷ Text it.target.now ∷ [] };

    ghost Kept = { Bytes };

    ghost present = { λ it c. finite.get c.generations (it.owner.now, it.name.now, pos it.number) };

    ghost change = { λ it c. record c {
      generations = finite.insert c.generations (it.owner.now, it.name.now, pos it.number) it.target.now;
    } };

    fn insert<S: Alter>(&self, tx: &mut Transaction<'_, S>) -> Result<(), Failed> {
        // A text is UTF-8.
        let _owner = self.owner.as_bytes();
        let _name = self.name.as_bytes();
        let _target = self.target.as_bytes();
        let text = "INSERT INTO generation (owner, name, num, target) VALUES (?1, ?2, ?3, ?4)";
        statement::add(
            tx,
            text,
            params![self.owner, self.name, self.number, self.target],
        )
    }
}

/// The generation of this owner, this name and this number.
#[derive(Drop)]
pub struct At<'a> {
    pub owner: &'a str,
    pub name: &'a str,
    pub number: u32,
}

impl<'a> Delete for At<'a> {
    ghost change = { λ it c. record c {
      generations = without_keys c.generations
          (λ k. same k.0 it.owner.now && (same k.1 it.name.now && same_number k.2 (pos it.number)));
    } };

    fn delete<S: Alter>(&self, tx: &mut Transaction<'_, S>) -> Result<(), Failed> {
        let text = "DELETE FROM generation WHERE owner = ?1 AND name = ?2 AND num = ?3";
        statement::remove(tx, text, params![self.owner, self.name, self.number])
    }
}
