//! The profiles, each with the number of its current generation.
#![tactic(auto, using(crate::proofs::ProfileLemmas::all_read))]

ghost use Rattle.std.specs.Prelude.{◌∷◌, [], ◌≡◌, ◌&&◌, map, pos, ℤ, false};
ghost use Rattle.std.specs.FinMap as finite;
ghost use Rattle.sqlite_value.specs.declared.value.Value.TheVariants.{Int, Text};
ghost use Rattle.tables_schema.specs.Forms.{profile};
ghost use Rattle.tables_rows.specs.Entries.{current_of, ShowsProfile, IsProfileRow};
ghost use Rattle.tables_rows.specs.Keys.{same, without_keys};
ghost use Rattle.std.specs.Ordering.{is_lt};
ghost use Rattle.tables_sql.specs.Contents.{pair_cmp};

use crate::{Delete, Find, Found, Insert, queries};
use sqlite::{Alter, Connection, Transaction, params};
use std::alloc::Global;
use std::cmp::Ordering;
use tables_sql::entry::Entry;
use tables_sql::failure::Failed;
use tables_sql::statement;

/// A profile: its owner, its name, and the number of its current generation.
#[derive(Debug, Drop)]
pub struct Profile {
    pub owner: String,
    pub name: String,
    pub current: i64,
}

impl Entry for Profile {
    ghost is_shown = { ShowsProfile };

    ghost is_legible = { IsProfileRow };

    ghost is_below = { λ a b. is_lt (pair_cmp (current_of a).0 (current_of b).0) };

    fn read(row: &sqlite::Row) -> Result<Profile, Failed> {
        Ok(Profile {
            owner: row.get(0)?,
            name: row.get(1)?,
            current: row.get(2)?,
        })
    }

    fn is_below(&self, other: &Profile) -> bool {
        match self.owner.cmp(&other.owner) {
            Ordering::Less => true,
            Ordering::Equal => self.name < other.name,
            Ordering::Greater => false,
        }
    }
}

/// All profiles, in order.
#[derive(Drop)]
pub struct All;

impl Find for All {
    type Entry = Profile;

    ghost shows = { λ it c all. map current_of all ≡ finite.entries c.profiles };

    fn find<S: Alter>(&self, alloc: Global, conn: &mut Connection<S>) -> Found<Profile> {
        let text = "SELECT owner, name, cur FROM profile ORDER BY owner, name";
        queries::select(alloc, conn, text, &[])
    }
}

/// The profile of this owner and this name.
#[derive(Drop)]
pub struct At<'a> {
    pub owner: &'a str,
    pub name: &'a str,
}

impl<'a> Delete for At<'a> {
    ghost change = { λ it c. record c {
      profiles = without_keys c.profiles (λ k. same k.0 it.owner.now && same k.1 it.name.now);
    } };

    fn delete<S: Alter>(&self, tx: &mut Transaction<'_, S>) -> Result<(), Failed> {
        let text = "DELETE FROM profile WHERE owner = ?1 AND name = ?2";
        statement::remove(tx, text, params![self.owner, self.name])
    }
}

/// The row of one profile.
#[derive(Drop)]
pub struct Row<'a> {
    pub owner: &'a str,
    pub name: &'a str,
    pub current: u32,
}

impl<'a> Insert for Row<'a> {
    ghost table = { profile };

    ghost columns = { λ it. Text it.owner.now ∷ Text it.name.now ∷ Int (pos it.current) ∷ [] };

    ghost Kept = { ℤ };

    ghost present = { λ it c. finite.get c.profiles (it.owner.now, it.name.now) };

    ghost change = { λ it c. record c {
      profiles = finite.insert c.profiles (it.owner.now, it.name.now) (pos it.current);
    } };

    fn insert<S: Alter>(&self, tx: &mut Transaction<'_, S>) -> Result<(), Failed> {
        // A text is UTF-8.
        let _owner = self.owner.as_bytes();
        let _name = self.name.as_bytes();
        let text = "INSERT INTO profile (owner, name, cur) VALUES (?1, ?2, ?3)";
        statement::add(tx, text, params![self.owner, self.name, self.current])
    }
}
