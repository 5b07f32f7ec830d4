//! The roots of users.
#![tactic(auto, using(crate::proofs::UserRootLemmas::all_read))]

ghost use Rattle.std.specs.Prelude.{◌∷◌, [], ◌≡◌, ◌&&◌, map, false};
ghost use Rattle.std.specs.FinMap as finite;
ghost use Rattle.sqlite_value.specs.declared.value.Value.TheVariants.{Text};
ghost use Rattle.tables_schema.specs.Forms.{user_root};
ghost use Rattle.tables_sql.specs.Contents.{Bytes, pair_cmp};
ghost use Rattle.tables_rows.specs.Entries.{user_root_of, ShowsUserRoot, IsTripleRow};
ghost use Rattle.tables_rows.specs.Keys.{same, without_keys};
ghost use Rattle.std.specs.Ordering.{is_lt};

use crate::{Delete, Find, Found, Insert, queries};
use sqlite::{Alter, Connection, Transaction, params};
use std::alloc::Global;
use std::cmp::Ordering;
use tables_sql::entry::Entry;
use tables_sql::failure::Failed;
use tables_sql::statement;

/// A root of a user: its owner, its name, and the base name of its target.
#[derive(Debug, Drop)]
pub struct UserRoot {
    pub owner: String,
    pub name: String,
    pub target: String,
}

impl Entry for UserRoot {
    ghost is_shown = { ShowsUserRoot };

    ghost is_legible = { IsTripleRow };

    ghost is_below = { λ a b. is_lt (pair_cmp (user_root_of a).0 (user_root_of b).0) };

    fn read(row: &sqlite::Row) -> Result<UserRoot, Failed> {
        Ok(UserRoot {
            owner: row.get(0)?,
            name: row.get(1)?,
            target: row.get(2)?,
        })
    }

    fn is_below(&self, other: &UserRoot) -> bool {
        match self.owner.cmp(&other.owner) {
            Ordering::Less => true,
            Ordering::Equal => self.name < other.name,
            Ordering::Greater => false,
        }
    }
}

/// All user roots, in order.
#[derive(Drop)]
pub struct All;

impl Find for All {
    type Entry = UserRoot;

    ghost shows = { λ it c all. map user_root_of all ≡ finite.entries c.user_roots };

    fn find<S: Alter>(&self, alloc: Global, conn: &mut Connection<S>) -> Found<UserRoot> {
        let text = "SELECT owner, name, target FROM user_root ORDER BY owner, name";
        queries::select(alloc, conn, text, &[])
    }
}

/// The user root of this owner and this name.
#[derive(Drop)]
pub struct At<'a> {
    pub owner: &'a str,
    pub name: &'a str,
}

impl<'a> Delete for At<'a> {
    ghost change = { λ it c. record c {
      user_roots = without_keys c.user_roots (λ k. same k.0 it.owner.now && same k.1 it.name.now);
    } };

    fn delete<S: Alter>(&self, tx: &mut Transaction<'_, S>) -> Result<(), Failed> {
        let text = "DELETE FROM user_root WHERE owner = ?1 AND name = ?2";
        statement::remove(tx, text, params![self.owner, self.name])
    }
}

/// The row of one user root.
#[derive(Drop)]
pub struct Row<'a> {
    pub owner: &'a str,
    pub name: &'a str,
    pub target: &'a str,
}

impl<'a> Insert for Row<'a> {
    ghost table = { user_root };

    ghost columns = { λ it. Text it.owner.now ∷ Text it.name.now ∷ Text it.target.now ∷ [] };

    ghost Kept = { Bytes };

    ghost present = { λ it c. finite.get c.user_roots (it.owner.now, it.name.now) };

    ghost change = { λ it c. record c {
      user_roots = finite.insert c.user_roots (it.owner.now, it.name.now) it.target.now;
    } };

    fn insert<S: Alter>(&self, tx: &mut Transaction<'_, S>) -> Result<(), Failed> {
        // A text is UTF-8.
        let _owner = self.owner.as_bytes();
        let _name = self.name.as_bytes();
        let _target = self.target.as_bytes();
        let text = "INSERT INTO user_root (owner, name, target) VALUES (?1, ?2, ?3)";
        statement::add(tx, text, params![self.owner, self.name, self.target])
    }
}
