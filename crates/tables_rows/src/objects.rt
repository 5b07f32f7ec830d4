//! The objects, with their archives.
#![tactic(auto, using(crate::proofs::ListingLemmas::keys_read, crate::proofs::ObjectLemmas::of_read, crate::proofs::Ranges::reads))]

ghost use Rattle.std.specs.Prelude.{◌∷◌, [], ◌≡◌, map, string_bytes};
ghost use Rattle.std.specs.FinMap as finite;
ghost use Rattle.sqlite_value.specs.declared.value.Value.TheVariants.{Text, Blob};
ghost use Rattle.tables_schema.specs.Forms.{object};
ghost use Rattle.tables_sql.specs.Contents.{Stored, texts_cmp};
ghost use Rattle.tables_rows.specs.Entries.{text_or_null, stored_of, IsStored, stored, ShowsObject, IsObjectRow};
ghost use Rattle.tables_rows.specs.Frames.{MayRead, Finds};
ghost use Rattle.tables_rows.specs.Keys.{same, with_keys, without_keys};
ghost use Rattle.tables_rows.specs.Ranges.{is_between};
ghost use Rattle.std.specs.Ordering.{is_lt};

pub use crate::object_within::get_within;
use crate::{Delete, Find, Found, Insert, queries};
use sqlite::{Alter, Connection, Transaction, params};
use std::alloc::Global;
use tables_sql::entry::Entry;
use tables_sql::failure::Failed;
use tables_sql::statement;

/// An object: the base name of its path, its archive, the archive's SHA-256, and its deriver and content address where
/// it has one.
#[derive(Debug, Drop)]
pub struct Object {
    pub base: String,
    pub nar: Vec<u8>,
    pub hash: Vec<u8>,
    pub deriver: Option<String>,
    pub ca: Option<String>,
}

impl Entry for Object {
    ghost is_shown = { ShowsObject };

    ghost is_legible = { IsObjectRow };

    ghost is_below = { λ a b. is_lt (texts_cmp (stored_of a).0 (stored_of b).0) };

    fn read(row: &sqlite::Row) -> Result<Object, Failed> {
        Ok(Object {
            base: row.get(0)?,
            nar: row.get(1)?,
            hash: row.get(2)?,
            deriver: row.get(3)?,
            ca: row.get(4)?,
        })
    }

    fn is_below(&self, other: &Object) -> bool {
        self.base < other.base
    }
}

/// The bases of all objects, in order. It copies no archive.
#[derive(Drop)]
pub struct Keys;

impl Find for Keys {
    type Entry = String;

    ghost shows = { λ it c all. map string_bytes all ≡ finite.keys c.objects };

    fn find<S: Alter>(&self, alloc: Global, conn: &mut Connection<S>) -> Found<String> {
        queries::select(alloc, conn, "SELECT base FROM object ORDER BY base", &[])
    }
}

/// The object of this base, if there is one, as a list of at most one.
#[derive(Drop)]
pub struct Of<'a> {
    pub base: &'a str,
}

impl<'a> Find for Of<'a> {
    type Entry = Object;

    ghost shows = { λ it c all. map stored_of all ≡ finite.entries (with_keys c.objects (λ k. same k it.base.now)) };

    fn find<S: Alter>(&self, alloc: Global, conn: &mut Connection<S>) -> Found<Object> {
        let text = "SELECT base, nar, hash, deriver, ca FROM object WHERE base = ?1 ORDER BY base";
        queries::select(alloc, conn, text, params![self.base])
    }
}

impl<'a> Delete for Of<'a> {
    ghost change = { λ it c. record c { objects = without_keys c.objects (λ k. same k it.base.now) } };

    fn delete<S: Alter>(&self, tx: &mut Transaction<'_, S>) -> Result<(), Failed> {
        statement::remove(tx, "DELETE FROM object WHERE base = ?1", params![self.base])
    }
}

/// The object of this base, if there is one.
pub fn get<S: Alter>(
    alloc: Global,
    conn: &mut Connection<S>,
    base: &str,
) -> Result<Option<Object>, Failed>
    requires frame { MayRead S.Store conn.old }
    ensures { Finds S.Store conn.old conn.new result
        (λ c o. IsStored c.objects base.now o) }
{
    let mut found = Of { base }.find(alloc, conn)?;
    Ok(found.pop())
}

/// The objects of the bases from the first to the last, both of them included, in order.
#[derive(Drop)]
pub struct Between<'a> {
    pub first: &'a str,
    pub last: &'a str,
}

impl<'a> Find for Between<'a> {
    type Entry = Object;

    ghost shows = { λ it c all. map stored_of all
        ≡ finite.entries (with_keys c.objects (is_between it.first.now it.last.now)) };

    fn find<S: Alter>(&self, alloc: Global, conn: &mut Connection<S>) -> Found<Object> {
        let text =
            "SELECT base, nar, hash, deriver, ca FROM object WHERE base >= ?1 AND base <= ?2 ORDER BY base";
        queries::select(alloc, conn, text, params![self.first, self.last])
    }
}

/// The row of one object.
#[derive(Drop)]
pub struct Row<'a> {
    pub base: &'a str,
    pub nar: &'a [u8],
    pub hash: &'a [u8],
    pub deriver: &'a Option<String>,
    pub ca: &'a Option<String>,
}

impl<'a> Insert for Row<'a> {
    ghost table = { object };

    ghost columns = { λ it.
        Text it.base.now ∷ Blob it.nar.now ∷ Blob it.hash.now ∷ text_or_null it.deriver.now
        ∷ text_or_null it.ca.now ∷ [] };

    ghost Kept = { Stored };

    ghost present = { λ it c. finite.get c.objects it.base.now };

    ghost change = { λ it c. record c {
      objects = finite.insert c.objects it.base.now (stored it.nar.now it.hash.now it.deriver.now it.ca.now);
    } };

    fn insert<S: Alter>(&self, tx: &mut Transaction<'_, S>) -> Result<(), Failed> {
        // A text is UTF-8.
        let _base = self.base.as_bytes();
        let text = "INSERT INTO object (base, nar, hash, deriver, ca) VALUES (?1, ?2, ?3, ?4, ?5)";
        statement::add(
            tx,
            text,
            params![self.base, self.nar, self.hash, self.deriver, self.ca],
        )
    }
}
