//! The pieces of archives, where there is a table of them.
#![tactic(auto, using(crate::proofs::PieceKeyLemmas::keys_read, crate::proofs::PieceLemmas::of_read))]

ghost use Rattle.std.specs.Prelude.{◌∷◌, [], ◌≡◌, map, pos, false};
ghost use Rattle.std.specs.FinMap as finite;
ghost use Rattle.sqlite_value.specs.declared.value.Value.TheVariants.{Int, Text, Blob};
ghost use Rattle.tables_schema.specs.Forms.{piece};
ghost use Rattle.tables_sql.specs.Calls.{HasFurther};
ghost use Rattle.tables_sql.specs.Contents.{Bytes, numbered_cmp};
ghost use Rattle.tables_rows.specs.Entries.{piece_in, numbered_in, ShowsPiece, IsPieceRow, ShowsPieceKey};
ghost use Rattle.tables_rows.specs.Entries.{IsPieceKeyRow};
ghost use Rattle.tables_rows.specs.Keys.{same, with_keys, without_keys};
ghost use Rattle.std.specs.Ordering.{is_lt};

use crate::{Delete, Find, Found, Insert, queries};
use sqlite::{Alter, Connection, Transaction, params};
use std::alloc::Global;
use std::cmp::Ordering;
use tables_sql::entry::Entry;
use tables_sql::failure::Failed;
use tables_sql::statement;

/// A piece of an archive: the base name of the object's path, the piece's number, and its bytes.
#[derive(Debug, Drop)]
pub struct Piece {
    pub base: String,
    pub number: i64,
    pub bytes: Vec<u8>,
}

impl Entry for Piece {
    ghost is_shown = { ShowsPiece };

    ghost is_legible = { IsPieceRow };

    ghost is_below = { λ a b. is_lt (numbered_cmp (piece_in a).0 (piece_in b).0) };

    fn read(row: &sqlite::Row) -> Result<Piece, Failed> {
        Ok(Piece {
            base: row.get(0)?,
            number: row.get(1)?,
            bytes: row.get(2)?,
        })
    }

    fn is_below(&self, other: &Piece) -> bool {
        match self.base.cmp(&other.base) {
            Ordering::Less => true,
            Ordering::Equal => self.number < other.number,
            Ordering::Greater => false,
        }
    }
}

/// The key of a piece: the base name of the object's path, and the piece's number.
#[derive(Debug, Drop)]
pub struct PieceKey {
    pub base: String,
    pub number: i64,
}

impl Entry for PieceKey {
    ghost is_shown = { ShowsPieceKey };

    ghost is_legible = { IsPieceKeyRow };

    ghost is_below = { λ a b. is_lt (numbered_cmp (numbered_in a) (numbered_in b)) };

    fn read(row: &sqlite::Row) -> Result<PieceKey, Failed> {
        Ok(PieceKey {
            base: row.get(0)?,
            number: row.get(1)?,
        })
    }

    fn is_below(&self, other: &PieceKey) -> bool {
        match self.base.cmp(&other.base) {
            Ordering::Less => true,
            Ordering::Equal => self.number < other.number,
            Ordering::Greater => false,
        }
    }
}

/// The keys of all pieces, in the order of their bases and then of their numbers, without the pieces' bytes.
#[derive(Drop)]
pub struct Keys;

impl Find for Keys {
    type Entry = PieceKey;

    ghost needs = { λ db. HasFurther db piece };

    ghost shows = { λ it c all. map numbered_in all ≡ finite.keys c.pieces };

    fn find<S: Alter>(&self, alloc: Global, conn: &mut Connection<S>) -> Found<PieceKey> {
        let text = "SELECT base, num FROM piece ORDER BY base, num";
        queries::select(alloc, conn, text, &[])
    }
}

/// The pieces of this base, in the order of their numbers.
#[derive(Drop)]
pub struct Of<'a> {
    pub base: &'a str,
}

impl<'a> Find for Of<'a> {
    type Entry = Piece;

    ghost needs = { λ db. HasFurther db piece };

    ghost shows = { λ it c all. map piece_in all ≡ finite.entries (with_keys c.pieces (λ k. same k.0 it.base.now)) };

    fn find<S: Alter>(&self, alloc: Global, conn: &mut Connection<S>) -> Found<Piece> {
        let text = "SELECT base, num, bytes FROM piece WHERE base = ?1 ORDER BY base, num";
        queries::select(alloc, conn, text, params![self.base])
    }
}

impl<'a> Delete for Of<'a> {
    ghost needs = { λ db. HasFurther db piece };

    ghost change = { λ it c. record c { pieces = without_keys c.pieces (λ k. same k.0 it.base.now) } };

    fn delete<S: Alter>(&self, tx: &mut Transaction<'_, S>) -> Result<(), Failed> {
        statement::remove(tx, "DELETE FROM piece WHERE base = ?1", params![self.base])
    }
}

/// The row of one piece.
#[derive(Drop)]
pub struct Row<'a> {
    pub base: &'a str,
    pub number: u32,
    pub bytes: &'a [u8],
}

impl<'a> Insert for Row<'a> {
    ghost needs = { λ db. HasFurther db piece };

    ghost table = { piece };

    ghost columns = { λ it. Text it.base.now ∷ Int (pos it.number) ∷ Blob it.bytes.now ∷ [] };

    ghost Kept = { Bytes };

    ghost present = { λ it c. finite.get c.pieces (it.base.now, pos it.number) };

    ghost change = { λ it c. record c { pieces = finite.insert c.pieces (it.base.now, pos it.number) it.bytes.now } };

    fn insert<S: Alter>(&self, tx: &mut Transaction<'_, S>) -> Result<(), Failed> {
        // A text is UTF-8.
        let _base = self.base.as_bytes();
        let text = "INSERT INTO piece (base, num, bytes) VALUES (?1, ?2, ?3)";
        statement::add(tx, text, params![self.base, self.number, self.bytes])
    }
}
