//! Archives, cut: an object's row keeps the first part, and the rest goes into pieces.

ghost use Rattle.std.specs.Prelude.{◌<◌, length, map, string_bytes};
ghost use Rattle.sqlite.specs.Held.{state};
ghost use Rattle.tables_schema.specs.Forms.{piece};
ghost use Rattle.tables_sql.specs.Calls.{HasFurther};
ghost use Rattle.tables_sql.specs.Contents.{contents_of};
ghost use Rattle.tables_rows.specs.Entries.{stored_of};
ghost use Rattle.tables_world.specs.Pieces.{pieces_by};
ghost use Rattle.tables_make.specs.Cutting.{put_pieces, cut_row, cut_object, cut_objects};
ghost use Rattle.tables_rows.specs.ObjectRows.{PieceRow};
ghost use Rattle.tables_make.specs.Migrating.{CutRows, CutRowsAt, HasNoPieces, HasUncut, IsUncut, LongRows};
ghost use Rattle.tables_rows.specs.Reasons.{RowsOf};
ghost use Rattle.tables_rows.specs.Frames.{MayCut, IsInsideWith, Writes};

use sqlite::{Alter, Transaction};
use std::alloc::Global;
use streams::PIECE_SIZE;
use tables_rows::objects::Object;
use tables_rows::{Delete, Insert, objects, pieces};
use tables_sql::failure::Failed;

/// Adds the pieces of what is left of an archive, numbered from 1.
pub(crate) fn put_pieces<S: Alter>(
    tx: &mut Transaction<'_, S>,
    base: &str,
    bytes: &[u8],
) -> Result<(), Failed>
    requires { MayCut S.Store tx.old.conn (HasNoPieces base.now) }
    ensures { Writes S.Store tx.old.conn tx.new.conn result
        (λ c. record c { pieces = put_pieces base.now (pieces_by bytes.now 1 bytes.now) c.pieces })
        (RowsOf (PieceRow base.now) (pieces_by bytes.now 1 bytes.now)) }
{
    let mut rest = bytes;
    'pieces: for number in 1..u32::MAX {
        if rest.is_empty() {
            return Ok(());
        }
        let (front, after) = rest.split_at(PIECE_SIZE.min(rest.len()));
        pieces::Row {
            base,
            number,
            bytes: front,
        }
        .insert(tx)?;
        rest = after;
    }
    // No memory holds that many.
    Err(Failed::Memory)
}

/// Puts an object again whose archive is longer than a row takes: its first part, and the pieces of the rest.
pub(crate) fn put_cut<S: Alter>(tx: &mut Transaction<'_, S>, object: &Object) -> Result<(), Failed>
    requires frame { MayCut S.Store tx.old.conn (HasNoPieces (stored_of object.now).0) }
    requires long { 65536 < length object.now.nar.items }
    ensures { let it = stored_of object.now in
        Writes S.Store tx.old.conn tx.new.conn result (cut_row it.0 it.1) (CutRows it.0 it.1) }
{
    let base = object.base.as_str();
    let (first, rest) = object.nar.split_at(PIECE_SIZE);
    objects::Of { base }.delete(tx)?;
    objects::Row {
        base,
        nar: first,
        hash: &object.hash,
        deriver: &object.deriver,
        ca: &object.ca,
    }
    .insert(tx)?;
    put_pieces(tx, base, rest)
}

/// Cuts the archive of an object that is there, if it is longer than a row takes.
pub(crate) fn cut_found<S: Alter>(
    tx: &mut Transaction<'_, S>,
    object: &Object,
) -> Result<(), Failed>
    requires { MayCut S.Store tx.old.conn (HasUncut (stored_of object.now).0 (stored_of object.now).1) }
    ensures { let it = stored_of object.now in
        Writes S.Store tx.old.conn tx.new.conn result (cut_object it.0) (LongRows it.0 it.1) }
{
    if object.nar.len() > PIECE_SIZE {
        put_cut(tx, object)
    } else {
        Ok(())
    }
}

/// Cuts the archive of one object, if it is there. The archive is read for that.
pub(crate) fn cut<S: Alter>(
    alloc: Global,
    tx: &mut Transaction<'_, S>,
    base: &str,
) -> Result<(), Failed>
    requires { IsInsideWith S.Store tx.old.conn (λ db. HasFurther db piece × IsUncut (contents_of db)) }
    ensures { Writes S.Store tx.old.conn tx.new.conn result (cut_object base.now)
        (CutRowsAt (contents_of (state S.Store tx.old.conn.now).now) base.now) }
{
    let found = objects::get_within(alloc, tx, base)?;
    match found {
        Some(object) => cut_found(tx, &object),
        None => Ok(()),
    }
}

/// Cuts the archives of some objects, one after another.
pub(crate) fn cut_all<S: Alter>(
    alloc: Global,
    tx: &mut Transaction<'_, S>,
    bases: &[String],
) -> Result<(), Failed>
    requires { MayCut S.Store tx.old.conn IsUncut }
    ensures { Writes S.Store tx.old.conn tx.new.conn result (cut_objects (map string_bytes bases.now))
        (RowsOf (CutRowsAt (contents_of (state S.Store tx.old.conn.now).now)) (map string_bytes bases.now)) }
{
    'bases: for base in bases {
        cut(alloc, tx, base.as_str())?;
    }
    Ok(())
}
