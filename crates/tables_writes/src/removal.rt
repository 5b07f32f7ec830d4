//! Removal of objects, from the rows and from the outline. No statement runs for rows of references, outputs or pieces
//! that an object doesn't have by the outline.

ghost use Rattle.std.specs.Prelude.{◌<◌, ℕ, ℤ, List, IsTrue, not};
ghost use Rattle.std.specs.FinMap as finite;
ghost use Rattle.tables_schema.specs.Forms.{piece};
ghost use Rattle.tables_sql.specs.Calls.{HasFurther};
ghost use Rattle.tables_sql.specs.Contents.{contents_of};
ghost use Rattle.tables_world.specs.Pieces.{piece_size};
ghost use Rattle.tables_rows.specs.Reasons.{HasReason, NoRow};
ghost use Rattle.tables_rows.specs.Frames.{IsInsideWith, MayCut, Writes};
ghost use Rattle.tables_writes.specs.Writes.{IsOpenInside, CommitsRows, MayCommit, StaysSound, ChangesTables};
ghost use Rattle.tables_writes.specs.Rewritten.{Covers, without_object, without_objects};
ghost use Rattle.live.specs.Graph.{holds, same};
ghost use Rattle.model.specs.Effects.{keeping};

use crate::change;
use crate::change::Change;
use crate::tables::Tables;
use paths::StorePath;
use sqlite::{Alter, Connection, Transaction};
use std::alloc::Global;
use streams::PIECE_SIZE;
use tables_outline::{Outline, Summary};
use tables_rows::{Delete, objects, outputs, pieces, references};
use tables_sql::failure::Failed;

/// Deletes the rows of an object's references, if it has any.
fn delete_references<S: Alter>(
    tx: &mut Transaction<'_, S>,
    base: &str,
    object: &Summary,
) -> Result<(), Failed>
    requires { IsOpenInside S.Store tx.old.conn
        (λ c. (r : List ℕ) → IsTrue (finite.contains_key c.refs (base.now, r))
        → IsTrue (finite.contains_key object.now.references r)) }
    ensures { Writes S.Store tx.old.conn tx.new.conn result
        (λ c. record c { refs = finite.retain_keys c.refs (λ k. not (same k.0 base.now)) })
        NoRow }
{
    if object.references().is_empty() {
        return Ok(());
    }
    references::Of { base }.delete(tx)
}

/// Deletes the rows of an object's outputs, if it has any.
fn delete_outputs<S: Alter>(
    tx: &mut Transaction<'_, S>,
    base: &str,
    object: &Summary,
) -> Result<(), Failed>
    requires { IsOpenInside S.Store tx.old.conn
        (λ c. (name : List ℕ) → IsTrue (finite.contains_key c.outs (base.now, name))
        → IsTrue (finite.contains_key object.now.outputs name)) }
    ensures { Writes S.Store tx.old.conn tx.new.conn result
        (λ c. record c { outs = finite.retain_keys c.outs (λ k. not (same k.0 base.now)) })
        NoRow }
{
    if object.outputs().is_empty() {
        return Ok(());
    }
    outputs::Of { base }.delete(tx)
}

/// Deletes the rows of an archive's further pieces, if the object's row doesn't hold the whole archive.
fn delete_pieces<S: Alter>(
    tx: &mut Transaction<'_, S>,
    base: &str,
    object: &Summary,
) -> Result<(), Failed>
    requires { MayCut S.Store tx.old.conn
        (λ c. (n : ℤ) → IsTrue (finite.contains_key c.pieces (base.now, n)) → piece_size < object.now.size) }
    ensures { Writes S.Store tx.old.conn tx.new.conn result
        (λ c. record c { pieces = finite.retain_keys c.pieces (λ k. not (same k.0 base.now)) })
        NoRow }
{
    if object.size() <= PIECE_SIZE {
        return Ok(());
    }
    pieces::Of { base }.delete(tx)
}

/// Deletes the rows of one object, if it exists: its own, and those of its references, outputs and pieces by the
/// outline.
fn delete_object<S: Alter>(
    tx: &mut Transaction<'_, S>,
    outline: &Outline,
    path: &StorePath,
) -> Result<(), Failed>
    requires { IsInsideWith S.Store tx.old.conn
        (λ db. HasFurther db piece × Covers outline.now (contents_of db)) }
    ensures { Writes S.Store tx.old.conn tx.new.conn result (λ c. without_object path.now c) NoRow }
{
    let base = path.as_str();
    objects::Of { base }.delete(tx)?;
    let Some(object) = outline.object(path) else {
        return Ok(());
    };
    delete_references(tx, base, object)?;
    delete_outputs(tx, base, object)?;
    delete_pieces(tx, base, object)
}

/// Deletes the rows of some objects.
fn delete_objects<S: Alter>(
    tx: &mut Transaction<'_, S>,
    outline: &Outline,
    paths: &[StorePath],
) -> Result<(), Failed>
    requires { MayCut S.Store tx.old.conn (Covers outline.now) }
    ensures { Writes S.Store tx.old.conn tx.new.conn result (λ c. without_objects paths.now c) NoRow }
{
    'paths: for path in paths {
        delete_object(tx, outline, path)?;
    }
    Ok(())
}

/// The change that removes some objects, those that exist. `outline` is that of the rows before the change.
#[derive(Drop)]
pub(crate) struct RemoveObjects<'a> {
    pub(crate) alloc: Global,
    pub(crate) outline: &'a Outline,
    pub(crate) paths: &'a [StorePath],
}

impl<'a> Change for RemoveObjects<'a> {
    ghost change = { λ o c. without_objects o.paths.now c };

    ghost fits = { λ o c. Covers o.outline.now c };

    ghost rows = { λ o. NoRow };

    fn write<S: Alter>(&self, tx: &mut Transaction<'_, S>) -> Result<(), Failed> {
        // Without a query, deleting no paths would succeed on a shut connection.
        let _none = objects::get_within(self.alloc, tx, "")?;
        delete_objects(tx, self.outline, self.paths)
    }
}

/// Deletes the rows of some objects in one transaction. `outline` is that of the rows before the change.
pub(crate) fn delete_rows<S: Alter>(
    alloc: Global,
    conn: &mut Connection<S>,
    outline: &Outline,
    paths: &[StorePath],
) -> Result<(), Failed>
    requires { MayCommit S.Store conn.old (Covers outline.now) }
    ensures frame { CommitsRows S.Store conn.old conn.new result (without_objects paths.now) }
    ensures cause { HasReason S.Store conn.old conn.new result NoRow }
{
    let change = RemoveObjects {
        alloc,
        outline,
        paths,
    };
    change::commit(conn, &change)
}

impl<S: Alter> Tables<S> {
    /// Removes the objects of these paths, those that exist. The caller ensures that the world is sound afterwards: no
    /// object that stays refers to a removed one, and no root points to one.
    ///
    /// ```rust
    /// let paths = [path.clone()?];
    /// tables.remove_objects(&paths)?;
    /// assert!(rt; !tables.outline().has(path));
    /// ```
    ///
    /// # Errors
    ///
    /// Memory was refused or the disk failed, and then nothing has changed.
    pub fn remove_objects(&mut self, paths: &[StorePath]) -> Result<(), Failed>
        requires sound { StaysSound S.Store self.old (λ w. keeping w (λ p. not (holds paths.now p))) }
        ensures { ChangesTables S.Store self.old self.new result (λ w. keeping w (λ p. not (holds paths.now p))) NoRow }
    {
        delete_rows(self.alloc, &mut self.connection, &self.outline, paths)?;
        self.outline.remove_objects(paths);
        Ok(())
    }
}
