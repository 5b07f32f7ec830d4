//! Reading of archives.

ghost use Rattle.std.specs.Prelude.{◌≡◌, ◌++◌, IfOk, option_map};
ghost use Rattle.std.specs.List.{flat_map};
ghost use Rattle.std.specs.FinMap as finite;
ghost use Rattle.tables_schema.specs.Forms.{piece};
ghost use Rattle.tables_sql.specs.Calls.{HasFurther};
ghost use Rattle.tables_sql.specs.Contents.{contents_of};
ghost use Rattle.tables_rows.specs.Frames.{FindsInReads};
ghost use Rattle.tables_world.specs.Rows.{archive_in};
ghost use Rattle.tables_world.specs.Worlds.{rows_of};
ghost use Rattle.tables_writes.specs.Entries.{HoldsArchive};
ghost use Rattle.tables_writes.specs.Writes.{MayReadWith, ReadsTables};

use crate::tables::Tables;
use paths::StorePath;
use sqlite::{Alter, Connection};
use std::alloc::{AllocError, Global};
use streams::{PIECE_SIZE, Pieces};
use tables_rows::pieces::Piece;
use tables_rows::{Find, objects, pieces};
use tables_sql::failure::Failed;

/// Joins the part of an archive in the row with the later pieces, in their order, without a copy if each but the last
/// has 65,536 bytes.
fn joined(alloc: Global, row: Vec<u8>, further: Vec<Piece>) -> Result<Pieces, AllocError>
    ensures { IfOk result (λ nar. nar ≡ row.items ++ flat_map (λ p. p.bytes.items) further.items) }
{
    let mut nar = Pieces::new(alloc);
    nar.append(row)?;
    'further: for piece in further {
        nar.append(piece.bytes)?;
    }
    Ok(nar)
}

/// The archive of a path, or `None` if the path has no object. `size` is the size of the archive in bytes; the table of
/// pieces is read only for an archive larger than the object's row holds.
pub(crate) fn read_archive<S: Alter>(
    alloc: Global,
    conn: &mut Connection<S>,
    base: &str,
    size: usize,
) -> Result<Option<Pieces>, Failed>
    requires { MayReadWith S.Store conn.old
        (λ db. HasFurther db piece × HoldsArchive base.now size (contents_of db)) }
    ensures { FindsInReads S.Store conn.old conn.new result
        (λ c nar. nar ≡ option_map (archive_in (rows_of c) base.now) (finite.get c.objects base.now)) }
{
    let found = objects::get(alloc, conn, base)?;
    let Some(object) = found else {
        return Ok(None);
    };
    if size <= PIECE_SIZE {
        let nar = joined(alloc, object.nar, Vec::new(alloc))?;
        return Ok(Some(nar));
    }
    let further = pieces::Of { base }.find(alloc, conn)?;
    let nar = joined(alloc, object.nar, further)?;
    Ok(Some(nar))
}

impl<S: Alter> Tables<S> {
    /// The archive of a path, read from the disk, or `None` if the path isn't valid. Nothing changes.
    ///
    /// ```rust
    /// assert_eq!(rt; tables.archive(path)?.map(|nar| nar.len()), Some(128));
    /// ```
    ///
    /// # Errors
    ///
    /// Memory was refused or the disk failed.
    pub fn archive(&mut self, path: &StorePath) -> Result<Option<Pieces>, Failed>
        ensures { ReadsTables S.Store self.old self.new result
            (λ w nar. nar ≡ option_map (λ o. o.nar) (finite.get w.objects path.now)) }
    {
        let Some(object) = self.outline.object(path) else {
            return Ok(None);
        };
        let size = object.size();
        let found = read_archive(self.alloc, &mut self.connection, path.as_str(), size)?;
        Ok(found)
    }
}
