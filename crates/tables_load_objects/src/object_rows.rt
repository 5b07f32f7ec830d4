//! The row of one object and its pieces, read.

ghost use Rattle.std.specs.Prelude.{◌≡◌, [], map};
ghost use Rattle.std.specs.Ordering.{eq_by_cmp};
ghost use Rattle.std.specs.FinMap as finite;
ghost use Rattle.tables_sql.specs.Contents.{texts_cmp};
ghost use Rattle.tables_rows.specs.Frames.{FindsInReads};
ghost use Rattle.tables_rows.specs.Entries.{piece_in};
ghost use Rattle.tables_load_objects.specs.Loading.{MayReadFrom};
ghost use Rattle.tables_load_objects.specs.Rows.{AreRowsAt, AreStored};

use crate::groups::group;
use crate::rows_ahead::object_at;
use crate::source::Source;
use sqlite::{Alter, Connection};
use std::alloc::Global;
use std::collections::VecDeque;
use tables_rows::objects::Object;
use tables_rows::pieces::Piece;
use tables_rows::{Find, pieces};
use tables_sql::failure::Failed;

/// The row of an object, and its pieces.
#[derive(Drop)]
pub(crate) struct ObjectRows {
    pub(crate) object: Object,
    pub(crate) pieces: Vec<Piece>,
}

/// The pieces of a path's archive, in order; none, where the schema has no table of them. Where none is listed, none is
/// looked for.
fn pieces_of<S: Alter>(
    alloc: Global,
    conn: &mut Connection<S>,
    source: &Source<'_>,
    base: &str,
) -> Result<Vec<Piece>, Failed>
    requires { MayReadFrom S.Store source.now [] conn.old }
    ensures { FindsInReads S.Store conn.old conn.new result (λ c all. map piece_in all.items
        ≡ finite.entries (finite.retain_keys c.pieces (λ k. eq_by_cmp texts_cmp k.0 base.now))) }
{
    if !source.schema.has_pieces() {
        return Ok(Vec::new(alloc));
    }
    if group(&source.joined.pieces, base).is_empty() {
        return Ok(Vec::new(alloc));
    }
    pieces::Of { base }.find(alloc, conn)
}

/// The row and the pieces of a path, if it is an object's. Some rows were read ahead.
pub(crate) fn rows_at<S: Alter>(
    alloc: Global,
    conn: &mut Connection<S>,
    source: &Source<'_>,
    ahead: &mut VecDeque<Object>,
    base: &str,
) -> Result<Option<ObjectRows>, Failed>
    requires { MayReadFrom S.Store source.now ahead.old.items conn.old }
    ensures { FindsInReads S.Store conn.old conn.new result
        (λ c o. AreRowsAt c base.now o × AreStored c ahead.new.items) }
{
    let Some(object) = object_at(alloc, conn, source, ahead, base)? else {
        return Ok(None);
    };
    let pieces = pieces_of(alloc, conn, source, base)?;
    Ok(Some(ObjectRows { object, pieces }))
}
