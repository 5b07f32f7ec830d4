//! All rows of references and outputs, and which pieces there are: read once, and tested against the objects of the
//! outline.

ghost use Rattle.std.specs.Prelude.{◌≡◌, ◌&&◌, IsTrue, IfOk, map};
ghost use Rattle.std.specs.List.{list_all};
ghost use Rattle.std.specs.FinMap as finite;
ghost use Rattle.sqlite.specs.State.{HasCleanDisk};
ghost use Rattle.sqlite.specs.Held.{state};
ghost use Rattle.tables_rows.specs.Frames.{FindsInReads};
ghost use Rattle.tables_rows.specs.Entries.{numbered_in, output_of, reference_of};
ghost use Rattle.tables_load_objects.specs.Rows.{AreJoined};
ghost use Rattle.tables_load_objects.specs.Loaded.{is_output, is_owned, is_reference};
ghost use Rattle.tables_load_objects.specs.Loading.{MayReadBy};

use crate::members::{Paths, are_outputs, are_owned, are_references};
use sqlite::{Alter, Connection};
use std::alloc::{AllocError, Global};
use tables_outline::Outline;
use tables_rows::outputs::Output;
use tables_rows::pieces::PieceKey;
use tables_rows::references::Reference;
use tables_rows::{Find, outputs, pieces, references};
use tables_schema::Schema;
use tables_sql::failure::Failed;

/// All references and outputs, and which pieces there are, each in order.
#[derive(Drop)]
pub(crate) struct Joined {
    pub(crate) references: Vec<Reference>,
    pub(crate) outputs: Vec<Output>,
    pub(crate) pieces: Vec<PieceKey>,
}

/// The pieces of all objects; none, where the schema has no table of them.
fn keys_of<S: Alter>(
    alloc: Global,
    conn: &mut Connection<S>,
    schema: Schema,
) -> Result<Vec<PieceKey>, Failed>
    requires tables { MayReadBy S.Store schema conn.old }
    requires opened { HasCleanDisk (state S.Store conn.old) → IsTrue (state S.Store conn.old).is_open }
    ensures { FindsInReads S.Store conn.old conn.new result
        (λ c all. map numbered_in all.items ≡ finite.keys c.pieces) }
{
    if !schema.has_pieces() {
        return Ok(Vec::new(alloc));
    }
    pieces::Keys.find(alloc, conn)
}

/// All references and outputs, and which pieces there are.
pub(crate) fn read_joined<S: Alter>(
    alloc: Global,
    conn: &mut Connection<S>,
    schema: Schema,
) -> Result<Joined, Failed>
    requires { MayReadBy S.Store schema conn.old }
    ensures { FindsInReads S.Store conn.old conn.new result AreJoined }
{
    let references = references::All.find(alloc, conn)?;
    let outputs = outputs::All.find(alloc, conn)?;
    let pieces = keys_of(alloc, conn, schema)?;
    Ok(Joined {
        references,
        outputs,
        pieces,
    })
}

/// Whether each reference, each output and each piece belongs to an object, and each reference leads to one.
pub(crate) fn are_joined(
    alloc: Global,
    outline: &Outline,
    joined: &Joined,
) -> Result<bool, AllocError>
    ensures { IfOk result
        (λ ok. ok ≡ ((list_all (is_reference outline.now.objects) (map reference_of joined.now.references.items)
        && list_all (is_output outline.now.objects) (map output_of joined.now.outputs.items))
        && list_all (is_owned outline.now.objects) (map numbered_in joined.now.pieces.items))) }
{
    let paths = Paths::of(alloc, outline)?;
    if !are_references(&paths, &joined.references) {
        return Ok(false);
    }
    if !are_outputs(&paths, &joined.outputs) {
        return Ok(false);
    }
    Ok(are_owned(&paths, &joined.pieces))
}
