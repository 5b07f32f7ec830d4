//! All objects of the rows, tested and put into the outline, and what is tested with them.

ghost use Rattle.tables_world.specs.Worlds.{rows_of, world_in};
ghost use Rattle.tables_outline.specs.Outline.{outline_of};
ghost use Rattle.tables_load_objects.specs.Loaded.{AreSoundInPieces};
ghost use Rattle.tables_load_objects.specs.Loading.{MayReadBy, Loads};

use crate::each_object::load_all;
use crate::joined::{are_joined, read_joined};
use paths::StoreDir;
use sqlite::{Alter, Connection};
use std::alloc::Global;
use tables_outline::Outline;
use tables_schema::Schema;
use tables_sql::failure::Failed;

/// Whether the objects of the rows are sound in a store directory, by their schema: each archive cut the right way,
/// each object with its whole archive, its references and its outputs, each reference one of an object to an object,
/// and each output and each piece one of an object. If so, they replace the objects of the outline. Archives are read
/// one after another. The first schema has no table of pieces.
///
/// # Errors
///
/// Memory or the disk failed. The rows are as they were, and the outline may have some of the objects.
pub fn load_objects<S: Alter>(
    alloc: Global,
    conn: &mut Connection<S>,
    schema: Schema,
    dir: &StoreDir,
    outline: &mut Outline,
) -> Result<bool, Failed>
    requires { MayReadBy S.Store schema conn.old }
    ensures { Loads S.Store conn.old conn.new result outline.new
        (λ c. AreSoundInPieces schema dir.now (rows_of c))
        (λ c. record outline.old { objects = (outline_of (world_in c)).objects }) }
{
    let joined = read_joined(alloc, conn, schema)?;
    if !load_all(alloc, conn, schema, dir, outline, &joined)? {
        return Ok(false);
    }
    Ok(are_joined(alloc, outline, &joined)?)
}
