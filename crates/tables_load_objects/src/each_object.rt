//! Objects, tested one after another, and then put into the outline together.

ghost use Rattle.std.specs.Prelude.{◌≡◌, ◌↔◌, [], IsTrue, IfOk, OnOk, map, string_bytes};
ghost use Rattle.std.specs.List.{AllByRecursion};
ghost use Rattle.std.specs.FinMap as finite;
ghost use Rattle.sqlite.specs.State.{HasCleanDisk};
ghost use Rattle.sqlite.specs.Held.{state};
ghost use Rattle.tables_sql.specs.Contents.{contents_of};
ghost use Rattle.tables_rows.specs.Entries.{stored_of};
ghost use Rattle.tables_load_objects.specs.Cut.{parts_of, whole_of};
ghost use Rattle.tables_load_objects.specs.Rows.{AreJoined, AreStored};
ghost use Rattle.tables_load_objects.specs.Tested.{IsSoundAt, kept_of, named_of, targets_of};
ghost use Rattle.tables_load_objects.specs.Loaded.{IsCutBy, IsSoundOne, filled, with_object, with_objects};
ghost use Rattle.tables_load_objects.specs.Loading.{MayReadBy, MayReadFrom, Loads};

use crate::groups::group;
use crate::joined::Joined;
use crate::object_rows::{ObjectRows, rows_at};
use crate::piece_sizes::is_cut;
use crate::soundness::sound_object;
use crate::source::Source;
use crate::texts::new_path;
use paths::{StoreDir, StorePath};
use sqlite::{Alter, Connection};
use std::alloc::{AllocError, Global};
use std::collections::VecDeque;
use tables_outline::{Outline, Summary};
use tables_rows::objects::Object;
use tables_rows::outputs::Output;
use tables_rows::pieces::Piece;
use tables_rows::references::Reference;
use tables_rows::{Find, objects};
use tables_schema::Schema;
use tables_sql::failure::Failed;

/// Whether an archive is cut the right way, where there is a table of pieces.
fn is_cut_by(schema: Schema, row: &[u8], pieces: &[Piece]) -> bool
    ensures { IsTrue result ↔ IsCutBy schema row.now (parts_of pieces.now) }
{
    if !schema.has_pieces() {
        return true;
    }
    is_cut(row, pieces)
}

/// Whether the rows of an object are sound. If so, it is added to `found`.
fn load_rows(
    alloc: Global,
    source: &Source<'_>,
    found: &mut Vec<(StorePath, Summary)>,
    rows: ObjectRows,
    references: &[Reference],
    outputs: &[Output],
) -> Result<bool, AllocError>
    ensures reported { IfOk result
        (λ ok. IsTrue ok ↔ (IsCutBy source.now.schema (stored_of rows.object).1.nar (parts_of rows.pieces.items)
        × IsSoundAt source.now.dir.now (stored_of rows.object).0
        (whole_of (stored_of rows.object).1 (parts_of rows.pieces.items)) (targets_of references.now)
        (named_of outputs.now))) }
    ensures loaded { IfOk result (λ ok. IsTrue ok
        → filled found.new.items
        ≡ finite.insert (filled found.old.items) (stored_of rows.object).0
        (kept_of source.now.dir.now (stored_of rows.object).0
        (whole_of (stored_of rows.object).1 (parts_of rows.pieces.items)) (targets_of references.now))) }
{
    if !is_cut_by(source.schema, &rows.object.nar, &rows.pieces) {
        return Ok(false);
    }
    let Some((path, summary)) = sound_object(
        alloc,
        source.paths,
        source.dir,
        rows,
        references,
        outputs,
    )?
    else {
        return Ok(false);
    };
    found.push((path, summary))?;
    Ok(true)
}

/// Whether this base is an object's, whose rows are sound. If so, it is added to `found`.
fn load_object<S: Alter>(
    alloc: Global,
    conn: &mut Connection<S>,
    source: &Source<'_>,
    ahead: &mut VecDeque<Object>,
    found: &mut Vec<(StorePath, Summary)>,
    base: &str,
) -> Result<bool, Failed>
    requires { MayReadFrom S.Store source.now ahead.old.items conn.old }
    ensures object { Loads S.Store conn.old conn.new result (filled found.new.items)
        (λ c. IsSoundOne source.now.schema source.now.dir.now c base.now)
        (λ c. with_object c base.now (filled found.old.items)) }
    ensures ahead { HasCleanDisk (state S.Store conn.new)
        → OnOk result (AreStored (contents_of (state S.Store conn.old).now) ahead.new.items) }
{
    let Some(rows) = rows_at(alloc, conn, source, ahead, base)? else {
        return Ok(false);
    };
    let references = group(&source.joined.references, base);
    let outputs = group(&source.joined.outputs, base);
    Ok(load_rows(alloc, source, found, rows, references, outputs)?)
}

/// Whether each base of the source is an object's, whose rows are sound. If so, they are added to `found`.
fn load_each<S: Alter>(
    alloc: Global,
    conn: &mut Connection<S>,
    source: &Source<'_>,
    found: &mut Vec<(StorePath, Summary)>,
) -> Result<bool, Failed>
    requires { MayReadFrom S.Store source.now [] conn.old }
    ensures { Loads S.Store conn.old conn.new result (filled found.new.items)
        (λ c. AllByRecursion (IsSoundOne source.now.schema source.now.dir.now c)
        (map string_bytes source.now.bases.now))
        (λ c. with_objects c (map string_bytes source.now.bases.now) (filled found.old.items)) }
{
    let mut ahead = VecDeque::new(alloc);
    let bases = source.bases;
    'bases: for base in bases {
        let base = base.as_str();
        if !load_object(alloc, conn, source, &mut ahead, found, base)? {
            return Ok(false);
        }
    }
    Ok(true)
}

/// The paths of those of these texts that are base names, in the same order.
fn new_paths(alloc: Global, bases: &[String]) -> Result<Vec<StorePath>, AllocError> {
    let mut paths = Vec::with_capacity(alloc, bases.len())?;
    for base in bases {
        if let Some(path) = new_path(alloc, base.as_str())? {
            paths.push(path)?;
        }
    }
    Ok(paths)
}

/// Whether all objects of the rows are sound, each by itself. If so, they replace the objects of the outline.
pub(crate) fn load_all<S: Alter>(
    alloc: Global,
    conn: &mut Connection<S>,
    schema: Schema,
    dir: &StoreDir,
    outline: &mut Outline,
    joined: &Joined,
) -> Result<bool, Failed>
    requires tables { MayReadBy S.Store schema conn.old }
    requires joined { HasCleanDisk (state S.Store conn.old)
        → AreJoined (contents_of (state S.Store conn.old).now) joined.now }
    ensures { Loads S.Store conn.old conn.new result outline.new
        (λ c. AllByRecursion (IsSoundOne schema dir.now c) (finite.keys c.objects))
        (λ c. record outline.old { objects = with_objects c (finite.keys c.objects) finite.empty }) }
{
    let bases = objects::Keys.find(alloc, conn)?;
    let paths = new_paths(alloc, &bases)?;
    let source = Source {
        schema,
        dir,
        joined,
        bases: &bases,
        paths: &paths,
    };
    let mut found = Vec::new(alloc);
    if !load_each(alloc, conn, &source, &mut found)? {
        return Ok(false);
    }
    outline.set_objects(alloc, found)?;
    Ok(true)
}
