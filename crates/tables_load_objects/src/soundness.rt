//! Whether an object is sound, by its rows.

ghost use Rattle.std.specs.Prelude.{◌≡◌, IfOk, IsTrue, MatchOption, length, map, string_bytes};
ghost use Rattle.std.specs.List.{zip};
ghost use Rattle.std.specs.FinMap as finite;
ghost use Rattle.sha2.specs.Sha256.{sha256};
ghost use Rattle.paths.specs.Root.{bytes_cmp, set_of};
ghost use Rattle.tables_rows.specs.Entries.{stored_of};
ghost use Rattle.nar.specs.Archive.{IsArchive};
ghost use Rattle.nar.specs.Tree.{Tree};
ghost use Rattle.model.specs.Objects.{outputs_at};
ghost use Rattle.tables_outline.specs.Outline.{rise};
ghost use Rattle.tables_outline.specs.Outputs.{IsListed};
ghost use Rattle.tables_load_objects.specs.Cut.{parts_of, whole_of};
ghost use Rattle.tables_load_objects.specs.Tested.{IsRecorded, IsSoundArchive, IsSoundAt, kept_of, named_of};
ghost use Rattle.tables_load_objects.specs.Tested.{targets_of};

use crate::address::{are_same, fits_address};
use crate::archive_bytes::ArchiveBytes;
use crate::object_rows::ObjectRows;
use crate::outputs::recorded;
use crate::references::paths_of;
use crate::texts::{address_of, deriver_of, path_of};
use paths::{Ca, StoreDir, StorePath};
use std::alloc::{AllocError, Global};
use streams::MAX_REFERENCES;
use tables_outline::{Details, Outputs, Summary};
use tables_rows::objects::Object;
use tables_rows::outputs::Output;
use tables_rows::references::Reference;

/// The outputs of an object, where its rows have exactly those that its archive records.
fn sound_outputs(
    alloc: Global,
    dir: &StoreDir,
    path: &StorePath,
    archive: &ArchiveBytes,
    rows: &[Output],
) -> Result<Option<Outputs>, AllocError>
    requires { (t : Tree) × IsArchive t archive.now }
    ensures { IfOk result (λ o. MatchOption o
        (¬ (IsRecorded dir.now path.now archive.now
        × (named_of rows.now ≡ finite.entries (outputs_at dir.now path.now archive.now))))
        (λ l. IsRecorded dir.now path.now archive.now
        × (named_of rows.now ≡ finite.entries (outputs_at dir.now path.now archive.now))
        × IsListed (map string_bytes l.names.items) l.paths.items (outputs_at dir.now path.now archive.now))) }
{
    recorded(alloc, dir, path, &archive.arrived.pieces, rows)
}

/// What is kept of an object with this archive.
fn summary_of(
    alloc: Global,
    archive: &ArchiveBytes,
    refs: Vec<StorePath>,
    deriver: Option<StorePath>,
    ca: Option<Ca>,
    outputs: Outputs,
) -> Result<Summary, AllocError>
    requires refs { IsTrue (rise refs.items) }
    requires names { IsTrue (rise (map string_bytes outputs.names.items)) }
    requires paths { length outputs.paths.items ≡ length (map string_bytes outputs.names.items) }
    ensures { IfOk result
        (λ s. s ≡ record {
          size = length archive.now;
          hash = sha256 archive.now;
          references = set_of bytes_cmp refs.items;
          deriver = deriver;
          ca = ca;
          outputs = finite.from_entries (zip (map string_bytes outputs.names.items) outputs.paths.items);
        }) }
{
    let size = archive.arrived.pieces.len();
    let details = Details {
        deriver,
        ca,
        outputs,
    };
    Summary::new(alloc, size, archive.digest(), refs, details)
}

/// What the rows of an object state: the digest of its archive, its references, its deriver and its address.
#[derive(Drop)]
struct Stated<'a> {
    hash: &'a [u8],
    refs: Vec<StorePath>,
    deriver: Option<StorePath>,
    ca: Option<Ca>,
}

/// What is kept of an object, where its digest, its address and its outputs are those of its archive.
fn sound_archive(
    alloc: Global,
    dir: &StoreDir,
    path: &StorePath,
    archive: &ArchiveBytes,
    stated: Stated<'_>,
    outputs: &[Output],
) -> Result<Option<Summary>, AllocError>
    requires { IsTrue (rise stated.refs.items) }
    ensures { IfOk result (λ o. MatchOption o
        (¬ IsSoundArchive dir.now path.now archive.now stated.entry.hash.now stated.entry.ca stated.entry.refs.items
        (named_of outputs.now))
        (λ s. IsSoundArchive dir.now path.now archive.now stated.entry.hash.now stated.entry.ca stated.entry.refs.items
        (named_of outputs.now)
        × (s ≡ record {
          size = length archive.now;
          hash = sha256 archive.now;
          references = set_of bytes_cmp stated.entry.refs.items;
          deriver = stated.entry.deriver;
          ca = stated.entry.ca;
          outputs = outputs_at dir.now path.now archive.now;
        }))) }
{
    let Stated {
        hash,
        refs,
        deriver,
        ca,
    } = stated;
    if !are_same(hash, &archive.digest()) {
        return Ok(None);
    }
    if !archive.is_archive() {
        return Ok(None);
    }
    if !fits_address(alloc, dir, path, archive, ca, &refs)? {
        return Ok(None);
    }
    match sound_outputs(alloc, dir, path, archive, outputs)? {
        Some(listed) => {
            let summary = summary_of(alloc, archive, refs, deriver, ca, listed)?;
            Ok(Some(summary))
        }
        None => Ok(None),
    }
}

/// The path of an object and what is kept of it, where its rows are sound. They share the texts of the same paths among
/// these, which are in order. That each reference is an object isn't asked here.
pub(crate) fn sound_object(
    alloc: Global,
    paths: &[StorePath],
    dir: &StoreDir,
    rows: ObjectRows,
    references: &[Reference],
    outputs: &[Output],
) -> Result<Option<(StorePath, Summary)>, AllocError>
    ensures { IfOk result (λ o. MatchOption o
        (¬ IsSoundAt dir.now (stored_of rows.object).0
        (whole_of (stored_of rows.object).1 (parts_of rows.pieces.items)) (targets_of references.now)
        (named_of outputs.now))
        (λ s. IsSoundAt dir.now (stored_of rows.object).0
        (whole_of (stored_of rows.object).1 (parts_of rows.pieces.items)) (targets_of references.now)
        (named_of outputs.now)
        × (s.0 ≡ (stored_of rows.object).0)
        × (s.1 ≡ kept_of dir.now (stored_of rows.object).0
        (whole_of (stored_of rows.object).1 (parts_of rows.pieces.items)) (targets_of references.now)))) }
{
    let ObjectRows { object, pieces } = rows;
    if references.len() > MAX_REFERENCES {
        return Ok(None);
    }
    let Some(path) = path_of(alloc, paths, object.base.as_str())? else {
        return Ok(None);
    };
    let Some(deriver) = deriver_of(alloc, paths, &object.deriver)? else {
        return Ok(None);
    };
    let Some(ca) = address_of(alloc, &object.ca)? else {
        return Ok(None);
    };
    let Some(refs) = paths_of(alloc, paths, references)? else {
        return Ok(None);
    };
    let Object { nar, hash, .. } = object;
    let archive = ArchiveBytes::of(alloc, nar, pieces)?;
    let stated = Stated {
        hash: &hash,
        refs,
        deriver,
        ca,
    };
    match sound_archive(alloc, dir, &path, &archive, stated, outputs)? {
        Some(summary) => Ok(Some((path, summary))),
        None => Ok(None),
    }
}
