//! The rows of an object's outputs compared with what its archive records.

ghost use Rattle.std.specs.Prelude.{◌≡◌, ◌&&◌, Ok, IfOk, MatchOption, map, string_bytes};
ghost use Rattle.std.specs.FinMap as finite;
ghost use Rattle.std.specs.Str.{bytes_eq};
ghost use Rattle.nar.specs.Tree.{Tree};
ghost use Rattle.nar.specs.Outcome.{outcome_of};
ghost use Rattle.drv.specs.View.{pairs};
ghost use Rattle.tables_outline.specs.Outputs.{IsListed};
ghost use Rattle.tables_load_objects.specs.Tested.{IfDerivation, outputs_in, same_outputs, named_of};

use crate::recorded::found_in;
use paths::{StoreDir, StorePath};
use std::alloc::{AllocError, Global};
use std::collections::BTreeMap;
use streams::Pieces;
use tables_outline::Outputs;
use tables_rows::outputs::Output;

fn is_same(row: &Output, name: &str, path: &str) -> bool
    ensures { result
        ≡ (bytes_eq (string_bytes row.now.name) name.now && bytes_eq (string_bytes row.now.target) path.now) }
{
    row.name.as_str() == name && row.target.as_str() == path
}

/// Whether the rows are these outputs, in the order of their names.
fn are_recorded(rows: &[Output], found: &BTreeMap<String, StorePath>) -> bool
    ensures { result ≡ same_outputs (named_of rows.now) (pairs found.now.entries) }
{
    let mut left = found.iter();
    'rows: for row in rows {
        let Some((name, path)) = left.next() else {
            return false;
        };
        if !is_same(row, name.as_str(), path.as_str()) {
            return false;
        }
    }
    left.next().is_none()
}

/// The outputs of an object, where its rows have exactly those that its tree records.
pub(crate) fn recorded(
    alloc: Global,
    dir: &StoreDir,
    path: &StorePath,
    archive: &Pieces,
    rows: &[Output],
) -> Result<Option<Outputs>, AllocError>
    ensures { (t : Tree) → outcome_of archive.now ≡ Ok t → IfOk result (λ o. MatchOption o
        (¬ (IfDerivation dir.now path.now t × (named_of rows.now ≡ finite.entries (outputs_in dir.now path.now t))))
        (λ l. IfDerivation dir.now path.now t × (named_of rows.now ≡ finite.entries (outputs_in dir.now path.now t))
        × IsListed (map string_bytes l.names.items) l.paths.items (outputs_in dir.now path.now t))) }
{
    let Some(found) = found_in(alloc, dir, path, archive)? else {
        return Ok(None);
    };
    // Names rise.
    let _count = found.len();
    if !are_recorded(rows, &found) {
        return Ok(None);
    }
    let outputs = Outputs::of_map(alloc, found)?;
    Ok(Some(outputs))
}
