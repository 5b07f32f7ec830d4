//! Listings of paths and of roots, in pieces: no line is held twice.
ghost use Rattle.std.specs.Prelude.{◌≡◌, ◌++◌, IfOk, OnOk, map};
ghost use Rattle.report.specs.Replies as spec;
ghost use Rattle.tables_outline.specs.Maps.{labelled_bytes};

use crate::lists::{push_path_line, push_root_line};
use paths::{StoreDir, StorePath};
use std::alloc::{AllocError, Global};
use streams::Pieces;

/// Appends the line of a path, which is spelled in a buffer.
fn add_path(
    text: &mut Pieces,
    line: &mut String,
    dir: &StoreDir,
    path: &StorePath,
) -> Result<(), AllocError>
    ensures { OnOk result (text.new ≡ text.old ++ spec.path_line dir.now path.now) }
{
    line.clear();
    push_path_line(line, dir, path)?;
    text.push(line.as_str().as_bytes())
}

/// Appends the line of a root, which is spelled in a buffer.
fn add_root(
    text: &mut Pieces,
    line: &mut String,
    dir: &StoreDir,
    label: &str,
    target: &StorePath,
) -> Result<(), AllocError>
    ensures { OnOk result (text.new ≡ text.old ++ spec.root_line dir.now (label.now, target.now)) }
{
    line.clear();
    push_root_line(line, dir, label, target)?;
    text.push(line.as_str().as_bytes())
}

/// A full path a line, in pieces.
pub(crate) fn paths_pieces(
    alloc: Global,
    dir: &StoreDir,
    paths: &[StorePath],
) -> Result<Pieces, AllocError>
    ensures { IfOk result (λ text. text ≡ spec.paths_text dir.now paths.now) }
{
    let mut text = Pieces::new(alloc);
    let mut line = String::new(alloc);
    for path in paths {
        add_path(&mut text, &mut line, dir, path)?;
    }
    Ok(text)
}

/// A label and the full path of a target a line, in pieces.
pub(crate) fn roots_pieces(
    alloc: Global,
    dir: &StoreDir,
    roots: &[(String, StorePath)],
) -> Result<Pieces, AllocError>
    ensures { IfOk result (λ text. text ≡ spec.roots_text dir.now (map labelled_bytes roots.now)) }
{
    let mut text = Pieces::new(alloc);
    let mut line = String::new(alloc);
    for root in roots {
        add_root(&mut text, &mut line, dir, root.0.as_str(), &root.1)?;
    }
    Ok(text)
}
