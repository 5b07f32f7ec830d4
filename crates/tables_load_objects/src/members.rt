//! Rows of references, outputs and pieces against the paths of all objects, which are in order: no path is made of a
//! text to look it up.

ghost use Rattle.std.specs.Prelude.{◌≡◌, ◌↔◌, true, IfOk, IsTrue, map};
ghost use Rattle.std.specs.List.{list_all};
ghost use Rattle.std.specs.FinMap as finite;
ghost use Rattle.std.specs.Option.{ForSome, option_copied};
ghost use Rattle.tables_rows.specs.Entries.{numbered_in, reference_of, output_of};
ghost use Rattle.tables_load_objects.specs.Known as known;
ghost use Rattle.tables_load_objects.specs.Known.{is_known, borrowed};

use crate::groups::first_of;
use paths::StorePath;
use std::alloc::{AllocError, Global};
use std::marker::Model;
use tables_outline::Outline;
use tables_rows::outputs::Output;
use tables_rows::pieces::PieceKey;
use tables_rows::references::Reference;

/// Paths in order, borrowed. Contracts see them as a list.
#[derive(Drop)]
pub(crate) struct Paths<'a> {
    paths: Vec<&'a StorePath>,
}

impl<'a> Model for Paths<'a> {
    ghost use Rattle.std.specs.Prelude.{List};
    ghost use Rattle.model.specs.World.{Path};
    ghost use Rattle.tables_load_objects.specs.Known.{borrowed};
    ghost use Rattle.tables_load_objects.specs.Rising.{Rises};

    ghost Value = { List Path };

    ghost view = { λ p. borrowed p.paths.items };

    ghost invariant = { λ p. Rises (borrowed p.paths.items) };
}

impl<'a> Paths<'a> {
    /// The paths of all objects.
    pub(crate) fn of(alloc: Global, outline: &'a Outline) -> Result<Paths<'a>, AllocError>
        ensures { IfOk result (λ all. all ≡ finite.keys outline.now.objects) }
    {
        let paths = paths_in(alloc, outline)?;
        Ok(Paths { paths })
    }
}

/// The paths of all objects, borrowed, in order.
fn paths_in<'a>(alloc: Global, outline: &'a Outline) -> Result<Vec<&'a StorePath>, AllocError>
    ensures { IfOk result (λ v. borrowed v.items ≡ finite.keys outline.now.objects) }
{
    let mut paths = Vec::new(alloc);
    'objects: for path in outline.objects().keys() {
        paths.push(path)?;
    }
    Ok(paths)
}

/// Whether a text is one of the paths.
fn is_known(paths: &Paths<'_>, text: &str) -> bool
    ensures { result ≡ is_known paths.now text.now }
{
    match first_of(&paths.paths, text) {
        Some(path) => {
            // A path is a base name.
            let _base = path.as_str();
            true
        }
        None => false,
    }
}

fn is_last(last: Option<&str>, text: &str) -> bool
    ensures { IsTrue result ↔ (option_copied last.entry ≡ Some text.now) }
{
    match last {
        Some(last) => last == text,
        None => false,
    }
}

/// Whether a text is one of the paths, as the last one was, if there is one. Rows come in the order of their bases, so
/// each base is looked up once.
fn is_next_known(paths: &Paths<'_>, last: Option<&str>, text: &str) -> bool
    requires { ForSome (option_copied last) (λ base. is_known paths.now base ≡ true) }
    ensures { result ≡ is_known paths.now text.now }
{
    if is_last(last, text) {
        return true;
    }
    is_known(paths, text)
}

/// Whether each reference is one of a path to a path.
pub(crate) fn are_references(paths: &Paths<'_>, rows: &[Reference]) -> bool
    ensures { result ≡ list_all (known.is_known_reference paths.now) (map reference_of rows.now) }
{
    let mut last = None;
    'rows: for row in rows {
        let base = row.base.as_str();
        if !is_next_known(paths, last, base) {
            return false;
        }
        if !is_known(paths, row.target.as_str()) {
            return false;
        }
        last = Some(base);
    }
    true
}

/// Whether each output is a path's.
pub(crate) fn are_outputs(paths: &Paths<'_>, rows: &[Output]) -> bool
    ensures { result ≡ list_all (known.is_known_output paths.now) (map output_of rows.now) }
{
    let mut last = None;
    'rows: for row in rows {
        let base = row.base.as_str();
        if !is_next_known(paths, last, base) {
            return false;
        }
        last = Some(base);
    }
    true
}

/// Whether each piece is one of a path's archive.
pub(crate) fn are_owned(paths: &Paths<'_>, rows: &[PieceKey]) -> bool
    ensures { result ≡ list_all (known.is_known_piece paths.now) (map numbered_in rows.now) }
{
    let mut last = None;
    'rows: for row in rows {
        let base = row.base.as_str();
        if !is_next_known(paths, last, base) {
            return false;
        }
        last = Some(base);
    }
    true
}
