//! The root that keeps the first live path of some paths.

ghost use Rattle.std.specs.Prelude.{◌≡◌, ◌<◌, ℕ, IfOk, IfSome, Option, find, is_some, length, option_map};
ghost use Rattle.std.specs.List.{list_any};
ghost use Rattle.paths.specs.Root.{Root as TheRoot};
ghost use Rattle.live.specs.Arguments.{root_view as borrowed_view, rows_view};
ghost use Rattle.live.specs.Keeping.{keep_view};
ghost use Rattle.live.specs.Numbering.{Rise, paths_of};
ghost use Rattle.model.specs.World.{Path, World};
ghost use Rattle.tables_outline.specs.Maps.{labelled_bytes};
ghost use Rattle.tables_outline.specs.Outline.{outline_of};
ghost use Rattle.model.specs.Liveness as spec;
ghost use Rattle.model.specs.Seen as sights;
ghost use Rattle.model.specs.Verdict.{root_of_first};
ghost use Rattle.store_reach.specs.FirstRoot.{AreMarked, first_value};
ghost use Rattle.store_reach.specs.Linked.{first_root_in};

use crate::graph::{RootedGraph, RootedOutline};
use crate::liveness::keep_of;
use crate::reached::{reached, roots_found};
use crate::seen::seen_root;
use live::{Keep, Marks, Root, Row, place_of};
use paths::StorePath;
use policy::{Class, Config};
use std::alloc::{AllocError, Global};
use tables_outline::Outline;

/// The place of the first root of the first of some paths that has one, by the marks of the rows.
fn first_mark(rows: &[Row], marks: &Marks, named: &[StorePath]) -> Option<usize>
    requires rise { Rise (paths_of (rows_view rows.now)) }
    requires marks { length marks.now.first ≡ length rows.now }
    ensures inside { IfSome result (λ k. k < marks.now.none) }
    ensures root { (root : ℕ → TheRoot) (root_of : Path → Option TheRoot)
        → AreMarked (rows_view rows.now) marks.now root root_of
        → option_map root result ≡ first_value root_of named.now }
{
    for path in named {
        let Some(place) = place_of(rows, path) else {
            continue;
        };
        if let Some(root) = marks.first_root(place) {
            return Some(root);
        }
    }
    None
}

/// The first root of the first of some paths that lives, by the marks of all.
fn first_by_marks<'a>(
    alloc: Global,
    keep: Keep,
    all: &'a RootedOutline<'a>,
    named: &[StorePath],
) -> Result<Option<Root<'a>>, AllocError>
    ensures { IfOk result
        (λ r. option_map borrowed_view r
        ≡ first_value (first_root_in (keep_view keep) all.now.outline.now) named.now) }
{
    let graph = RootedGraph::new(alloc, all)?;
    let marks = graph.marks(alloc, keep)?;
    let Some(place) = first_mark(&graph.rows, &marks, named) else {
        return Ok(None);
    };
    Ok(Some(graph.roots[place]))
}

/// The first root of the first of some paths that lives. Where the outline has its links turned round, one walk back
/// from all of them shows whether one lives, and of one path which root keeps it. Only if one of several lives, the
/// marks of all show which is the first: a walk from each of many would be longer than marking.
fn first_keeping<'a>(
    alloc: Global,
    keep: Keep,
    all: &'a RootedOutline<'a>,
    named: &[StorePath],
) -> Result<Option<Root<'a>>, AllocError>
    ensures { IfOk result
        (λ r. option_map borrowed_view r
        ≡ first_value (first_root_in (keep_view keep) all.now.outline.now) named.now) }
{
    let Some(links) = all.outline.links() else {
        return first_by_marks(alloc, keep, all, named);
    };
    let reaching = reached(alloc, links, keep, named)?;
    let found = roots_found(alloc, links, &reaching, &all.roots)?;
    let Some(root) = found.first() else {
        return Ok(None);
    };
    if named.len() > 1 {
        return first_by_marks(alloc, keep, all, named);
    }
    Ok(Some(*root))
}

/// The label and the target of the first root of the first of some paths that lives, as a caller of a class sees them.
/// `None` if all paths are dead.
pub fn first_live(
    alloc: Global,
    config: &Config,
    class: Class,
    outline: &Outline,
    named: &[StorePath],
) -> Result<Option<(String, StorePath)>, AllocError>
    ensures root { IfOk result
        (λ r. (w : World) → outline_of w ≡ outline.now
        → option_map labelled_bytes r
        ≡ option_map (sights.seen_root class) (root_of_first config.now w (find (spec.lives config.now w) named.now))) }
    ensures lives { IfOk result
        (λ r. (w : World) → outline_of w ≡ outline.now → is_some r ≡ list_any (spec.lives config.now w) named.now) }
{
    let all = RootedOutline::new(alloc, outline)?;
    let first = first_keeping(alloc, keep_of(config), &all, named)?;
    let Some(root) = first else {
        return Ok(None);
    };
    let shown = seen_root(alloc, class, root)?;
    Ok(Some(shown))
}
