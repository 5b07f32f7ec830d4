//! The roots that reach a path.

ghost use Rattle.std.specs.Prelude.{◌≡◌, ◌<◌, All, IfOk, length, map};
ghost use Rattle.live.specs.Arguments.{roots_view};
ghost use Rattle.live.specs.Keeping.{keep_view};
ghost use Rattle.live.specs.Numbering.{root_at};
ghost use Rattle.model.specs.World.{World};
ghost use Rattle.store_reach.specs.Linked.{roots_reaching_in};
ghost use Rattle.tables_outline.specs.Maps.{labelled_bytes};
ghost use Rattle.tables_outline.specs.Outline.{outline_of};
ghost use Rattle.model.specs.Liveness.{roots_that_keep};
ghost use Rattle.model.specs.Seen.{seen as seen_by};

use crate::graph::{RootedGraph, RootedOutline};
use crate::liveness::keep_of;
use crate::reached::{reached, roots_found};
use crate::seen::seen;
use live::{Keep, Root, place_of, roots_of};
use paths::StorePath;
use policy::{Class, Config};
use std::alloc::{AllocError, Global};
use std::slice::from_ref;
use tables_outline::Outline;

/// The roots at some places.
fn roots_at<'a>(
    alloc: Global,
    roots: &[Root<'a>],
    places: &[usize],
) -> Result<Vec<Root<'a>>, AllocError>
    requires { All (λ k. k < length roots.now) places.now }
    ensures { IfOk result (λ v. roots_view v.items ≡ map (root_at (roots_view roots.now)) places.now) }
{
    let mut chosen = Vec::new(alloc);
    for place in places {
        chosen.push(roots[*place])?;
    }
    Ok(chosen)
}

/// The roots of an outline that reach a path, by rows of all objects.
fn roots_by_rows<'a>(
    alloc: Global,
    keep: Keep,
    all: &'a RootedOutline<'a>,
    path: &StorePath,
) -> Result<Vec<Root<'a>>, AllocError>
    ensures { IfOk result
        (λ v. roots_view v.items ≡ roots_reaching_in (keep_view keep) all.now.outline.now path.now) }
{
    let graph = RootedGraph::new(alloc, all)?;
    let Some(place) = place_of(&graph.rows, path) else {
        return Ok(Vec::new(alloc));
    };
    let places = roots_of(alloc, &graph.numbered, &graph.targets, keep, place)?;
    roots_at(alloc, &graph.roots, &places)
}

/// The roots of an outline that reach a path: by a walk back from it where the outline has its links turned round, or
/// else by rows.
fn roots_reaching<'a>(
    alloc: Global,
    keep: Keep,
    all: &'a RootedOutline<'a>,
    path: &StorePath,
) -> Result<Vec<Root<'a>>, AllocError>
    ensures { IfOk result
        (λ v. roots_view v.items ≡ roots_reaching_in (keep_view keep) all.now.outline.now path.now) }
{
    let Some(links) = all.outline.links() else {
        return roots_by_rows(alloc, keep, all, path);
    };
    let reaching = reached(alloc, links, keep, from_ref(path))?;
    roots_found(alloc, links, &reaching, &all.roots)
}

/// The roots that reach a path in their order, each its label and its target, as a caller of a class sees them. None
/// reaches a path that isn't valid.
pub fn seen_roots_of(
    alloc: Global,
    config: &Config,
    class: Class,
    outline: &Outline,
    path: &StorePath,
) -> Result<Vec<(String, StorePath)>, AllocError>
    ensures { IfOk result
        (λ v. (w : World) → outline_of w ≡ outline.now
        → map labelled_bytes v.items ≡ seen_by class (roots_that_keep config.now w path.now)) }
{
    let all = RootedOutline::new(alloc, outline)?;
    let reaching = roots_reaching(alloc, keep_of(config), &all, path)?;
    seen(alloc, class, &reaching)
}
