//! Collection of dead objects.

ghost use Rattle.std.specs.Prelude.{◌≡◌, IfOk, Some, map};
ghost use Rattle.model.specs.World.{World};
ghost use Rattle.tables_outline.specs.Outline.{outline_of};
ghost use Rattle.store_reach.specs.Sizes.{size_in};
ghost use Rattle.policy.specs.Caller.{Caller};
ghost use Rattle.store_promises.specs.Meets.{IsMet};
ghost use Rattle.model.specs.Liveness as spec;
ghost use Rattle.model.specs.Request as asked;

use crate::deletion::paths_at;
use crate::graph::{RootedGraph, RootedOutline};
use crate::liveness::{dead_paths, keep_of};
use crate::removal::{Found, remove};
use crate::sizes::{bytes_in, size_of};
use live::{Row, limited};
use paths::StorePath;
use policy::Config;
use sqlite::Alter;
use std::alloc::{AllocError, Global};
use store_types::{Answer, Stop};
use tables_outline::Outline;
use tables_writes::Tables;

/// The bytes of the archive of each row's path.
fn sizes(alloc: Global, outline: &Outline, rows: &[Row]) -> Result<Vec<u64>, AllocError>
    ensures { IfOk result (λ v. v.items ≡ map (λ r. size_in outline.now r.path.now) rows.now) }
{
    let mut sizes = Vec::new(alloc);
    for row in rows {
        sizes.push(size_of(outline, row.path) as u64)?;
    }
    Ok(sizes)
}

/// The paths that a collection up to a limit removes, in order.
fn limited_paths(
    alloc: Global,
    config: &Config,
    outline: &Outline,
    limit: u64,
) -> Result<Vec<StorePath>, AllocError>
    ensures { IfOk result
        (λ v. (w : World) → outline_of w ≡ outline.now → v.items ≡ spec.collected_paths config.now w (Some limit)) }
{
    let all = RootedOutline::new(alloc, outline)?;
    let graph = RootedGraph::new(alloc, &all)?;
    let sizes = sizes(alloc, graph.outline, &graph.rows)?;
    let marks = graph.marks(alloc, keep_of(config))?;
    let places = limited(alloc, &graph.numbered, &marks, &sizes, limit)?;
    paths_at(alloc, &graph.rows, &places)
}

/// The paths that a collection removes, in order: all dead paths; with a limit, one group of them after another, until
/// the archives of the removed paths have that many bytes.
pub fn collected_paths(
    alloc: Global,
    config: &Config,
    outline: &Outline,
    limit: Option<u64>,
) -> Result<Vec<StorePath>, AllocError>
    ensures { IfOk result
        (λ v. (w : World) → outline_of w ≡ outline.now → v.items ≡ spec.collected_paths config.now w limit) }
{
    match limit {
        Some(most) => limited_paths(alloc, config, outline, most),
        None => dead_paths(alloc, config, outline),
    }
}

/// The paths that a collection removes, and the sum of their bytes.
pub fn find_collected(
    alloc: Global,
    config: &Config,
    outline: &Outline,
    limit: Option<u64>,
) -> Result<Found, AllocError>
    ensures paths { IfOk result
        (λ f. (w : World) → outline_of w ≡ outline.now → f.paths.items ≡ spec.collected_paths config.now w limit) }
    ensures bytes { IfOk result
        (λ f. (w : World) → outline_of w ≡ outline.now
        → f.bytes ≡ spec.bytes_in w (spec.collected_paths config.now w limit)) }
{
    let paths = collected_paths(alloc, config, outline, limit)?;
    let bytes = bytes_in(outline, &paths);
    Ok(Found { paths, bytes })
}

/// Removes the dead objects: all, or with a limit as many groups as it takes.
pub fn collect<S: Alter>(
    alloc: Global,
    config: &Config,
    tables: &mut Tables<S>,
    ignores: bool,
    limit: Option<u64>,
) -> Result<Answer, Stop>
    ensures { (c : Caller) → IsMet S.Store config.now c (asked.collect ignores limit) result tables.old tables.new }
{
    let found = find_collected(alloc, config, tables.outline(), limit)?;
    remove(tables, found)
}
