//! Deletion of objects by name.

ghost use Rattle.std.specs.Prelude.{◌≡◌, ◌<◌, All, Bool, [], None, Ok, IfOk, false, filter, length, map, not};
ghost use Rattle.std.specs.List.{list_any, list_all};
ghost use Rattle.std.specs.FinMap as finite;
ghost use Rattle.live.specs.Graph.{same};
ghost use Rattle.live.specs.Arguments.{rows_view};
ghost use Rattle.live.specs.Numbering.{Rise, graph_of, path_at, paths_of};
ghost use Rattle.live.specs.Reach.{refers_to_any};
ghost use Rattle.model.specs.World.{Path, World, has};
ghost use Rattle.tables_outline.specs.Outline.{outline_of};
ghost use Rattle.model.specs.declared.refusal.Refusal.TheVariants.{NotValid};
ghost use Rattle.model.specs.Tests.{unless};
ghost use Rattle.store_reach.specs.Found.{IsDenial, deletes, found_view};
ghost use Rattle.store_reach.specs.Linked.{graph_in};
ghost use Rattle.store_types.specs.Tested.{Gives};
ghost use Rattle.store_types.specs.View.{request_view};
ghost use Rattle.policy.specs.Class.{class_of};
ghost use Rattle.policy.specs.Settings.{Settings};
ghost use Rattle.model.specs.Sound.{IsSound};
ghost use Rattle.model.specs.Effects.{keeping};
ghost use Rattle.tables_writes.specs.TablesValue.{HasWorld};
ghost use Rattle.store_promises.specs.Meets.{IsMet};
ghost use Rattle.model.specs.Liveness as spec;
ghost use Rattle.policy.specs.Caller as callers;
ghost use Rattle.model.specs.Request as asked;

use crate::first_root::first_live;
use crate::graph::rows;
use crate::reached::{paths_found, reached};
use crate::removal::{Found, remove};
use crate::sizes::bytes_in;
use live::{Graph, Keep, Row, place_of, referrers};
use paths::StorePath;
use policy::{Class, Config};
use sqlite::Alter;
use std::alloc::{AllocError, Global};
use store_promises::validity::are_valid;
use store_types::{Answer, Request, Stop};
use tables_outline::Outline;
use tables_writes::Tables;

/// The places of the given paths that rows have.
fn places(alloc: Global, rows: &[Row], named: &[StorePath]) -> Result<Vec<usize>, AllocError>
    requires { Rise (paths_of (rows_view rows.now)) }
    ensures inside { IfOk result (λ v. All (λ k. k < length rows.now) v.items) }
    // If a test passes for paths of rows alone, it passes for one of these places exactly if it does for one of the
    // given paths.
    ensures those { IfOk result
        (λ v. (test : Path → Bool)
        → ((p : Path) → filter (same p) (paths_of (rows_view rows.now)) ≡ [] → test p ≡ false)
        → list_any test (map (path_at (rows_view rows.now)) v.items) ≡ list_any test named.now) }
{
    let mut places = Vec::new(alloc);
    for path in named {
        if let Some(place) = place_of(rows, path) {
            places.push(place)?;
        }
    }
    Ok(places)
}

/// The paths at some places.
pub fn paths_at(alloc: Global, rows: &[Row], places: &[usize]) -> Result<Vec<StorePath>, AllocError>
    requires { All (λ k. k < length rows.now) places.now }
    ensures { IfOk result (λ v. v.items ≡ map (path_at (rows_view rows.now)) places.now) }
{
    let mut paths = Vec::new(alloc);
    for place in places {
        paths.push(rows[*place].path.clone()?)?;
    }
    Ok(paths)
}

/// The paths at some places and all that reach them by references, in order.
fn referring(alloc: Global, rows: &[Row], places: &[usize]) -> Result<Vec<StorePath>, AllocError>
    requires rise { Rise (paths_of (rows_view rows.now)) }
    requires inside { All (λ k. k < length rows.now) places.now }
    ensures { IfOk result
        (λ v. v.items
        ≡ filter (refers_to_any (graph_of (rows_view rows.now)) (map (path_at (rows_view rows.now)) places.now))
        (paths_of (rows_view rows.now))) }
{
    let graph = Graph::new(alloc, rows)?;
    let deleted = referrers(alloc, &graph, places)?;
    paths_at(alloc, rows, &deleted)
}

/// The named paths that are valid and all that reach one by references, by rows of all objects.
fn deleted_by_rows(
    alloc: Global,
    outline: &Outline,
    named: &[StorePath],
) -> Result<Vec<StorePath>, AllocError>
    ensures { IfOk result
        (λ v. v.items ≡ filter (refers_to_any (graph_in outline.now) named.now) (finite.keys outline.now.objects)) }
{
    let rows = rows(alloc, outline)?;
    let places = places(alloc, &rows, named)?;
    referring(alloc, &rows, &places)
}

/// The named paths that are valid and all that reach one by references, named or not, in order: by one walk back from
/// the named where the outline has its links turned round, or else by rows.
pub fn deleted_paths(
    alloc: Global,
    outline: &Outline,
    named: &[StorePath],
) -> Result<Vec<StorePath>, AllocError>
    ensures { IfOk result (λ v. (w : World) → outline_of w ≡ outline.now → v.items ≡ spec.deleted_paths w named.now) }
{
    let Some(links) = outline.links() else {
        return deleted_by_rows(alloc, outline, named);
    };
    let references_only = Keep {
        outputs: false,
        derivations: false,
    };
    let reaching = reached(alloc, links, references_only, named)?;
    paths_found(alloc, links, &reaching)
}

/// The root that denies a deletion: the first root of the first named path that is live, as a caller of a class sees
/// it. `None` if all named paths are dead.
pub fn denial(
    alloc: Global,
    config: &Config,
    class: Class,
    outline: &Outline,
    request: &Request,
) -> Result<Option<(String, StorePath)>, AllocError>
    ensures root { IfOk result (λ root. (w : World) (c : callers.Caller) → outline_of w ≡ outline.now
        → class ≡ class_of config.now c → IsDenial config.now w c (request_view request.now) root) }
    // A request that is no deletion takes no memory, and none keeps it from being done.
    ensures unnamed { deletes (request_view request.now) ≡ false → result ≡ Ok None }
{
    match request {
        Request::Delete { paths: named, .. } => {
            let root = first_live(alloc, config, class, outline, named)?;
            Ok(root)
        }
        _ => Ok(None),
    }
}

/// The named paths and all that reach them by references, if the named are valid.
pub fn find_deleted(alloc: Global, outline: &Outline, named: &[StorePath]) -> Result<Found, Stop>
    ensures { (w : World) → outline_of w ≡ outline.now → Gives found_view result
        (unless (list_all (has w) named.now) NotValid)
        (spec.deleted_paths w named.now, spec.bytes_in w (spec.deleted_paths w named.now)) }
{
    are_valid(outline, named)?;
    let paths = deleted_paths(alloc, outline, named)?;
    let bytes = bytes_in(outline, &paths);
    Ok(Found { paths, bytes })
}

/// Deletes the named objects and all that reach one by references. The caller ensures that the world without them is
/// sound.
pub fn delete<S: Alter>(
    alloc: Global,
    tables: &mut Tables<S>,
    named: Vec<StorePath>,
    ignores: bool,
) -> Result<Answer, Stop>
    requires { (w : World) → HasWorld S.Store tables.old w
        → IsSound tables.old.dir (keeping w (λ p. not (spec.is_deleted_with w named.items p))) }
    ensures { (s : Settings) (c : callers.Caller)
        → IsMet S.Store s c (asked.delete named.items ignores) result tables.old tables.new }
{
    let found = find_deleted(alloc, tables.outline(), &named)?;
    remove(tables, found)
}
