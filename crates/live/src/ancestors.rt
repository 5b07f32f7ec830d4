//! The roots that reach a path, and the paths that refer to some paths.
ghost use Rattle.std.specs.Prelude.{◌≡◌, ◌<◌, List, length, filter, map, nat_lt, All, IfOk};
ghost use Rattle.std.specs.List.{range_with_len, slice_index};
ghost use Rattle.paths.specs.Root.{Root};
ghost use Rattle.live.specs.Reach.{reaches, refers_to_any};
ghost use Rattle.live.specs.Live.{roots_that_reach};
ghost use Rattle.live.specs.Keeping.{keep_view};
ghost use Rattle.live.specs.Numbering.{IsAimed, Rise, Row, graph_of, numbered, path_at, paths_of, root_at};

use crate::backward::backward;
use crate::keep::Keep;
use crate::numbered::{Graph, Roots, Walker};
use std::alloc::{AllocError, Global};

/// The places of all roots that reach a path, rising.
///
/// ```rust
/// use live::{Graph, Keep, Root, Roots, Row};
/// use paths::{RootKind, StorePath};
///
/// let path = StorePath::from_base(alloc, "00000000000000000000000000000000-p")?;
/// let rows = [Row { path: &path, references: &[], outputs: &[], deriver: None }];
/// let graph = Graph::new(alloc, &rows)?;
/// let root = |label| Root { kind: RootKind::Runtime, target: &path, label };
/// let roots = Roots::new(alloc, &rows, &[root("a"), root("b")])?;
/// let keep = Keep { outputs: true, derivations: true };
/// assert_eq!(rt; live::roots_of(alloc, &graph, &roots, keep, 0)?.as_slice(), [0, 1].as_slice());
/// ```
pub fn roots_of(
    alloc: Global,
    graph: &Graph,
    roots: &Roots,
    keep: Keep,
    place: usize,
) -> Result<Vec<usize>, AllocError>
    requires place { place < length graph.now }
    requires targets { All (λ t. t < length graph.now) roots.now }
    ensures places { IfOk result
        (λ v. (rows : List Row) (given : List Root) → Rise (paths_of rows) → graph.now ≡ numbered rows
        → IsAimed rows given roots.now →
        v.items ≡ filter
        (λ k. reaches (keep_view keep) (graph_of rows) (root_at given k).target (path_at rows place))
        (range_with_len 0 (length given))) }
    ensures roots { IfOk result
        (λ v. (rows : List Row) (given : List Root) → Rise (paths_of rows) → graph.now ≡ numbered rows
        → IsAimed rows given roots.now →
        map (root_at given) v.items ≡ roots_that_reach (keep_view keep) (graph_of rows) given (path_at rows place)) }
{
    let marks = backward(alloc, graph, keep, &[place])?;
    let mut reaching = Vec::new(alloc);
    let mut walker = Walker::new();
    for root in 0..roots.len() {
        let target = walker.root(roots, root);
        if marks[target] < 1 {
            reaching.push(root)?;
        }
    }
    Ok(reaching)
}

/// The places of the named paths and of all that reach them by references alone, rising.
///
/// ```rust
/// use live::{Graph, Row};
/// use paths::StorePath;
///
/// let first = StorePath::from_base(alloc, "00000000000000000000000000000000-p")?;
/// let second = StorePath::from_base(alloc, "11111111111111111111111111111111-x")?;
/// let references = [first.clone()?];
/// let p = Row { path: &first, references: &[], outputs: &[], deriver: None };
/// let x = Row { path: &second, references: &references, outputs: &[], deriver: None };
/// let graph = Graph::new(alloc, &[p, x])?;
/// assert_eq!(rt; live::referrers(alloc, &graph, &[0])?.as_slice(), [0, 1].as_slice());
/// ```
pub fn referrers(alloc: Global, graph: &Graph, named: &[usize]) -> Result<Vec<usize>, AllocError>
    requires { All (λ t. t < length graph.now) named.now }
    ensures places { IfOk result (λ v. (rows : List Row) → Rise (paths_of rows) → graph.now ≡ numbered rows →
        v.items ≡ filter
        (λ i. refers_to_any (graph_of rows) (map (path_at rows) named.now) (path_at rows i))
        (range_with_len 0 (length rows))) }
    ensures paths { IfOk result (λ v. (rows : List Row) → Rise (paths_of rows) → graph.now ≡ numbered rows →
        map (path_at rows) v.items
        ≡ filter (refers_to_any (graph_of rows) (map (path_at rows) named.now)) (paths_of rows)) }
{
    let references_only = Keep {
        outputs: false,
        derivations: false,
    };
    let marks = backward(alloc, graph, references_only, named)?;
    let mut referring = Vec::new(alloc);
    for place in 0..graph.len() {
        if marks[place] < 1 {
            referring.push(place)?;
        }
    }
    Ok(referring)
}
