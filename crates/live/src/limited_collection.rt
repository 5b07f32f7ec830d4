//! A collection up to a limit.
ghost use Rattle.std.specs.Prelude.{◌≡◌, ◌<◌, not, ℕ, List, length, map, IfOk};
ghost use Rattle.std.specs.List.{filter, range_with_len, slice_index};
ghost use Rattle.paths.specs.Root.{Root};
ghost use Rattle.live.specs.Graph.{Keep as Keeps, Path};
ghost use Rattle.live.specs.Live.{is_live};
ghost use Rattle.live.specs.Limited.{is_among, limited_groups, limited_paths};
ghost use Rattle.live.specs.Numbering.{Rise, Row, graph_of, numbered, path_at, paths_of};
ghost use Rattle.live.specs.Exact.{IsExact};

use crate::marks::Marks;
use crate::numbered::Graph;
use crate::remainder::Remaining;
use std::alloc::{AllocError, Global};

/// The places of the paths that a collection up to a limit removes, rising. The marks are those of `mark` on this
/// graph, and each path has a size in bytes. Dead paths are deleted until the limit is reached or none is left: each
/// time the least to which no other path left refers or, if each has such a referrer, the least with all that reach it
/// by references.
///
/// ```rust
/// use live::{Graph, Keep, Roots, Row};
/// use paths::StorePath;
///
/// let first = StorePath::from_base(alloc, "00000000000000000000000000000000-p")?;
/// let second = StorePath::from_base(alloc, "11111111111111111111111111111111-x")?;
/// let row = |path| Row { path, references: &[], outputs: &[], deriver: None };
/// let rows = [row(&first), row(&second)];
/// let (graph, keep) = (Graph::new(alloc, &rows)?, Keep { outputs: false, derivations: true });
/// let marks = live::mark(alloc, &graph, &Roots::new(alloc, &rows, &[])?, keep)?;
/// assert_eq!(rt; live::limited(alloc, &graph, &marks, &[112, 112], 112)?.as_slice(), [0].as_slice());
/// ```
pub fn limited(
    alloc: Global,
    graph: &Graph,
    marks: &Marks,
    sizes: &[u64],
    limit: u64,
) -> Result<Vec<usize>, AllocError>
    requires marks { length marks.now.first ≡ length graph.now }
    requires sizes { length sizes.now ≡ length graph.now }
    ensures places { IfOk result
        (λ v. (keep : Keeps) (rows : List Row) (given : List Root) (size : Path → ℕ) → Rise (paths_of rows)
        → graph.now ≡ numbered rows → IsExact keep rows given marks.now
        → ((i : ℕ) → i < length rows → size (path_at rows i) ≡ slice_index sizes.now i) →
        v.items ≡ filter
        (λ i. is_among (limited_groups (graph_of rows) (λ p. not (is_live keep (graph_of rows) given p)) size limit)
        (path_at rows i)) (range_with_len 0 (length rows))) }
    ensures paths { IfOk result
        (λ v. (keep : Keeps) (rows : List Row) (given : List Root) (size : Path → ℕ) → Rise (paths_of rows)
        → graph.now ≡ numbered rows → IsExact keep rows given marks.now
        → ((i : ℕ) → i < length rows → size (path_at rows i) ≡ slice_index sizes.now i) →
        map (path_at rows) v.items ≡ limited_paths (graph_of rows)
        (λ p. not (is_live keep (graph_of rows) given p)) size limit) }
{
    let mut remaining = Remaining::new(alloc, graph, marks)?;
    let mut wanted = limit;
    // Each turn takes a path at least, so there are no more than paths.
    'turns: for turn in 0..graph.len() {
        wanted = remaining.turn(alloc, graph, sizes, wanted)?;
    }
    let deleted_places = remaining.deleted_places(alloc)?;
    Ok(deleted_places)
}
