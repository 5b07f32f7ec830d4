//! The graph of an outline with its roots.
ghost use Rattle.std.specs.Prelude.{◌≡◌, ◌<◌, All, IfOk, filter, length, map};
ghost use Rattle.std.specs.FinMap as finite;
ghost use Rattle.live.specs.Arguments.{root_view as borrowed_view, roots_view, rows_view};
ghost use Rattle.live.specs.Exact.{IsExact};
ghost use Rattle.live.specs.Keeping.{keep_view};
ghost use Rattle.live.specs.Numbering.{IsAimed, numbered as numbered_rows};
ghost use Rattle.model.specs.World.{roots_of};
ghost use Rattle.paths.specs.RootView.{root_view};
ghost use Rattle.store_reach.specs.Linked.{rows_in, valid_roots};
ghost use Rattle.tables_outline.specs.Rooted.{rooted};

use live::{Graph, Keep, Marks, Roots, Row, mark};
use paths::Root;
use std::alloc::{AllocError, Global};
use tables_outline::{Outline, root_list};

/// A row for each valid path: the path and what its object points to, borrowed from the outline.
pub(crate) fn rows<'a>(alloc: Global, outline: &'a Outline) -> Result<Vec<Row<'a>>, AllocError>
    ensures { IfOk result (λ v. rows_view v.items ≡ rows_in outline.now) }
{
    let mut rows = Vec::new(alloc);
    for (path, object) in outline.objects().iter() {
        rows.push(Row {
            path,
            references: object.references(),
            outputs: object.outputs(),
            deriver: object.deriver(),
        })?;
    }
    Ok(rows)
}

/// A root of a graph that borrows from a root of a list.
pub(crate) fn borrowed(root: &Root) -> live::Root<'_>
    ensures { borrowed_view result ≡ root_view root.now }
{
    live::Root {
        kind: root.kind,
        target: &root.target,
        label: root.label.as_str(),
    }
}

/// All roots of a list, borrowed from it.
pub(crate) fn borrowed_roots<'a>(
    alloc: Global,
    roots: &'a [Root],
) -> Result<Vec<live::Root<'a>>, AllocError>
    ensures { IfOk result (λ v. roots_view v.items ≡ map root_view roots.now) }
{
    let mut given = Vec::new(alloc);
    for root in roots {
        given.push(borrowed(root))?;
    }
    Ok(given)
}

/// An outline with all its roots, in order.
#[derive(Drop)]
pub(crate) struct RootedOutline<'a> {
    pub outline: &'a Outline,
    pub roots: Vec<Root>,
    ghost listed: { map root_view roots.items ≡ roots_of (rooted outline.now) },
}

impl<'a> RootedOutline<'a> {
    /// An outline with its roots.
    pub(crate) fn new(alloc: Global, outline: &'a Outline) -> Result<RootedOutline<'a>, AllocError>
        ensures { IfOk result (λ o. o.outline.now ≡ outline.now) }
    {
        let roots = root_list(alloc, outline)?;
        Ok(RootedOutline { outline, roots })
    }
}

/// The roots of a list whose targets are valid, borrowed from it.
fn of_valid<'a>(
    alloc: Global,
    outline: &Outline,
    roots: &'a [Root],
) -> Result<Vec<live::Root<'a>>, AllocError>
    ensures { IfOk result
        (λ v. roots_view v.items ≡ filter
        (λ r. finite.contains_key outline.now.objects r.target) (map root_view roots.now)) }
{
    let mut valid = Vec::new(alloc);
    for root in roots {
        if outline.has(&root.target) {
            valid.push(borrowed(root))?;
        }
    }
    Ok(valid)
}

/// The graph of an outline with its roots: a row for each valid path, in order, the roots whose targets are valid, and
/// both by their places, as walks read them. It borrows from the outline and from the list of its roots.
#[derive(Drop)]
pub(crate) struct RootedGraph<'a> {
    pub outline: &'a Outline,
    pub rows: Vec<Row<'a>>,
    pub roots: Vec<live::Root<'a>>,
    pub numbered: Graph,
    pub targets: Roots,
    ghost all_rows: { rows_view rows.items ≡ rows_in outline.now },
    ghost valid: { roots_view roots.items ≡ valid_roots outline.now },
    ghost numbers: { numbered ≡ numbered_rows (rows_in outline.now) },
    ghost aimed: { IsAimed (rows_in outline.now) (valid_roots outline.now) targets },
    ghost inside: { All (λ t. t < length rows.items) targets },
}

impl<'a> RootedGraph<'a> {
    /// The graph of an outline.
    pub(crate) fn new(
        alloc: Global,
        all: &'a RootedOutline<'a>,
    ) -> Result<RootedGraph<'a>, AllocError>
        ensures { IfOk result (λ g. g.outline.now ≡ all.now.outline.now) }
    {
        let outline = all.outline;
        let rows = rows(alloc, outline)?;
        let roots = of_valid(alloc, outline, &all.roots)?;
        let numbered = Graph::new(alloc, &rows)?;
        let targets = Roots::new(alloc, &rows, &roots)?;
        Ok(RootedGraph {
            outline,
            rows,
            roots,
            numbered,
            targets,
        })
    }

    /// The marks of the paths that live, by their places.
    pub(crate) fn marks(&self, alloc: Global, keep: Keep) -> Result<Marks, AllocError>
        ensures exact { IfOk result
            (IsExact (keep_view keep) (rows_in self.now.outline.now) (valid_roots self.now.outline.now)) }
        ensures roots { IfOk result (λ m. m.none ≡ length self.now.roots.items) }
    {
        mark(alloc, &self.numbered, &self.targets, keep)
    }
}
