//! Making a graph of rows, and roots of their targets.
ghost use Rattle.std.specs.Prelude.{◌≡◌, ◌<◌, IfOk, All, length};
ghost use Rattle.live.specs.Numbering.{AreRootsOf, IsAimed, Rise, numbered, paths_of};
ghost use Rattle.live.specs.Arguments.{rows_view, roots_view};

use crate::numbered::guesses::Guesses;
use crate::numbered::heads::heads_of;
use crate::numbered::places::{Index, place_of};
use crate::numbered::rows::{Root, Row};
use crate::numbered::texts::texts_of;
use crate::numbered::{Graph, Roots};
use std::alloc::{AllocError, Global};

impl Graph {
    /// The graph of some rows, which strictly rise. It borrows nothing from them.
    ///
    /// ```rust
    /// use live::{Graph, Row};
    /// use paths::StorePath;
    ///
    /// let path = StorePath::from_base(alloc, "00000000000000000000000000000000-p")?;
    /// let rows = [Row { path: &path, references: &[], outputs: &[], deriver: None }];
    /// let graph = Graph::new(alloc, &rows)?;
    /// assert_eq!(rt; graph.len(), 1);
    /// ```
    pub fn new(alloc: Global, rows: &[Row]) -> Result<Graph, AllocError>
        requires { Rise (paths_of (rows_view rows.now)) }
        ensures { IfOk result (λ g. g ≡ numbered (rows_view rows.now)) }
    {
        let heads = heads_of(alloc, rows)?;
        let texts = texts_of(alloc, rows)?;
        let mut guesses = Guesses::new(alloc, rows, &heads)?;
        let index = Index { rows, heads, texts };
        let mut spans = Vec::new(alloc);
        let mut targets = Vec::new(alloc);
        for row in rows {
            let span = index.add_row(&mut targets, &mut guesses, *row)?;
            spans.push(span)?;
        }
        Ok(Graph { spans, targets })
    }
}

impl Roots {
    /// The roots of a graph, in their order. Rows strictly rise, and each target is a row's path.
    ///
    /// ```rust
    /// use live::{Root, Roots, Row};
    /// use paths::{RootKind, StorePath};
    ///
    /// let path = StorePath::from_base(alloc, "00000000000000000000000000000000-p")?;
    /// let rows = [Row { path: &path, references: &[], outputs: &[], deriver: None }];
    /// let root = Root { kind: RootKind::User, target: &path, label: "gcroots/per-user/ann/p" };
    /// let roots = Roots::new(alloc, &rows, &[root])?;
    /// assert_eq!(rt; roots.len(), 1);
    /// ```
    pub fn new(alloc: Global, rows: &[Row], roots: &[Root]) -> Result<Roots, AllocError>
        requires { AreRootsOf (rows_view rows.now) (roots_view roots.now) }
        ensures aimed { IfOk result (IsAimed (rows_view rows.now) (roots_view roots.now)) }
        ensures inside { IfOk result (λ r. All (λ t. t < length rows.now) r) }
    {
        let mut targets = Vec::new(alloc);
        for root in roots {
            if let Some(place) = place_of(rows, root.target) {
                targets.push(place)?;
            }
        }
        Ok(Roots { targets })
    }
}
