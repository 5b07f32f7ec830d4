//! The marking walk.
ghost use Rattle.std.specs.Prelude.{◌≡◌, ◌<◌, List, length, All, IfOk};
ghost use Rattle.live.specs.Keeping.{keep_view};
ghost use Rattle.live.specs.Marks.{IsMarking, Marking, first_of};
ghost use Rattle.paths.specs.Root.{Root};
ghost use Rattle.live.specs.Numbering.{IsAimed, Rise, RootsRise, Row, numbered, paths_of};
ghost use Rattle.live.specs.Exact.{IsExact};

use crate::keep::Keep;
use crate::numbered::{Graph, Roots, Walker};
use crate::walk::{RootMark, Walk};
use std::alloc::{AllocError, Global};
use std::marker::Model;

/// What a walk found: for each place its first root, and the steps that it took.
#[derive(Drop)]
pub struct Marks {
    first: Vec<usize>,
    none: usize,
    steps: u64,
}

impl Model for Marks {
    ghost Value = { Marking };

    ghost view = { λ m. record { first = m.first.items; none = m.none; steps = m.steps } };
}

impl Marks {
    /// The place of the first root that reaches a path, or `None` if the path is dead.
    ///
    /// ```rust
    /// use live::{Graph, Keep, Roots, Row};
    /// use paths::StorePath;
    ///
    /// let path = StorePath::from_base(alloc, "00000000000000000000000000000000-p")?;
    /// let rows = [Row { path: &path, references: &[], outputs: &[], deriver: None }];
    /// let graph = Graph::new(alloc, &rows)?;
    /// let keep = Keep { outputs: false, derivations: false };
    /// let marks = live::mark(alloc, &graph, &Roots::new(alloc, &rows, &[])?, keep)?;
    /// assert_eq!(rt; marks.first_root(0), None);
    /// ```
    pub fn first_root(&self, place: usize) -> Option<usize>
        requires { place < length self.now.first }
        ensures { result ≡ first_of self.now place }
    {
        let root = self.first[place];
        if root < self.none { Some(root) } else { None }
    }

    /// How many steps the walk took: roots, objects and entries that were read.
    ///
    /// ```rust
    /// use live::{Graph, Keep, Roots};
    ///
    /// let keep = Keep { outputs: false, derivations: false };
    /// let marks = live::mark(alloc, &Graph::new(alloc, &[])?, &Roots::new(alloc, &[], &[])?, keep)?;
    /// assert_eq!(rt; marks.steps(), 0);
    /// ```
    pub fn steps(&self) -> u64
        ensures { result ≡ self.now.steps }
    {
        self.steps
    }
}

/// Marks each live path with the first root that reaches it.
///
/// ```rust
/// use live::{Graph, Keep, Root, Roots, Row};
/// use paths::{RootKind, StorePath};
///
/// let path = StorePath::from_base(alloc, "00000000000000000000000000000000-p")?;
/// let rows = [Row { path: &path, references: &[], outputs: &[], deriver: None }];
/// let graph = Graph::new(alloc, &rows)?;
/// let roots = Roots::new(alloc, &rows, &[Root { kind: RootKind::User, target: &path, label: "ann/p" }])?;
/// let keep = Keep { outputs: false, derivations: true };
/// assert_eq!(rt; live::mark(alloc, &graph, &roots, keep)?.first_root(0), Some(0));
/// ```
pub fn mark(alloc: Global, graph: &Graph, roots: &Roots, keep: Keep) -> Result<Marks, AllocError>
    requires { All (λ t. t < length graph.now) roots.now }
    ensures places { IfOk result (IsMarking (keep_view keep) graph.now roots.now) }
    ensures paths { IfOk result
        (λ m. (rows : List Row) (given : List Root) → Rise (paths_of rows) → RootsRise given → graph.now ≡ numbered rows
        → IsAimed rows given roots.now → IsExact (keep_view keep) rows given m) }
{
    let none = roots.len();
    let mut walk = Walk::new(alloc, none, graph.len())?;
    let mut walker = Walker::new();
    'roots: for root in 0..none {
        let target = walker.root(roots, root);
        walk.reach(RootMark { root, none }, target)?;
        'work: while let Some(place) = walk.next() {
            walk.take(&mut walker, graph, keep, RootMark { root, none }, place)?;
        }
    }
    let Walk { first, .. } = walk;
    Ok(Marks {
        first,
        none,
        steps: walker.steps(),
    })
}
