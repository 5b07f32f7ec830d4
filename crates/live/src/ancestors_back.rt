//! The roots that reach a path, and the paths that refer to some paths, by walks from these against the edges. They
//! read the roots and what reaches the paths, and nothing else.
ghost use Rattle.std.specs.Prelude.{◌≡◌, ◌<◌, ℕ, List, length, filter, map, option_map, All, IfOk, IsTrue};
ghost use Rattle.std.specs.List.{range_with_len};
ghost use Rattle.paths.specs.Root.{Root};
ghost use Rattle.live.specs.Graph.{Graph, Path, is_valid};
ghost use Rattle.live.specs.Keeping.{keep_view};
ghost use Rattle.live.specs.Live.{first_root, roots_that_reach};
ghost use Rattle.live.specs.Numbering.{RootsRise, root_at};
ghost use Rattle.live.specs.Reach.{reaches, refers_to_any};
ghost use Rattle.live.specs.Reaching.{AreNumbers, AreTargets, AreUsed};

use crate::back_walk::walk_back;
use crate::keep::Keep;
use crate::numbered::Roots;
use crate::turned_links::Sources;
use std::alloc::{AllocError, Global};

/// The places of all roots that reach a path, rising, as `roots_of` finds them.
///
/// ```rust
/// use live::{Graph, Keep, Root, Roots, Row, TurnedLinks};
/// use paths::{RootKind, StorePath};
///
/// let path = StorePath::from_base(alloc, "00000000000000000000000000000000-p")?;
/// let rows = [Row { path: &path, references: &[], outputs: &[], deriver: None }];
/// let graph = Graph::new(alloc, &rows)?;
/// let links = TurnedLinks::new(alloc, &graph)?;
/// let root = |label| Root { kind: RootKind::Runtime, target: &path, label };
/// let roots = Roots::new(alloc, &rows, &[root("a"), root("b")])?;
/// let keep = Keep { outputs: true, derivations: true };
/// assert_eq!(rt; live::roots_back(alloc, &links, &roots, keep, 0)?.as_slice(), [0, 1].as_slice());
/// ```
pub fn roots_back<S: Sources>(
    alloc: Global,
    links: &S,
    roots: &Roots,
    keep: Keep,
    place: usize,
) -> Result<Vec<usize>, AllocError>
    requires place { place < length (S.entries links.now) }
    requires targets { All (λ t. t < length (S.entries links.now)) roots.now }
    ensures places { IfOk result
        (λ v. (g : Graph) (name : ℕ → Path) (given : List Root) → AreNumbers g (S.entries links.now) name
        → AreTargets name given roots.now → IsTrue (is_valid g (name place)) →
        v.items ≡ filter
        (λ k. reaches (keep_view keep) g (root_at given k).target (name place))
        (range_with_len 0 (length given))) }
    ensures roots { IfOk result
        (λ v. (g : Graph) (name : ℕ → Path) (given : List Root) → AreNumbers g (S.entries links.now) name
        → AreTargets name given roots.now → IsTrue (is_valid g (name place)) →
        map (root_at given) v.items ≡ roots_that_reach (keep_view keep) g given (name place)) }
{
    let reaching = walk_back(alloc, links, keep, &[place])?;
    let found = reaching.roots(alloc, roots)?;
    Ok(found)
}

/// The place of the first root that reaches a path, as `mark` finds it. `None` if the path is dead.
///
/// ```rust
/// use live::{Graph, Keep, Root, Roots, Row, TurnedLinks};
/// use paths::{RootKind, StorePath};
///
/// let path = StorePath::from_base(alloc, "00000000000000000000000000000000-p")?;
/// let rows = [Row { path: &path, references: &[], outputs: &[], deriver: None }];
/// let graph = Graph::new(alloc, &rows)?;
/// let links = TurnedLinks::new(alloc, &graph)?;
/// let root = |label| Root { kind: RootKind::Runtime, target: &path, label };
/// let roots = Roots::new(alloc, &rows, &[root("a"), root("b")])?;
/// let keep = Keep { outputs: true, derivations: true };
/// assert_eq!(rt; live::first_root_back(alloc, &links, &roots, keep, 0)?, Some(0));
/// ```
pub fn first_root_back<S: Sources>(
    alloc: Global,
    links: &S,
    roots: &Roots,
    keep: Keep,
    place: usize,
) -> Result<Option<usize>, AllocError>
    requires place { place < length (S.entries links.now) }
    requires targets { All (λ t. t < length (S.entries links.now)) roots.now }
    ensures { IfOk result
        (λ k. (g : Graph) (name : ℕ → Path) (given : List Root) → AreNumbers g (S.entries links.now) name
        → RootsRise given → AreTargets name given roots.now → IsTrue (is_valid g (name place)) →
        option_map (root_at given) k ≡ first_root (keep_view keep) g given (name place)) }
{
    let reaching = walk_back(alloc, links, keep, &[place])?;
    Ok(reaching.first_root(roots))
}

/// The numbers of the named paths and of all that reach them by references alone, rising, as `referrers` finds them.
///
/// ```rust
/// use live::{Graph, Row, TurnedLinks};
/// use paths::StorePath;
///
/// let first = StorePath::from_base(alloc, "00000000000000000000000000000000-p")?;
/// let second = StorePath::from_base(alloc, "11111111111111111111111111111111-x")?;
/// let references = [first.clone()?];
/// let p = Row { path: &first, references: &[], outputs: &[], deriver: None };
/// let x = Row { path: &second, references: &references, outputs: &[], deriver: None };
/// let graph = Graph::new(alloc, &[p, x])?;
/// let links = TurnedLinks::new(alloc, &graph)?;
/// assert_eq!(rt; live::referrers_back(alloc, &links, &[0])?.as_slice(), [0, 1].as_slice());
/// ```
pub fn referrers_back<S: Sources>(
    alloc: Global,
    links: &S,
    named: &[usize],
) -> Result<Vec<usize>, AllocError>
    requires { All (λ t. t < length (S.entries links.now)) named.now }
    ensures { IfOk result
        (λ v. (g : Graph) (name : ℕ → Path) → AreNumbers g (S.entries links.now) name → AreUsed g name named.now →
        v.items ≡ filter (λ i. refers_to_any g (map name named.now) (name i))
        (range_with_len 0 (length (S.entries links.now)))) }
{
    let references_only = Keep {
        outputs: false,
        derivations: false,
    };
    let reaching = walk_back(alloc, links, references_only, named)?;
    let found = reaching.places(alloc)?;
    Ok(found)
}
