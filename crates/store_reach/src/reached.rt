//! What reaches named paths, by a walk back from these over links that are kept turned round.
//!
//! One walk from many paths reads each object and each link at most once, so it is never longer than marking, which
//! reads all of them to find what lives.

ghost use Rattle.std.specs.Prelude.{◌≡◌, ◌<◌, All, IfOk, List, filter, length, map};
ghost use Rattle.std.specs.FinMap as finite;
ghost use Rattle.std.specs.List.Sorted.{IsStrictlySortedBy};
ghost use Rattle.paths.specs.Root.{bytes_cmp};
ghost use Rattle.paths.specs.RootView.{root_view};
ghost use Rattle.live.specs.Arguments.{roots_view};
ghost use Rattle.live.specs.Graph.{Graph, Keep as Kept, Path, holds};
ghost use Rattle.live.specs.Keeping.{keep_view};
ghost use Rattle.live.specs.Reaching.{reaches_any};
ghost use Rattle.tables_outline.specs.Links.{AreLinksOf};
ghost use Rattle.tables_outline.specs.LinkNames.{name_at};
ghost use Rattle.store_reach.specs.Reached.{AreNumbersOf, IsFound};

use crate::graph::borrowed;
use live::{Keep, Reaching, walk_back};
use paths::{Root, StorePath};
use std::alloc::{AllocError, Global};
use std::collections::BTreeSet;
use tables_outline::Links;

/// The numbers of those of some paths that are objects'.
fn numbers_of(alloc: Global, links: &Links, named: &[StorePath]) -> Result<Vec<usize>, AllocError>
    ensures { IfOk result (λ v. AreNumbersOf links.now named.now v.items) }
{
    let mut numbers = Vec::new(alloc);
    for path in named {
        let Some(number) = links.find(path) else {
            continue;
        };
        numbers.push(number)?;
    }
    Ok(numbers)
}

/// What reaches one of some paths.
pub(crate) fn reached(
    alloc: Global,
    links: &Links,
    keep: Keep,
    named: &[StorePath],
) -> Result<Reaching, AllocError>
    ensures count { IfOk result (λ r. length r.marks ≡ length links.now.names) }
    ensures found { IfOk result
        (λ r. (g : Graph) → AreLinksOf (finite.get g) links.now → IsFound (keep_view keep) g links.now named.now r) }
{
    links.are_numbers();
    let numbers = numbers_of(alloc, links, named)?;
    walk_back(alloc, links, keep, &numbers)
}

/// Whether the walk found a path.
fn is_found(links: &Links, reaching: &Reaching, path: &StorePath) -> bool
    requires { length reaching.now.marks ≡ length links.now.names }
    ensures { (keep : Kept) (g : Graph) (named : List Path) → AreLinksOf (finite.get g) links.now
        → IsFound keep g links.now named reaching.now → result ≡ reaches_any keep g named path.now }
{
    match links.find(path) {
        Some(number) => reaching.has(number),
        None => false,
    }
}

/// The roots of a list whose targets the walk found, borrowed from it.
pub(crate) fn roots_found<'a>(
    alloc: Global,
    links: &Links,
    reaching: &Reaching,
    roots: &'a [Root],
) -> Result<Vec<live::Root<'a>>, AllocError>
    requires { length reaching.now.marks ≡ length links.now.names }
    ensures { IfOk result
        (λ v. (keep : Kept) (g : Graph) (named : List Path) → AreLinksOf (finite.get g) links.now
        → IsFound keep g links.now named reaching.now
        → roots_view v.items ≡ filter (λ r. reaches_any keep g named r.target) (map root_view roots.now)) }
{
    let mut found = Vec::new(alloc);
    for root in roots {
        if is_found(links, reaching, &root.target) {
            found.push(borrowed(root))?;
        }
    }
    Ok(found)
}

/// The paths of some numbers, in order.
fn ordered(alloc: Global, links: &Links, numbers: &[usize]) -> Result<Vec<StorePath>, AllocError>
    requires { All (λ i. i < length links.now.names) numbers.now }
    ensures rise { IfOk result (λ v. IsStrictlySortedBy bytes_cmp v.items) }
    ensures those { IfOk result
        (λ v. (p : Path) → holds v.items p ≡ holds (map (name_at links.now.names) numbers.now) p) }
{
    let mut paths = BTreeSet::new(alloc);
    for number in numbers {
        paths.insert(links.path(*number).clone()?)?;
    }
    paths.into_iter().collect(alloc)
}

/// The paths that the walk found, in order.
pub(crate) fn paths_found(
    alloc: Global,
    links: &Links,
    reaching: &Reaching,
) -> Result<Vec<StorePath>, AllocError>
    requires { length reaching.now.marks ≡ length links.now.names }
    ensures { IfOk result
        (λ v. (keep : Kept) (g : Graph) (named : List Path) → AreLinksOf (finite.get g) links.now
        → IsFound keep g links.now named reaching.now → v.items ≡ filter (reaches_any keep g named) (finite.keys g)) }
{
    links.are_numbers();
    let numbers = reaching.places(alloc)?;
    let paths = ordered(alloc, links, &numbers)?;
    Ok(paths)
}
