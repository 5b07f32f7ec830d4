//! Roots as a caller sees them.
ghost use Rattle.std.specs.Prelude.{◌≡◌, not, ◌&&◌, if◌then◌else◌, [], ◌∷◌, ◌++◌, List, ℕ, String, map, string_bytes};
ghost use Rattle.std.specs.Prelude.{IfOk, OnOk};
ghost use Rattle.std.specs.declared.alloc.Global.{Global};
ghost use Rattle.std.specs.List.{list_any};
ghost use Rattle.paths.specs.Root.{Root as TheRoot};
ghost use Rattle.policy.specs.Rules as rules;
ghost use Rattle.live.specs.Arguments.{root_view, roots_view};
ghost use Rattle.paths.specs.RootView.{kind_view};
ghost use Rattle.tables_outline.specs.Maps.{labelled_bytes};
ghost use Rattle.model.specs.Seen as spec;
ghost use Rattle.store_reach.specs.Unique.{AreListed};
ghost use Rattle.model.specs.World.{World, roots_of};
ghost use Rattle.tables_outline.specs.Outline.{outline_of};
ghost use Rattle.model.specs.Seen.{seen as seen_by};

use crate::graph::borrowed_roots;
use live::Root;
use paths::{RootKind, StorePath};
use policy::Class;
use std::alloc::{AllocError, Global};
use std::collections::BTreeSet;
use tables_outline::{Outline, root_list};

fn is_trusted(class: Class) -> bool
    ensures { result ≡ rules.is_trusted class }
{
    matches!(class, Class::Trusted)
}

fn is_hidden(kind: RootKind) -> bool
    ensures { result ≡ spec.is_hidden (kind_view kind) }
{
    matches!(kind, RootKind::Runtime | RootKind::Temporary)
}

fn seen_label(alloc: Global, class: Class, root: Root) -> Result<String, AllocError>
    ensures { IfOk result (λ l. string_bytes l ≡ (spec.seen_root class (root_view root.entry)).0) }
{
    if is_trusted(class) {
        return String::from_str(alloc, root.label);
    }
    if is_hidden(root.kind) {
        return String::from_str(alloc, "{censored}");
    }
    String::from_str(alloc, root.label)
}

/// The label and the target of a root, as a caller of a class sees them.
pub(crate) fn seen_root(
    alloc: Global,
    class: Class,
    root: Root,
) -> Result<(String, StorePath), AllocError>
    ensures { IfOk result (λ p. labelled_bytes p ≡ spec.seen_root class (root_view root.entry)) }
{
    let label = seen_label(alloc, class, root)?;
    let target = root.target.clone()?;
    Ok((label, target))
}

/// Notes that a pair is listed, and returns whether it is to be listed: the first time, and for trusted callers every
/// time.
fn note(
    class: Class,
    reported: &mut BTreeSet<(String, StorePath)>,
    pair: &(String, StorePath),
) -> Result<bool, AllocError>
    ensures first { IfOk result
        (λ b. (shown : List (String Global × List ℕ)) → AreListed class reported.old.keys shown
        → not b ≡ (not (rules.is_trusted class) && list_any
        (λ q. spec.same_pair q (labelled_bytes pair.now)) (map labelled_bytes shown))) }
    ensures reported { IfOk result
        (λ b. (shown : List (String Global × List ℕ)) → AreListed class reported.old.keys shown
        → AreListed class reported.new.keys (if b then shown ++ pair.now ∷ [] else shown)) }
{
    if is_trusted(class) {
        return Ok(true);
    }
    let label = pair.0.clone()?;
    let target = pair.1.clone()?;
    let is_first = reported.insert((label, target))?;
    Ok(is_first)
}

fn show(
    alloc: Global,
    class: Class,
    reported: &mut BTreeSet<(String, StorePath)>,
    shown: &mut Vec<(String, StorePath)>,
    root: Root,
) -> Result<(), AllocError>
    ensures reported { OnOk result (AreListed class reported.old.keys shown.old.items
        → AreListed class reported.new.keys shown.new.items) }
    ensures shown { OnOk result ((before : List TheRoot) → AreListed class reported.old.keys shown.old.items
        → map labelled_bytes shown.old.items ≡ spec.seen class before
        → map labelled_bytes shown.new.items ≡ spec.seen class (before ++ root_view root.entry ∷ [])) }
{
    let pair = seen_root(alloc, class, root)?;
    let is_first = note(class, reported, &pair)?;
    if is_first {
        shown.push(pair)?;
    }
    Ok(())
}

/// Roots in their order, as a caller of a class sees them.
pub(crate) fn seen(
    alloc: Global,
    class: Class,
    roots: &[Root],
) -> Result<Vec<(String, StorePath)>, AllocError>
    ensures { IfOk result (λ v. map labelled_bytes v.items ≡ spec.seen class (roots_view roots.now)) }
{
    let mut reported = BTreeSet::new(alloc);
    let mut shown = Vec::new(alloc);
    for root in roots {
        show(alloc, class, &mut reported, &mut shown, *root)?;
    }
    Ok(shown)
}

/// All roots in their order, each its label and its target, as a caller of a class sees them.
pub fn seen_roots(
    alloc: Global,
    class: Class,
    outline: &Outline,
) -> Result<Vec<(String, StorePath)>, AllocError>
    ensures { IfOk result
        (λ v. (w : World) → outline_of w ≡ outline.now → map labelled_bytes v.items ≡ seen_by class (roots_of w)) }
{
    let roots = root_list(alloc, outline)?;
    let given = borrowed_roots(alloc, &roots)?;
    seen(alloc, class, &given)
}
