//! All roots, as a set and as a list.
ghost use Rattle.std.specs.Prelude.{◌≡◌, ◌++◌, IfOk, OnOk, map};
ghost use Rattle.std.specs.List.{flat_map};
ghost use Rattle.std.specs.FinMap as finite;
ghost use Rattle.paths.specs.Root.{root_cmp, set_of};
ghost use Rattle.model.specs.World.{generation_root, generation_roots, explicit_roots, permanent_root, runtime_root};
ghost use Rattle.model.specs.World.{runtime_roots, temporary_root, temporary_roots, user_root, roots_of};
ghost use Rattle.tables_outline.specs.View.{profile_view};
ghost use Rattle.tables_outline.specs.Maps.{pair_bytes};
ghost use Rattle.tables_outline.specs.Gaining.{Gains};
ghost use Rattle.tables_outline.specs.Rooted.{rooted};
ghost use Rattle.tables_outline.specs.RootSet.{root_set};
ghost use Rattle.paths.specs.RootView.{root_view};

use crate::labels::{generation_label, permanent_label, temporary_label, user_label};
use crate::outline::Outline;
use crate::profiles::Profile;
use crate::root::add;
use paths::{Root, RootKind};
use std::alloc::{AllocError, Global};
use std::collections::BTreeSet;

fn add_generations(
    alloc: Global,
    roots: &mut BTreeSet<Root>,
    owned: &(String, String),
    profile: &Profile,
) -> Result<(), AllocError>
    ensures { OnOk result
        (Gains root_cmp (root_set roots.old.keys)
        (map (generation_root (pair_bytes owned.now)) (finite.entries (profile_view profile.now).generations))
        (root_set roots.new.keys)) }
{
    for (number, path) in profile.generations.iter() {
        let owner = owned.0.as_str();
        let name = owned.1.as_str();
        let label = generation_label(alloc, owner, name, *number)?;
        add(roots, RootKind::Profile, path, label)?;
    }
    Ok(())
}

fn add_permanent(
    alloc: Global,
    roots: &mut BTreeSet<Root>,
    outline: &Outline,
) -> Result<(), AllocError>
    ensures { OnOk result
        (Gains root_cmp (root_set roots.old.keys) (map permanent_root (finite.entries outline.now.permanent))
        (root_set roots.new.keys)) }
{
    for (name, path) in outline.permanent_roots().iter() {
        let label = permanent_label(alloc, name.as_str())?;
        add(roots, RootKind::Permanent, path, label)?;
    }
    Ok(())
}

fn add_users(alloc: Global, roots: &mut BTreeSet<Root>, outline: &Outline) -> Result<(), AllocError>
    ensures { OnOk result
        (Gains root_cmp (root_set roots.old.keys) (map user_root (finite.entries outline.now.user_roots))
        (root_set roots.new.keys)) }
{
    for (owned, path) in outline.user_roots().iter() {
        let owner = owned.0.as_str();
        let name = owned.1.as_str();
        let label = user_label(alloc, owner, name)?;
        add(roots, RootKind::User, path, label)?;
    }
    Ok(())
}

fn add_profiles(
    alloc: Global,
    roots: &mut BTreeSet<Root>,
    outline: &Outline,
) -> Result<(), AllocError>
    ensures { OnOk result
        (Gains root_cmp (root_set roots.old.keys) (flat_map generation_roots (finite.entries outline.now.profiles))
        (root_set roots.new.keys)) }
{
    for (owned, profile) in outline.profiles().iter() {
        add_generations(alloc, roots, owned, profile)?;
    }
    Ok(())
}

fn add_runtime(roots: &mut BTreeSet<Root>, outline: &Outline) -> Result<(), AllocError>
    ensures { OnOk result
        (Gains root_cmp (root_set roots.old.keys) (map runtime_root (finite.keys outline.now.runtime))
        (root_set roots.new.keys)) }
{
    for pair in outline.runtime_roots().iter() {
        add(roots, RootKind::Runtime, &pair.1, pair.0.clone()?)?;
    }
    Ok(())
}

fn add_temporary(
    alloc: Global,
    roots: &mut BTreeSet<Root>,
    outline: &Outline,
) -> Result<(), AllocError>
    ensures { OnOk result
        (Gains root_cmp (root_set roots.old.keys) (map temporary_root (finite.keys outline.now.temporary))
        (root_set roots.new.keys)) }
{
    for kept in outline.temporary_roots().iter() {
        let label = temporary_label(alloc, kept.1)?;
        add(roots, RootKind::Temporary, &kept.2, label)?;
    }
    Ok(())
}

/// All roots, in their order.
pub(crate) fn all_roots(alloc: Global, outline: &Outline) -> Result<BTreeSet<Root>, AllocError>
    ensures { IfOk result
        (λ r. root_set r.keys
        ≡ set_of root_cmp (explicit_roots (rooted outline.now) ++ runtime_roots (rooted outline.now)
        ++ temporary_roots (rooted outline.now))) }
{
    let mut roots = BTreeSet::new(alloc);
    add_permanent(alloc, &mut roots, outline)?;
    add_users(alloc, &mut roots, outline)?;
    add_profiles(alloc, &mut roots, outline)?;
    add_runtime(&mut roots, outline)?;
    add_temporary(alloc, &mut roots, outline)?;
    Ok(roots)
}

/// All roots of an outline, each once, in the order of roots. The only error is that memory was refused.
pub fn root_list(alloc: Global, outline: &Outline) -> Result<Vec<Root>, AllocError>
    ensures { IfOk result (λ v. map root_view v.items ≡ roots_of (rooted outline.now)) }
{
    let roots = all_roots(alloc, outline)?;
    let mut listed = Vec::new(alloc);
    for root in roots {
        listed.push(root)?;
    }
    Ok(listed)
}
