//! Links between one source and targets.

ghost use Rattle.std.specs.Prelude.{[], ◌∷◌, option_map, OnOk};
ghost use Rattle.live.specs.Graph.{listed};
ghost use Rattle.tables_outline.specs.Links.{AreCleared, AreLinked, AreUnlinked, IsReady};

use crate::link_flags::Flags;
use crate::link_lists::Lists;
use crate::link_names::Names;
use paths::StorePath;
use std::alloc::{AllocError, Global};

/// Links a source to a target.
fn link(
    alloc: Global,
    names: &mut Names,
    lists: &mut Lists,
    target: &StorePath,
    source: u32,
) -> Result<(), AllocError>
    ensures { OnOk result (IsReady names.old lists.old source
        → AreLinked names.old names.new lists.old lists.new source (target.now ∷ [])) }
{
    let number = names.number(target)?;
    lists.push(alloc, number, source)?;
    Ok(())
}

/// Links a source to targets.
pub(crate) fn link_all(
    alloc: Global,
    names: &mut Names,
    lists: &mut Lists,
    targets: &[StorePath],
    source: u32,
) -> Result<(), AllocError>
    ensures { OnOk result (IsReady names.old lists.old source
        → AreLinked names.old names.new lists.old lists.new source targets.now) }
{
    for target in targets {
        link(alloc, names, lists, target, source)?;
    }
    Ok(())
}

/// Links a source to a target, if there is one.
pub(crate) fn link_if(
    alloc: Global,
    names: &mut Names,
    lists: &mut Lists,
    target: Option<&StorePath>,
    source: u32,
) -> Result<(), AllocError>
    ensures { OnOk result (IsReady names.old lists.old source
        → AreLinked names.old names.new lists.old lists.new source (listed (option_map (λ p. p.now) target.entry))) }
{
    match target {
        Some(path) => link(alloc, names, lists, path, source),
        None => Ok(()),
    }
}

/// Unlinks a source from a target. It takes no memory.
fn unlink(names: &Names, lists: &mut Lists, target: &StorePath, source: u32)
    ensures { AreUnlinked names.now lists.old lists.new source (target.now ∷ []) }
{
    match names.find(target) {
        Some(number) => lists.forget(number, source),
        None => {}
    }
}

/// Unlinks a source from targets. It takes no memory.
pub(crate) fn unlink_all(names: &Names, lists: &mut Lists, targets: &[StorePath], source: u32)
    ensures { AreUnlinked names.now lists.old lists.new source targets.now }
{
    for target in targets {
        unlink(names, lists, target, source);
    }
}

/// Unlinks a source from a target, if there is one. It takes no memory.
pub(crate) fn unlink_if(names: &Names, lists: &mut Lists, target: Option<&StorePath>, source: u32)
    ensures { AreUnlinked names.now lists.old lists.new source (listed (option_map (λ p. p.now) target.entry)) }
{
    match target {
        Some(path) => unlink(names, lists, path, source),
        None => {}
    }
}

/// Takes the flag of a path. It takes no memory.
fn clear(names: &Names, held: &mut Flags, path: &StorePath)
    ensures { AreCleared names.now held.old held.new (path.now ∷ []) }
{
    match names.find(path) {
        Some(number) => held.clear(number),
        None => {}
    }
}

/// Takes the flags of paths. It takes no memory.
pub(crate) fn clear_all(names: &Names, held: &mut Flags, paths: &[StorePath])
    ensures { AreCleared names.now held.old held.new paths.now }
{
    for path in paths {
        clear(names, held, path);
    }
}
