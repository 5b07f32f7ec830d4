//! Roots in their order.

ghost use Rattle.std.specs.Prelude.{[], ◌∷◌, OnOk, string_bytes};
ghost use Rattle.paths.specs.Root.{root_cmp};
ghost use Rattle.paths.specs.RootView.{kind_view};
ghost use Rattle.tables_outline.specs.Gaining.{Gains};
ghost use Rattle.tables_outline.specs.RootSet.{root_set};

use paths::{Root, RootKind, StorePath};
use std::alloc::AllocError;
use std::collections::BTreeSet;

/// Puts a root among the others.
pub(crate) fn add(
    roots: &mut BTreeSet<Root>,
    kind: RootKind,
    target: &StorePath,
    label: String,
) -> Result<(), AllocError>
    ensures { OnOk result
        (Gains root_cmp (root_set roots.old.keys)
        (record { kind = kind_view kind; target = target.now; label = string_bytes label } ∷ [])
        (root_set roots.new.keys)) }
{
    let target = target.clone()?;
    roots.insert(Root {
        kind,
        target,
        label,
    })?;
    Ok(())
}
