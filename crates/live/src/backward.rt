//! What reaches some named places.
ghost use Rattle.std.specs.Prelude.{◌<◌, length, All, IfOk};
ghost use Rattle.live.specs.Keeping.{keep_view};
ghost use Rattle.live.specs.Backward.{IsBackward};

use crate::keep::Keep;
use crate::numbered::{Graph, Walker};
use crate::reversed_graph::{Kinds, turned};
use crate::walk::{RootMark, Walk};
use std::alloc::{AllocError, Global};

/// Marks each place that reaches a named one by 0, and any other by 1.
pub(crate) fn backward(
    alloc: Global,
    graph: &Graph,
    keep: Keep,
    named: &[usize],
) -> Result<Vec<usize>, AllocError>
    requires { All (λ t. t < length graph.now) named.now }
    ensures { IfOk result (λ v. IsBackward (keep_view keep) graph.now named.now v.items) }
{
    let kinds = Kinds {
        references: true,
        outputs: keep.outputs,
        derivers: keep.derivations,
    };
    let into = turned(alloc, graph, kinds)?;
    let mut walker = Walker::new();
    let mut walk = Walk::new(alloc, 1, graph.len())?;
    walk.reach_all(RootMark { root: 0, none: 1 }, named)?;
    'work: while let Some(place) = walk.next() {
        walk.reach_sources(&mut walker, into.sources_of(place), true)?;
    }
    let Walk { first, .. } = walk;
    Ok(first)
}
