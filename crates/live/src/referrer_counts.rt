//! How many references there are to each path.
ghost use Rattle.std.specs.Prelude.{◌≡◌, ℕ, ◌+◌, ◌<◌, length, IfOk, OnOk, vec_len};
ghost use Rattle.std.specs.List.{slice_index, sum_by, range_with_len};
ghost use Rattle.live.specs.Places.{IsPlace};
ghost use Rattle.live.specs.Remainder.{times};

use crate::numbered::{Graph, Walker};
use std::alloc::{AllocError, Global};

/// The references of an object to others are counted at their targets.
fn count(
    referrers: &mut Vec<usize>,
    walker: &mut Walker,
    graph: &Graph,
    place: usize,
) -> Result<(), AllocError>
    requires { IsPlace graph.now place (length referrers.old.items) }
    ensures places { OnOk result (length referrers.new.items ≡ length graph.now) }
    ensures counted { OnOk result ((t : ℕ) → t < length graph.now
        → slice_index referrers.new.items t ≡ slice_index referrers.old.items t + times graph.now place t) }
{
    let has = walker.object(graph, place);
    for entry in 0..has.references {
        let target = walker.entry(graph, place, entry);
        if target != place {
            // No more entries than numbers fit memory.
            referrers[target] = referrers[target].checked_add(1).ok_or(AllocError)?;
        }
    }
    Ok(())
}

/// The number of references from others to each path; an entry that is listed twice counts twice.
pub(crate) fn referrers_of(alloc: Global, graph: &Graph) -> Result<Vec<usize>, AllocError>
    ensures places { IfOk result (λ v. length v.items ≡ length graph.now) }
    ensures counted { IfOk result
        (λ v. (t : ℕ) → t < length graph.now
        → slice_index v.items t ≡ sum_by (λ q. times graph.now q t) (range_with_len 0 (length graph.now))) }
{
    let count_of_places = graph.len();
    let mut referrers = vec![in alloc; 0; count_of_places]?;
    let mut walker = Walker::new();
    for place in 0..count_of_places {
        count(&mut referrers, &mut walker, graph, place)?;
    }
    Ok(referrers)
}
