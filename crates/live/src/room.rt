//! How much room the lists of sources take.
ghost use Rattle.std.specs.Prelude.{◌≡◌, length, IfOk};
ghost use Rattle.live.specs.Places.{IsPlace};

use crate::numbered::{Graph, Walker};
use std::alloc::{AllocError, Global};

/// An object's entries take room at their targets.
fn add_room(room: &mut Vec<usize>, walker: &mut Walker, graph: &Graph, place: usize)
    requires { IsPlace graph.now place (length room.old.items) }
    ensures { length room.new.items ≡ length graph.now }
{
    let has = walker.object(graph, place);
    for entry in 0..has.all {
        let target = walker.entry(graph, place, entry);
        room[target] = room[target].saturating_add(1);
    }
}

/// For each place how many entries there are to it, of all kinds.
pub(crate) fn room_of(alloc: Global, graph: &Graph) -> Result<Vec<usize>, AllocError>
    ensures { IfOk result (λ v. length v.items ≡ length graph.now) }
{
    let count = graph.len();
    let mut room = vec![in alloc; 0; count]?;
    let mut walker = Walker::new();
    for place in 0..count {
        add_room(&mut room, &mut walker, graph, place);
    }
    Ok(room)
}
