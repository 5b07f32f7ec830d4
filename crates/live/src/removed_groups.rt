//! The groups that a collection up to a limit deletes, one after another.
ghost use Rattle.std.specs.Prelude.{◌≡◌, ◌∷◌, ◌<◌, ◌-◌, ◌&&◌, ◌==◌, not, ℕ, Bool, List, length, map, All, IfOk, OnOk};
ghost use Rattle.std.specs.Prelude.{IfSome};
ghost use Rattle.std.specs.List.{filter, list_any, range_with_len, slice_index, sum_by};
ghost use Rattle.std.specs.Option.{option_map};
ghost use Rattle.live.specs.Graph.{Path, references_only};
ghost use Rattle.live.specs.Reach.{reaches};
ghost use Rattle.live.specs.Limited.{next_group};
ghost use Rattle.live.specs.Places.{IsPlace};
ghost use Rattle.live.specs.Remainder.{Deletes, IsRemaining, IsSized, Represents, StaysDead, StaysLeft, group_at};
ghost use Rattle.live.specs.Remainder.{is_in, left_after, nothing_owed, places_left};
ghost use Rattle.live.specs.Numbering.{Rise, Row, graph_of, numbered, path_at, paths_of};

use crate::backward::backward;
use crate::keep::Keep;
use crate::numbered::Graph;
use crate::remainder::Remaining;
use std::alloc::{AllocError, Global};

impl Remaining {
    /// The places left whose paths reach a path by references.
    fn reaching(&self, alloc: Global, graph: &Graph, place: usize) -> Result<Vec<usize>, AllocError>
        requires { IsPlace graph.now place (length self.now.left) }
        ensures inside { IfOk result (λ v. All (λ t. t < length graph.now) v.items) }
        ensures reaching { IfOk result (λ v. (rows : List Row) → Rise (paths_of rows) → graph.now ≡ numbered rows →
            v.items ≡ filter
            (λ i. is_in self.now.left i
            && reaches references_only (graph_of rows) (path_at rows i) (path_at rows place))
            (range_with_len 0 (length self.now.left))) }
    {
        let references_only = Keep {
            outputs: false,
            derivations: false,
        };
        let marks = backward(alloc, graph, references_only, &[place])?;
        let mut reaching = Vec::new(alloc);
        for other in 0..graph.len() {
            if self.left[other] {
                if marks[other] < 1 {
                    reaching.push(other)?;
                }
            }
        }
        Ok(reaching)
    }

    /// The places of the next group, if a dead path is left.
    fn next_group(&mut self, alloc: Global, graph: &Graph) -> Result<Option<Vec<usize>>, AllocError>
        requires { IsRemaining graph.now nothing_owed self.old }
        ensures same { OnOk result (StaysLeft graph.now self.old self.new) }
        ensures inside { IfOk result (λ o. IfSome o (λ v. All (λ t. t < length graph.now) v.items)) }
        ensures group { IfOk result
            (λ o. (sizes : List ℕ) (rows : List Row) (is_dead : Path → Bool) (size : Path → ℕ)
            → Represents graph.now self.old.dead sizes rows is_dead size →
            option_map (group_at rows) o
            ≡ next_group (graph_of rows) is_dead (map (path_at rows) (places_left self.old.left))) }
    {
        if let Some(place) = self.next_unreferred(graph) {
            return Ok(Some(vec![in alloc; place]?));
        }
        match self.least_dead() {
            Some(place) => Ok(Some(self.reaching(alloc, graph, place)?)),
            None => Ok(None),
        }
    }

    /// Deletes a group, and returns the number of bytes that are then still wanted.
    fn remove_all(
        &mut self,
        graph: &Graph,
        group: &[usize],
        sizes: &[u64],
        wanted: u64,
    ) -> Result<u64, AllocError>
        requires sized { IsSized graph.now sizes.now self.old }
        requires group { All (λ t. t < length graph.now) group.now }
        ensures deleted { OnOk result (Deletes graph.now (λ i. list_any (λ j. j == i) group.now) self.old self.new) }
        ensures wanted { IfOk result (λ w. w ≡ wanted - sum_by (slice_index sizes.now) group.now) }
    {
        let mut wanted = wanted;
        for place in group {
            self.remove(graph, *place)?;
            wanted = wanted.saturating_sub(sizes[*place]);
        }
        Ok(wanted)
    }

    /// Deletes the next group, if more bytes are wanted. Returns the number of bytes that are still wanted: 0 if no
    /// dead path is left.
    pub(crate) fn turn(
        &mut self,
        alloc: Global,
        graph: &Graph,
        sizes: &[u64],
        wanted: u64,
    ) -> Result<u64, AllocError>
        requires { IsSized graph.now sizes.now self.old }
        ensures dead { OnOk result (StaysDead graph.now self.old self.new) }
        ensures turn { IfOk result
            (λ w. (rows : List Row) (is_dead : Path → Bool) (size : Path → ℕ)
            → Represents graph.now self.old.dead sizes.now rows is_dead size → (turn : Path) (turns : List Path) →
            left_after (graph_of rows) is_dead size turns (map (path_at rows) (places_left self.new.left)) w
            ≡ left_after (graph_of rows) is_dead size (turn ∷ turns) (map (path_at rows) (places_left self.old.left))
            wanted) }
    {
        if wanted == 0 {
            return Ok(0);
        }
        match self.next_group(alloc, graph)? {
            Some(group) => {
                let still_wanted = self.remove_all(graph, &group, sizes, wanted)?;
                Ok(still_wanted)
            }
            None => Ok(0),
        }
    }

    /// The places that were deleted, rising.
    pub(crate) fn deleted_places(&self, alloc: Global) -> Result<Vec<usize>, AllocError>
        ensures { IfOk result
            (λ v. v.items ≡ filter (λ i. not (is_in self.now.left i)) (range_with_len 0 (length self.now.left))) }
    {
        let mut deleted_places = Vec::new(alloc);
        for place in 0..self.left.len() {
            if !self.left[place] {
                deleted_places.push(place)?;
            }
        }
        Ok(deleted_places)
    }
}
