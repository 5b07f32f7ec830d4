//! What a collection up to a limit has left after each step.
ghost use Rattle.std.specs.Prelude.{◌≡◌, ℕ, ◌+◌, ◌-◌, ◌<◌, ◌==◌, if◌then◌else◌, ◌∷◌, false, length, IsTrue, IfOk, OnOk};
ghost use Rattle.std.specs.Prelude.{IfSome, IfNone, is_none, slice_set};
ghost use Rattle.std.specs.List.{slice_index, slice_index_or};
ghost use Rattle.std.specs.List.Sorted.{IsPermutation};
ghost use Rattle.std.specs.BinaryHeap.{IsHeap, heap_items};
ghost use Rattle.live.specs.Places.{Entries, entries_at};
ghost use Rattle.live.specs.Marks.{first_of};
ghost use Rattle.live.specs.Remainder.{Deletes, IsNextUnreferred, IsLeastDead, IsRemaining, IsRemainingAt};
ghost use Rattle.live.specs.Remainder.{NoneUnreferred, NoneDead, Remaining, StaysLeft, at, is_in, least_first};
ghost use Rattle.live.specs.Remainder.{nothing_owed, times};

use crate::marks::Marks;
use crate::numbered::{Graph, Walker};
use crate::referrer_counts::referrers_of;
use std::alloc::{AllocError, Global};
use std::cmp::Reverse;
use std::collections::BinaryHeap;
use std::marker::Model;

/// The dead paths, and those that are left; how many references of others left there are to each; and those to which
/// there are none, the least on top. A path waits there once it has no referrer, and stays until it is met.
#[derive(Drop)]
pub(crate) struct Remaining {
    pub(crate) dead: Vec<bool>,
    pub(crate) left: Vec<bool>,
    pub(crate) referrers: Vec<usize>,
    pub(crate) ready: BinaryHeap<Reverse<usize>>,
}

impl Model for Remaining {
    ghost Value = { Remaining };

    ghost view = { λ l. record {
      dead = l.dead.items;
      left = l.left.items;
      referrers = l.referrers.items;
      ready = heap_items l.ready;
    } };
}

impl Remaining {
    /// All paths are left; those are dead that have no mark.
    pub(crate) fn new(alloc: Global, graph: &Graph, marks: &Marks) -> Result<Remaining, AllocError>
        requires { length marks.now.first ≡ length graph.now }
        ensures remaining { IfOk result (IsRemaining graph.now nothing_owed) }
        ensures left { IfOk result (λ s. (i : ℕ) → i < length graph.now → IsTrue (is_in s.left i)) }
        ensures dead { IfOk result
            (λ s. (i : ℕ) → i < length graph.now → is_in s.dead i ≡ is_none (first_of marks.now i)) }
    {
        let count = graph.len();
        let referrers = referrers_of(alloc, graph)?;
        let left = vec![in alloc; true; count]?;
        let mut dead = Vec::new(alloc);
        let mut ready = BinaryHeap::new(alloc);
        for place in 0..count {
            dead.push(marks.first_root(place).is_none())?;
            if referrers[place] == 0 {
                ready.push(Reverse(place))?;
            }
        }
        Ok(Remaining {
            dead,
            left,
            referrers,
            ready,
        })
    }

    /// A path has one reference less.
    fn lessen(&mut self, target: usize) -> Result<(), AllocError>
        requires place { target < length self.old.referrers }
        requires some { 0 < slice_index self.old.referrers target }
        ensures dead { OnOk result (self.new.dead ≡ self.old.dead) }
        ensures left { OnOk result (self.new.left ≡ self.old.left) }
        ensures referrers { OnOk result (self.new.referrers
            ≡ slice_set self.old.referrers target (slice_index self.old.referrers target - 1)) }
        ensures ready { OnOk result (IsPermutation (if slice_index self.old.referrers target == 1 then at target
            ∷ self.old.ready else self.old.ready) self.new.ready) }
        ensures ordered { OnOk result (IsHeap least_first self.old.ready → IsHeap least_first self.new.ready) }
    {
        self.referrers[target] -= 1;
        if self.referrers[target] == 0 {
            self.ready.push(Reverse(target))?;
        }
        Ok(())
    }

    /// Stops counting the references of an object that was deleted.
    fn forget(&mut self, graph: &Graph, place: usize) -> Result<(), AllocError>
        requires { IsRemainingAt graph.now (times graph.now place) place self.old }
        ensures { OnOk result (StaysLeft graph.now self.old self.new) }
    {
        let mut walker = Walker::new();
        let has = walker.object(graph, place);
        for entry in 0..has.references {
            let target = walker.entry(graph, place, entry);
            if target != place {
                self.lessen(target)?;
            }
        }
        Ok(())
    }

    /// Deletes a path, if it is left.
    pub(crate) fn remove(&mut self, graph: &Graph, place: usize) -> Result<(), AllocError>
        requires { IsRemainingAt graph.now nothing_owed place self.old }
        ensures { OnOk result (Deletes graph.now (λ i. place == i) self.old self.new) }
    {
        if !self.left[place] {
            return Ok(());
        }
        self.left[place] = false;
        self.forget(graph, place)?;
        Ok(())
    }

    /// The first dead path left, in path order, to which no other path left refers.
    pub(crate) fn next_unreferred(&mut self, graph: &Graph) -> Option<usize>
        requires { IsRemaining graph.now nothing_owed self.old }
        ensures same { StaysLeft graph.now self.old self.new }
        ensures some { IfSome result (IsNextUnreferred self.new) }
        ensures none { IfNone result (NoneUnreferred self.new) }
    {
        'search: while let Some(top) = self.ready.peek() {
            let place = top.0;
            if self.left[place] && self.dead[place] {
                return Some(place);
            }
            let _ = self.ready.pop();
        }
        None
    }

    /// The first dead path left, in path order.
    pub(crate) fn least_dead(&self) -> Option<usize>
        requires { length self.now.dead ≡ length self.now.left }
        ensures some { IfSome result (IsLeastDead self.now) }
        ensures none { IfNone result (NoneDead self.now) }
    {
        for place in 0..self.left.len() {
            if self.left[place] && self.dead[place] {
                return Some(place);
            }
        }
        None
    }
}
