//! The marks of a walk, and what waits.
ghost use Rattle.std.specs.Prelude.{◌≡◌, ◌<◌, length, replicate, false, All, IfNone, IfOk, IfSome, OnOk};
ghost use Rattle.live.specs.Marks.{Frontier, IsDone, IsTaken, all_reached, reached};

use crate::queue::Waiting;
use std::alloc::{AllocError, Global};
use std::marker::Model;

/// The mark of a root, which is its place among the roots. From `none` on, a mark means that a path has no root.
#[derive(Clone, Copy)]
pub(crate) struct RootMark {
    pub(crate) root: usize,
    pub(crate) none: usize,
}

/// The marks so far, and the marked places whose objects have still to be visited.
#[derive(Drop)]
pub(crate) struct Walk {
    pub(crate) first: Vec<usize>,
    pub(crate) waiting: Waiting,
}

impl Model for Walk {
    ghost Value = { Frontier };

    ghost view = { λ w. record { first = w.first.items; waiting = w.waiting.waiting } };

    ghost invariant = { λ w. length w.waiting.waiting ≡ length w.first.items };
}

impl Walk {
    /// A number of places, each with this mark, none of which waits.
    pub(crate) fn new(alloc: Global, mark: usize, count: usize) -> Result<Walk, AllocError>
        ensures first { IfOk result (λ w. w.first ≡ replicate count mark) }
        ensures waiting { IfOk result (λ w. w.waiting ≡ replicate count false) }
    {
        Ok(Walk {
            first: vec![in alloc; mark; count]?,
            waiting: Waiting::new(alloc, count)?,
        })
    }

    /// A place is reached: if it has no mark, it is marked, and waits.
    pub(crate) fn reach(&mut self, mark: RootMark, place: usize) -> Result<(), AllocError>
        requires { place < length self.old.first }
        ensures { OnOk result (self.new ≡ reached mark.none mark.root self.old place) }
    {
        if self.first[place] >= mark.none {
            self.first[place] = mark.root;
            self.waiting.put(place)?;
        }
        Ok(())
    }

    /// Places are reached, one after another.
    pub(crate) fn reach_all(&mut self, mark: RootMark, places: &[usize]) -> Result<(), AllocError>
        requires { All (λ t. t < length self.old.first) places.now }
        ensures { OnOk result (self.new ≡ all_reached mark.none mark.root self.old places.now) }
    {
        for place in places {
            self.reach(mark, *place)?;
        }
        Ok(())
    }

    /// A place that waits no longer.
    pub(crate) fn next(&mut self) -> Option<usize>
        ensures some { IfSome result (IsTaken self.old self.new) }
        ensures none { IfNone result (IsDone self.old self.new) }
    {
        self.waiting.next()
    }
}
