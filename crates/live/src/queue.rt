//! What waits to be visited by a walk, a block of neighbours at a time, since what neighbours point to lies side by
//! side in memory.
ghost use Rattle.std.specs.Prelude.{◌≡◌, ℕ, ◌<◌, ◌≤◌, length, replicate, true, false, Contains, IfNone, IfOk, IfSome};
ghost use Rattle.std.specs.Prelude.{IsFalse, IsTrue, MatchOption, OnOk, slice_set};
ghost use Rattle.live.specs.Listed.{AllListed, IsFirstWaiting, IsListed, ListsMore, NoneBetween, Waiting};
ghost use Rattle.live.specs.Marks.{IsDequeued, NoneWaits, Waits};

use std::alloc::{AllocError, Global};
use std::marker::Model;

/// How many places are neighbours.
const BLOCK: usize = 256;

/// A block is listed, where it isn't yet.
fn list(listed: &mut Vec<bool>, blocks: &mut Vec<usize>, block: usize) -> Result<(), AllocError>
    requires block { block < length listed.old.items }
    requires lists { AllListed listed.old.items blocks.old.items }
    ensures more { ListsMore listed.old.items listed.new.items blocks.old.items blocks.new.items }
    ensures block { OnOk result (Contains blocks.new.items block) }
{
    if listed[block] {
        return Ok(());
    }
    blocks.push(block)?;
    listed[block] = true;
    Ok(())
}

/// The first place that waits, from one place on and before another.
fn first_waiting(waiting: &[bool], start: usize, end: usize) -> Option<usize>
    requires { end ≤ length waiting.now }
    ensures some { IfSome result (IsFirstWaiting waiting.now start end) }
    ensures none { IfNone result (NoneBetween waiting.now start end) }
{
    for place in start..end {
        if waiting[place] {
            return Some(place);
        }
    }
    None
}

/// A block is listed no longer.
fn strike(listed: &mut Vec<bool>, block: usize)
    ensures count { length listed.new.items ≡ length listed.old.items }
    ensures struck { Waits listed.new.items block → ⊥ }
    ensures others { (b : ℕ) → Waits listed.new.items b → Waits listed.old.items b }
{
    if block < listed.len() {
        listed[block] = false;
    }
}

/// The places that wait, the blocks that they are in, and what is left of the block at hand.
#[derive(Drop)]
pub(crate) struct Waiting {
    waiting: Vec<bool>,
    listed: Vec<bool>,
    blocks: Vec<usize>,
    at: usize,
    end: usize,
}

impl Model for Waiting {
    ghost Value = { Waiting };

    ghost view = { λ w. record {
      waiting = w.waiting.items;
      listed = w.listed.items;
      blocks = w.blocks.items;
      at = w.at;
      end = w.end;
    } };

    ghost invariant = { λ w. IsListed (record {
      waiting = w.waiting.items;
      listed = w.listed.items;
      blocks = w.blocks.items;
      at = w.at;
      end = w.end;
    }) };
}

impl Waiting {
    /// Nothing waits, of a number of places.
    pub(crate) fn new(alloc: Global, count: usize) -> Result<Waiting, AllocError>
        ensures { IfOk result (λ w. w.waiting ≡ replicate count false) }
    {
        Ok(Waiting {
            waiting: vec![in alloc; false; count]?,
            listed: vec![in alloc; false; count / BLOCK + 1]?,
            blocks: Vec::new(alloc),
            at: 0,
            end: 0,
        })
    }

    /// A place waits from now on.
    pub(crate) fn put(&mut self, place: usize) -> Result<(), AllocError>
        requires { place < length self.old.waiting }
        ensures waiting { OnOk result (self.new.waiting ≡ slice_set self.old.waiting place true) }
        ensures count { length self.new.waiting ≡ length self.old.waiting }
    {
        list(&mut self.listed, &mut self.blocks, place / BLOCK)?;
        self.waiting[place] = true;
        Ok(())
    }

    /// The first place that waits in the block at hand. It waits no longer.
    fn in_block(&mut self) -> Option<usize>
        ensures blocks { self.new.blocks ≡ self.old.blocks }
        ensures some { IfSome result (IsDequeued self.old.waiting self.new.waiting) }
        ensures none { IfNone result ((self.new.waiting ≡ self.old.waiting) × (self.new.end ≤ self.new.at)) }
    {
        match first_waiting(&self.waiting, self.at, self.end) {
            Some(place) => {
                self.waiting[place] = false;
                self.at = place + 1;
                Some(place)
            }
            None => {
                self.at = self.end;
                None
            }
        }
    }

    /// The block that was listed last is at hand, where nothing is left of the one before. Says whether one was listed.
    fn begin(&mut self) -> bool
        requires { self.old.end ≤ self.old.at }
        ensures waiting { self.new.waiting ≡ self.old.waiting }
        ensures some { IsTrue result → length self.new.blocks < length self.old.blocks }
        ensures none { IsFalse result → NoneWaits self.new.waiting }
    {
        let Some(block) = self.blocks.pop() else {
            return false;
        };
        strike(&mut self.listed, block);
        let count = self.waiting.len();
        self.at = block.saturating_mul(BLOCK).min(count);
        self.end = self.at.saturating_add(BLOCK).min(count);
        true
    }

    /// A place that waits. It waits no longer.
    pub(crate) fn next(&mut self) -> Option<usize>
        ensures { MatchOption result
            ((self.new.waiting ≡ self.old.waiting) × NoneWaits self.new.waiting)
            (IsDequeued self.old.waiting self.new.waiting) }
    {
        if let Some(place) = self.in_block() {
            return Some(place);
        }
        'blocks: while self.begin() {
            if let Some(place) = self.in_block() {
                return Some(place);
            }
        }
        None
    }
}
