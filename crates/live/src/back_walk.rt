//! The walk from named paths against the edges, over links that are kept turned round. It reads only what reaches them.
ghost use Rattle.std.specs.Prelude.{◌≡◌, ◌+◌, ◌<◌, [], ℕ, length, map, All, IfOk, IfSome, OnOk, if◌then◌else◌};
ghost use Rattle.std.specs.List.{filter, find, range_with_len, slice_index};
ghost use Rattle.live.specs.Places.{IsPlace};
ghost use Rattle.live.specs.Keeping.{keep_view};
ghost use Rattle.live.specs.Marks.{all_reached, reported};
ghost use Rattle.live.specs.Graph.{Graph, Path};
ghost use Rattle.live.specs.Reaching.{AreNumbers, AreUsed, IsExactlyReaching, IsReaching, IsVisited, Reaching};
ghost use Rattle.live.specs.Reaching.{is_marked};

use crate::keep::Keep;
use crate::numbered::{Roots, Walker};
use crate::turned_links::Sources;
use crate::walk::{RootMark, Walk};
use std::alloc::{AllocError, Global};
use std::marker::Model;

impl Walk {
    /// Sources are read and reached, one after another, where their kind counts.
    pub(crate) fn reach_sources(
        &mut self,
        walker: &mut Walker,
        sources: &[u32],
        counts: bool,
    ) -> Result<(), AllocError>
        requires { All (λ t. t < length self.old.first) sources.now }
        ensures places { OnOk result (length self.new.first ≡ length self.old.first) }
        ensures reached { OnOk result (self.new
            ≡ all_reached 1 0 self.old (if counts then sources.now else [])) }
        ensures counted { OnOk result (reported walker.new
            ≡ reported (walker.old + length (if counts then sources.now else []))) }
    {
        if !counts {
            return Ok(());
        }
        for index in 0..sources.len() {
            let source = walker.read(sources, index);
            self.reach(RootMark { root: 0, none: 1 }, source)?;
        }
        Ok(())
    }

    /// Visits a place: what has an edge to it is reached.
    fn visit<S: Sources>(
        &mut self,
        walker: &mut Walker,
        links: &S,
        keep: Keep,
        place: usize,
    ) -> Result<(), AllocError>
        requires { IsPlace (S.entries links.now) place (length self.old.first) }
        ensures { OnOk result
            (IsVisited (keep_view keep) (S.entries links.now) place self.old self.new walker.old walker.new) }
    {
        walker.count_place();
        self.reach_sources(walker, links.references_to(place), true)?;
        self.reach_sources(walker, links.outputs_to(place), keep.outputs)?;
        self.reach_sources(walker, links.derivers_to(place), keep.derivations)?;
        Ok(())
    }
}

/// What a walk against the edges found: which paths reach a named one, and the steps that it took.
#[derive(Drop)]
pub struct Reaching {
    marks: Vec<usize>,
    steps: u64,
}

impl Model for Reaching {
    ghost Value = { Reaching };

    ghost view = { λ r. record { marks = r.marks.items; steps = r.steps } };
}

impl Reaching {
    /// How many numbers there are.
    fn len(&self) -> usize
        ensures { result ≡ length self.now.marks }
    {
        self.marks.len()
    }

    /// Whether the path of this number reaches a named one.
    pub fn has(&self, place: usize) -> bool
        requires { place < length self.now.marks }
        ensures { result ≡ is_marked self.now place }
    {
        self.marks[place] < 1
    }

    /// How many steps the walk took: paths that reach a named one, and edges to such paths.
    pub fn steps(&self) -> u64
        ensures { result ≡ self.now.steps }
    {
        self.steps
    }

    /// The numbers of the paths that reach a named one, rising.
    pub fn places(&self, alloc: Global) -> Result<Vec<usize>, AllocError>
        ensures { IfOk result
            (λ v. v.items ≡ filter (is_marked self.now) (range_with_len 0 (length self.now.marks))) }
    {
        let mut found = Vec::new(alloc);
        for place in 0..self.len() {
            if self.has(place) {
                found.push(place)?;
            }
        }
        Ok(found)
    }

    /// The places of the roots whose targets reach a named path, rising.
    pub fn roots(&self, alloc: Global, roots: &Roots) -> Result<Vec<usize>, AllocError>
        requires { All (λ t. t < length self.now.marks) roots.now }
        ensures { IfOk result
            (λ v. v.items
            ≡ filter (λ k. is_marked self.now (slice_index roots.now k)) (range_with_len 0 (length roots.now))) }
    {
        let mut found = Vec::new(alloc);
        let mut walker = Walker::new();
        for root in 0..roots.len() {
            let target = walker.root(roots, root);
            if self.has(target) {
                found.push(root)?;
            }
        }
        Ok(found)
    }

    /// The place of the first root whose target reaches a named path, if there is one.
    pub fn first_root(&self, roots: &Roots) -> Option<usize>
        requires { All (λ t. t < length self.now.marks) roots.now }
        ensures { result
            ≡ find (λ k. is_marked self.now (slice_index roots.now k)) (range_with_len 0 (length roots.now)) }
    {
        let mut walker = Walker::new();
        for root in 0..roots.len() {
            let target = walker.root(roots, root);
            if self.has(target) {
                return Some(root);
            }
        }
        None
    }
}

/// Finds what reaches a named path, by a walk from the named paths against the edges.
pub fn walk_back<S: Sources>(
    alloc: Global,
    links: &S,
    keep: Keep,
    named: &[usize],
) -> Result<Reaching, AllocError>
    requires { All (λ t. t < length (S.entries links.now)) named.now }
    ensures places { IfOk result (IsReaching (keep_view keep) (S.entries links.now) named.now) }
    ensures paths { IfOk result
        (λ r. (g : Graph) (name : ℕ → Path) → AreNumbers g (S.entries links.now) name → AreUsed g name named.now
        → IsExactlyReaching (keep_view keep) g (S.entries links.now) name named.now r) }
{
    let mut walk = Walk::new(alloc, 1, links.len())?;
    let mut walker = Walker::new();
    walk.reach_all(RootMark { root: 0, none: 1 }, named)?;
    'work: while let Some(place) = walk.next() {
        walk.visit(&mut walker, links, keep, place)?;
    }
    let Walk { first, .. } = walk;
    Ok(Reaching {
        marks: first,
        steps: walker.steps(),
    })
}
