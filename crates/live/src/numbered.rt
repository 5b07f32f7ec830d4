//! The graph by places, and the one way to read it.
ghost use Rattle.std.specs.Prelude.{◌≡◌, ℕ, ◌+◌, ◌<◌, ◌++◌, List, length, map, nat_lt};
ghost use Rattle.live.specs.Places.{AllInside, Entries, entries_at, held};
ghost use Rattle.live.specs.Flat.{IsFlat, entries_in};
ghost use Rattle.live.specs.Marks.{IsRead, reported};

mod conditions;
mod construction;
mod guesses;
mod heads;
mod places;
mod rows;
mod texts;

pub use conditions::{are_valid, do_rise};
pub use places::place_of;
pub use rows::{Root, Row};
use std::marker::Model;

/// Where an object's entries begin, kind after kind, and where the last of them ends.
#[derive(Clone, Copy)]
struct Span {
    references: usize,
    outputs: usize,
    deriver: usize,
    end: usize,
}

/// The valid paths by their places, each with the places of what it points to. Contracts see it as a list of entries.
#[derive(Drop)]
pub struct Graph {
    spans: Vec<Span>,
    targets: Vec<usize>,
}

impl Model for Graph {
    ghost Value = { List Entries };

    ghost view = { λ g. map (entries_in g.targets.items) g.spans.items };

    ghost invariant = { λ g. IsFlat g.spans.items g.targets.items };
}

impl Graph {
    /// How many objects it has.
    ///
    /// ```rust
    /// let graph = live::Graph::new(alloc, &[])?;
    /// assert_eq!(rt; graph.len(), 0);
    /// ```
    pub fn len(&self) -> usize
        ensures value { result ≡ length self.now }
        ensures inside { AllInside self.now }
    {
        self.spans.len()
    }
}

/// The roots in their order, each by the place of its target. Contracts see it as the list of these places.
#[derive(Drop)]
pub struct Roots {
    targets: Vec<usize>,
}

impl Model for Roots {
    ghost Value = { List ℕ };

    ghost view = { λ r. r.targets.items };
}

impl Roots {
    /// How many roots there are.
    ///
    /// ```rust
    /// let roots = live::Roots::new(alloc, &[], &[])?;
    /// assert_eq!(rt; roots.len(), 0);
    /// ```
    pub fn len(&self) -> usize
        ensures { result ≡ length self.now }
    {
        self.targets.len()
    }
}

/// How many entries an object has: its references, the same and its outputs, all of them.
#[derive(Clone, Copy)]
pub(crate) struct Counts {
    pub(crate) references: usize,
    pub(crate) outputs: usize,
    pub(crate) all: usize,
}

/// Some of an object's entries: from one number up to another.
#[derive(Clone, Copy)]
pub(crate) struct EntryRange {
    pub(crate) place: usize,
    pub(crate) from: usize,
    pub(crate) to: usize,
}

/// Reads a graph and its roots, and counts what it reads.
#[derive(Drop)]
pub(crate) struct Walker {
    steps: u64,
}

impl Model for Walker {
    ghost Value = { ℕ };

    ghost view = { λ w. w.steps };
}

impl Walker {
    /// A walker that has read nothing yet.
    pub(crate) fn new() -> Walker
        ensures { result ≡ 0 }
    {
        Walker { steps: 0 }
    }

    /// The number of roots, objects and entries that it has read.
    pub(crate) fn steps(&self) -> u64
        ensures { result ≡ self.now }
    {
        self.steps
    }

    /// The target of a root.
    pub(crate) fn root(&mut self, roots: &Roots, root: usize) -> usize
        requires { root < length roots.now }
        ensures { IsRead roots.now root self.old self.new result }
    {
        self.steps = self.steps.saturating_add(1);
        roots.targets[root]
    }

    /// A place is visited.
    pub(crate) fn count_place(&mut self)
        ensures { self.new ≡ reported (self.old + 1) }
    {
        self.steps = self.steps.saturating_add(1);
    }

    /// A source of a place.
    pub(crate) fn read(&mut self, sources: &[u32], index: usize) -> usize
        requires { index < length sources.now }
        ensures { IsRead sources.now index self.old self.new result }
    {
        self.steps = self.steps.saturating_add(1);
        sources[index] as usize
    }

    /// An object's numbers of entries.
    pub(crate) fn object(&mut self, graph: &Graph, place: usize) -> Counts
        requires { place < length graph.now }
        ensures references { result.references ≡ length (entries_at graph.now place).references }
        ensures outputs { result.outputs ≡ result.references + length (entries_at graph.now place).outputs }
        ensures all { result.all ≡ result.outputs + length (entries_at graph.now place).deriver }
        ensures counted { self.new ≡ reported (self.old + 1) }
    {
        self.steps = self.steps.saturating_add(1);
        let span = graph.spans[place];
        Counts {
            references: span.outputs - span.references,
            outputs: span.deriver - span.references,
            all: span.end - span.references,
        }
    }

    /// The place of an object's entry of this number.
    pub(crate) fn entry(&mut self, graph: &Graph, place: usize, entry: usize) -> usize
        requires { entry < length (held (entries_at graph.now place)) }
        ensures read { IsRead (held (entries_at graph.now place)) entry self.old self.new result }
        ensures inside { result < length graph.now }
    {
        self.steps = self.steps.saturating_add(1);
        let first = graph.spans[place].references;
        graph.targets[first + entry]
    }
}
