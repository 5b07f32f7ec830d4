//! Links turned round, as a walk against the edges reads them.
ghost use Rattle.std.specs.Prelude.{◌≡◌, ◌<◌, ℕ, List, length, IfOk};
ghost use Rattle.live.specs.Backward.{AreTurned};
ghost use Rattle.live.specs.Places.{AllInside, Entries};
ghost use Rattle.live.specs.Sources.{AreSources};

use crate::numbered::Graph;
use crate::reversed_graph::{Kinds, Reversed, turned};
use std::alloc::{AllocError, Global};
use std::marker::Model;

/// For each object, by its number, the numbers of the objects that point to it.
pub trait Sources {
    /// What each object points to, by numbers. A number that stands for no object has no entries.
    ghost entries: { Self → List Entries };

    /// How many numbers there are.
    fn len(&self) -> usize
        ensures value { result ≡ length (entries self.now) }
        ensures inside { AllInside (entries self.now) };

    /// The objects that refer to an object, each as often as it does.
    fn references_to(&self, place: usize) -> &[u32]
        requires { place < length (entries self.now) }
        ensures { AreSources (entries self.now) (λ e. e.references) place result.now };

    /// The objects of which this one is an output.
    fn outputs_to(&self, place: usize) -> &[u32]
        requires { place < length (entries self.now) }
        ensures { AreSources (entries self.now) (λ e. e.outputs) place result.now };

    /// The objects of which this one is the deriver.
    fn derivers_to(&self, place: usize) -> &[u32]
        requires { place < length (entries self.now) }
        ensures { AreSources (entries self.now) (λ e. e.deriver) place result.now };
}

/// The links of a graph, turned round. It borrows the graph.
#[derive(Drop)]
pub struct TurnedLinks<'a> {
    graph: &'a Graph,
    references: Reversed,
    outputs: Reversed,
    derivers: Reversed,
}

impl<'a> Model for TurnedLinks<'a> {
    ghost Value = { List Entries };

    ghost view = { λ t. t.graph.now };

    ghost invariant = { λ t. AreTurned t.graph.now t.references t.outputs t.derivers };
}

impl<'a> TurnedLinks<'a> {
    /// The links of a graph, turned round.
    pub fn new(alloc: Global, graph: &'a Graph) -> Result<TurnedLinks<'a>, AllocError>
        ensures { IfOk result (λ t. t ≡ graph.now) }
    {
        let only_references = Kinds {
            references: true,
            outputs: false,
            derivers: false,
        };
        let references = turned(alloc, graph, only_references)?;
        let only_outputs = Kinds {
            references: false,
            outputs: true,
            derivers: false,
        };
        let outputs = turned(alloc, graph, only_outputs)?;
        let only_derivers = Kinds {
            references: false,
            outputs: false,
            derivers: true,
        };
        let derivers = turned(alloc, graph, only_derivers)?;
        Ok(TurnedLinks {
            graph,
            references,
            outputs,
            derivers,
        })
    }
}

impl<'a> Sources for TurnedLinks<'a> {
    ghost entries = { λ es. es };

    fn len(&self) -> usize {
        self.graph.len()
    }

    fn references_to(&self, place: usize) -> &[u32] {
        self.references.sources_of(place)
    }

    fn outputs_to(&self, place: usize) -> &[u32] {
        self.outputs.sources_of(place)
    }

    fn derivers_to(&self, place: usize) -> &[u32] {
        self.derivers.sources_of(place)
    }
}
