//! A step of a walk: the entries of an object.
ghost use Rattle.std.specs.Prelude.{◌≡◌, ◌+◌, [], length, OnOk, if◌then◌else◌};
ghost use Rattle.std.specs.List.{slice_range};
ghost use Rattle.live.specs.Places.{IsPlace, IsRange, edges_at, entries_at, held};
ghost use Rattle.live.specs.Keeping.{keep_view};
ghost use Rattle.live.specs.Marks.{all_reached, reported};

use crate::keep::Keep;
use crate::numbered::{EntryRange, Graph, Walker};
use crate::walk::{RootMark, Walk};
use std::alloc::AllocError;

impl Walk {
    /// Some of an object's entries are looked at, where entries of this kind count, and their targets reached.
    fn look_if(
        &mut self,
        walker: &mut Walker,
        graph: &Graph,
        mark: RootMark,
        range: EntryRange,
        counts: bool,
    ) -> Result<(), AllocError>
        requires { IsRange graph.now range.place range.from range.to (length self.old.first) }
        ensures places { OnOk result (length self.new.first ≡ length graph.now) }
        ensures reached { OnOk result (self.new
            ≡ all_reached mark.none mark.root self.old
            (if counts then slice_range (held (entries_at graph.now range.place)) range.from range.to else [])) }
        ensures counted { OnOk result (reported walker.new
            ≡ reported (walker.old + length
            (if counts then slice_range (held (entries_at graph.now range.place)) range.from range.to else []))) }
    {
        if !counts {
            return Ok(());
        }
        for entry in range.from..range.to {
            let target = walker.entry(graph, range.place, entry);
            self.reach(mark, target)?;
        }
        Ok(())
    }

    /// Visits an object: its entries that count are looked at.
    pub(crate) fn take(
        &mut self,
        walker: &mut Walker,
        graph: &Graph,
        keep: Keep,
        mark: RootMark,
        place: usize,
    ) -> Result<(), AllocError>
        requires { IsPlace graph.now place (length self.old.first) }
        ensures reached { OnOk result (self.new
            ≡ all_reached mark.none mark.root self.old (edges_at (keep_view keep) graph.now place)) }
        ensures counted { OnOk result (reported walker.new
            ≡ reported (walker.old + (1 + length (edges_at (keep_view keep) graph.now place)))) }
    {
        let has = walker.object(graph, place);
        let references = EntryRange {
            place,
            from: 0,
            to: has.references,
        };
        let outputs = EntryRange {
            place,
            from: has.references,
            to: has.outputs,
        };
        let deriver = EntryRange {
            place,
            from: has.outputs,
            to: has.all,
        };
        self.look_if(walker, graph, mark, references, true)?;
        self.look_if(walker, graph, mark, outputs, keep.outputs)?;
        self.look_if(walker, graph, mark, deriver, keep.derivations)?;
        Ok(())
    }
}
