//! Links as `live` reads them.

ghost use Rattle.std.specs.Prelude.{◌≡◌, Option};
ghost use Rattle.std.specs.FinMap as finite;
ghost use Rattle.live.specs.Graph.{Graph};
ghost use Rattle.live.specs.Reaching.{AreNumbers};
ghost use Rattle.tables_outline.specs.Links.{AreLinksOf, all_entries, sources_of};
ghost use Rattle.tables_outline.specs.LinkLists.{flag_at, list_at};
ghost use Rattle.tables_outline.specs.LinkNames.{name_at};

use crate::link_flags::Flags;
use crate::link_lists::Lists;
use crate::links::Links;
use live::Sources;

/// The sources of a number. One that is no object's has none.
fn sources<'a>(held: &Flags, lists: &'a Lists, number: usize) -> &'a [u32]
    ensures { result.now ≡ sources_of held.now lists.now number }
{
    if held.at(number) {
        lists.at(number)
    } else {
        &[]
    }
}

impl Sources for Links {
    ghost entries = { all_entries };

    fn len(&self) -> usize {
        self.names.len()
    }

    fn references_to(&self, place: usize) -> &[u32] {
        sources(&self.held, &self.by_reference, place)
    }

    fn outputs_to(&self, place: usize) -> &[u32] {
        sources(&self.held, &self.by_output, place)
    }

    fn derivers_to(&self, place: usize) -> &[u32] {
        sources(&self.held, &self.by_deriver, place)
    }
}

impl Links {
    /// The numbers stand for the paths of a graph, if the links are its own. It does nothing.
    pub fn are_numbers(&self)
        ensures { (g : Graph) → AreLinksOf (finite.get g) self.now
            → AreNumbers g (all_entries self.now) (name_at self.now.names) }
    {
        // Each path has one number.
        let _count = self.names.len();
    }
}
