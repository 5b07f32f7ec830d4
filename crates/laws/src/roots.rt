//! Laws of roots and sessions.
ghost use Rattle.model.specs.World.{World};
ghost use Rattle.model.specs.Entries.{HasEachRoot};
ghost use Rattle.model.specs.Pinning.{LeadsOn, Pins, PinsOverRuns};
ghost use Rattle.laws.specs.LabelsAndOrder.{AreLabelled, KindsInOrder};
ghost use Rattle.laws.specs.RootChanges.{DropsPermanent, DropsUserRoots, ReplacesAsSpecified, SetsPermanent};
ghost use Rattle.laws.specs.RootChanges.{SetsUserRoots, AddsForSessions, EndsSessions};
ghost use Rattle.laws.specs.ListedRoots.{RootsSetAreListed};
ghost use Rattle.laws.specs.Relisted.{DropsAreListed, DroppedLabelsAreNotListed, SetsAreListed};

/// Each entry of a table of roots is a root of the world, and no other root is.
pub fn every_entry_is_a_root()
    ensures { (w : World) → HasEachRoot w }
{}

/// A root that is set exists with its target, one that is dropped doesn't, and nothing else changed: permanent roots,
/// user roots and runtime roots.
pub fn roots_change_exactly()
    ensures set_permanent { SetsPermanent }
    ensures drop_permanent { DropsPermanent }
    ensures set_user { SetsUserRoots }
    ensures drop_user { DropsUserRoots }
    ensures runtime { ReplacesAsSpecified }
{}

/// A root that was set is listed to each caller who asks next, with the labels of runtime and temporary roots hidden
/// from those who aren't trusted.
pub fn roots_that_were_set_are_listed()
    ensures { RootsSetAreListed }
{}

/// After a root was dropped, no listing has it, and each other root is listed as before. Its label is shown only to a
/// trusted caller, for a runtime root with the same label.
pub fn roots_that_were_dropped_are_not_listed()
    ensures roots { DropsAreListed }
    ensures labels { DroppedLabelsAreNotListed }
{}

/// After a root is set, listings have it and all roots from before, but for the root that it replaced.
pub fn listings_gain_what_was_set()
    ensures { SetsAreListed }
{}

/// Each root has its label, and roots come by their kinds: temporary ones last.
pub fn roots_are_labelled_in_order()
    ensures labels { AreLabelled }
    ensures kinds { KindsInOrder }
{}

/// A root keeps what it reaches, over a step and over a run before each of whose calls it exists; the worlds of a run
/// follow from its calls and their replies.
pub fn a_root_pins_what_it_reaches()
    ensures step { Pins }
    ensures after { LeadsOn }
    ensures run { PinsOverRuns }
{}

/// A session that adds a temporary root keeps its path from then on; a session that ends keeps none of its paths, and
/// the number of these is the reply. Nothing else changed: the temporary roots of other sessions and of other owners
/// stay.
pub fn sessions_change_exactly()
    ensures add_temporary { AddsForSessions }
    ensures end_session { EndsSessions }
{}
