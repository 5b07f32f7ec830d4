//! Laws of what listings and reports show.

ghost use Rattle.policy.specs.Settings.{Settings};
ghost use Rattle.model.specs.World.{Path, World, all_paths};
ghost use Rattle.model.specs.Liveness.{dead_paths, live_paths, usage_of};
ghost use Rattle.laws.specs.Laws.{UsageAddsUp};
ghost use Rattle.model.specs.Lives.{FirstIsShownFirst, HasExactLiveness, TargetsLive};
ghost use Rattle.laws.specs.ReadOnly.{ListingsAreTheObjects, ListingsAreExact, ReportsAreExact, RootListingsAreExact};
ghost use Rattle.laws.specs.ReadOnly.{ReadingChangesNothing};

/// The listing that is answered is that of the object's archive.
pub fn listings_are_of_the_object()
    ensures { ListingsAreTheObjects }
{}

/// The listings of valid, live and dead paths have exactly these, in order; the roots of a path are exactly those that
/// reach it; and the report has the numbers of live paths, of dead ones and of both, with the bytes of their archives.
pub fn listings_show_what_is_valid()
    ensures paths { ListingsAreExact }
    ensures roots { RootListingsAreExact }
    ensures report { ReportsAreExact }
{}

/// What lives in a world: the tests and listings, the first root of a path, and the targets of roots.
pub fn the_living_are_listed()
    ensures paths { (s : Settings) (w : World) (p : Path) → HasExactLiveness s w p }
    ensures targets { TargetsLive }
    ensures first { FirstIsShownFirst }
{}

/// Live and dead paths, and their bytes, add up to all.
pub fn usage_adds_up()
    ensures { (s : Settings) (w : World)
        → UsageAddsUp (usage_of w (live_paths s w)) (usage_of w (dead_paths s w)) (usage_of w (all_paths w)) }
{}

/// A request that only reads changes nothing: for a record, an archive, a listing or the report.
pub fn reads_change_nothing()
    ensures { ReadingChangesNothing }
{}
