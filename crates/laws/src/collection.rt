//! Laws of collection and deletion.
ghost use Rattle.std.specs.Prelude.{Bool, List, Option, ℕ};
ghost use Rattle.policy.specs.Settings.{Settings};
ghost use Rattle.model.specs.World.{Path};
ghost use Rattle.model.specs.Collection.{Collects, CollectsUpToALimit, CollectsByBytes, LeavesNoReference};
ghost use Rattle.model.specs.Request.{collect, delete};
ghost use Rattle.laws.specs.Changes.{FreesAsReported, Deletes};
ghost use Rattle.laws.specs.KeepSettings.{EdgesAsSet, LivingKeep};
ghost use Rattle.laws.specs.OneByOne.{ReferrersAreDeletedFirst};
ghost use Rattle.laws.specs.Cycles.{CyclesAreDeletedByTheLeast};
ghost use Rattle.live.specs.Graph.{Keep};
ghost use Rattle.laws.specs.Steps.{TakesFewSteps};

/// A collection deletes exactly the dead paths, and a second one frees nothing. With a limit it deletes some of them,
/// and no reference that is left leads to one.
pub fn collection_is_exact()
    ensures all { Collects }
    ensures limited { CollectsUpToALimit }
{}

/// What a collection or a deletion answers is exactly what was deleted.
pub fn the_freed_are_reported()
    ensures collection { (s : Settings) (ignores : Bool) (limit : Option ℕ)
        → FreesAsReported s (collect ignores limit) }
    ensures deletion { (s : Settings) (named : List Path) (ignores : Bool) → FreesAsReported s (delete named ignores) }
{}

/// A limit counts the bytes of archives: a collection stops as soon as that many are free, and not before while a dead
/// path is left.
pub fn limits_count_bytes()
    ensures { CollectsByBytes }
{}

/// Where no references make a cycle, a collection up to a limit takes one path after another, each after all that refer
/// to it. Where they make one, it takes the first dead path left, in path order, with all that reach it by references.
pub fn referrers_are_deleted_first()
    ensures one_by_one { ReferrersAreDeletedFirst }
    ensures cycles { CyclesAreDeletedByTheLeast }
{}

/// An object keeps its references; its outputs, if outputs are to be kept; and its deriver, if derivations are. What a
/// live path keeps is live.
pub fn settings_say_what_is_kept()
    ensures edges { EdgesAsSet }
    ensures living { LivingKeep }
{}

/// A deletion deletes exactly the paths that reach a named path by references.
pub fn deletions_are_exact()
    ensures { Deletes }
{}

/// After a deletion no reference that is left points at a path that was deleted.
pub fn deletion_leaves_no_reference()
    ensures { LeavesNoReference }
{}

/// Marking takes at most a step for each object, each of its entries that counts, and each root.
pub fn marking_takes_few_steps()
    ensures { (keep : Keep) → TakesFewSteps keep }
{}
