//! Laws of what the labels of roots do not reveal.

ghost use Rattle.std.specs.Prelude.{List};
ghost use Rattle.paths.specs.Root.{Root};
ghost use Rattle.policy.specs.declared.kinds.Class.{Class};
ghost use Rattle.model.specs.Labels.{MirrorsRuns, MirrorsSteps, RunsLookAlike};
ghost use Rattle.laws.specs.Sights.{SeesRoot, SeesRoots, ShowsTheLabel};

/// Roots are seen in the order given. Callers that aren't trusted see no label of a runtime or temporary root, and
/// equal pairs once.
pub fn roots_are_seen_in_order()
    ensures one { (class : Class) (r : Root) → SeesRoot class r }
    ensures all { (class : Class) (roots : List Root) → SeesRoots class roots }
    ensures denial { ShowsTheLabel }
{}

/// No call of a caller that isn't trusted distinguishes two worlds that differ in runtime labels alone.
pub fn runtime_labels_do_not_show()
    ensures step { MirrorsSteps }
    ensures run { MirrorsRuns }
    ensures any { RunsLookAlike }
{}
