//! Laws of the definitions: each is the contract of a function that does nothing.
ghost use Rattle.sqlite.specs.Steps.{over_memory};
ghost use Rattle.store.specs.Laws.{AreAllRuns, AreRuns, AreSteps};

use sqlite::Alter;

/// Over a clean disk a step or run over the disk is one of the definitions. Over any disk this is true if no answer is
/// an archive or its listing.
pub fn runs_over_a_clean_disk_are_runs<S: Alter>()
    ensures step { AreSteps S.Store }
    ensures run { AreRuns S.Store }
{}

/// Over memory each run is a run of the definitions, with no condition.
pub fn runs_over_memory_are_runs()
    ensures { AreAllRuns over_memory }
{}
