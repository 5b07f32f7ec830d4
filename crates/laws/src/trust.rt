//! Laws of what each class of callers can rely on.

ghost use Rattle.laws.specs.Reliance.{NobodyPlants, NothingIsReplaced, RootsAreTheirOwners, StrangersAreDenied};
ghost use Rattle.model.specs.Request.{collect, delete};
ghost use Rattle.laws.specs.Planting.{NobodyPlantsInRuns};
ghost use Rattle.laws.specs.Operations.{PlainRequestsOnlyAdd, ReadsAndAddsAlonePlain};
ghost use Rattle.laws.specs.DiskUse.{DiskIsUsedForAReason};
ghost use Rattle.laws.specs.Others.{OthersOnlyLose, OwnersMay, TrustedMay};
ghost use Rattle.laws.specs.Permissions.{AllMayAsk, NobodyIgnoresLiveness};

/// A stranger changes nothing and gets nothing but the denial. A caller who isn't trusted adds nothing but what its
/// content address says, and changes no root but their own. What exists is never replaced.
pub fn people_can_rely_on()
    ensures strangers { StrangersAreDenied }
    ensures objects { NothingIsReplaced }
    ensures plants { NobodyPlants }
    ensures roots { RootsAreTheirOwners }
{}

/// Each object after a run was there before it, or has a content address that verifies, or a trusted caller imported
/// it.
pub fn nobody_plants_over_runs()
    ensures { NobodyPlantsInRuns }
{}

/// Each caller but a stranger may add what has an address, read all, collect, and delete what doesn't live; and nobody
/// may ask that liveness is ignored.
pub fn all_but_strangers_may_ask()
    ensures may { AllMayAsk }
    ensures never { NobodyIgnoresLiveness }
{}

/// A call by anyone else can only drop, delete or end what an owner has. The rules allow that to trusted callers, and
/// to each caller but a stranger everything on what they own.
pub fn owners_are_respected()
    ensures others { OthersOnlyLose }
    ensures trusted { TrustedMay }
    ensures own { OwnersMay }
{}

/// The rules ask nothing but to connect of a request that only reads, or adds a text or a source. Each other request
/// has an operation of its own, for which a rule can ask more. So what every caller may ask changes nothing else.
pub fn each_change_has_an_operation()
    ensures own { ReadsAndAddsAlonePlain }
    ensures changes { PlainRequestsOnlyAdd }
{}

/// A request that only reads, and asks for no archive, is answered from memory alone, so it can't fail for the disk.
/// What puts rows neither reads alone nor deletes alone, so nothing else can fail for a size or for want of a rowid.
pub fn the_disk_is_used_for_a_reason()
    ensures { DiskIsUsedForAReason }
{}
