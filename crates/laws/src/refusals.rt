//! Laws of denials, refusals and failures.

ghost use Rattle.laws.specs.Laws.{DenialsNameTheLiving, FailsPastTheRules, LeavesUnlessDone, MayFail, OthersShowNoRoot};
ghost use Rattle.laws.specs.Faults.{NamedAreValid, NamesComeFirst, PathsComeBeforeNumbers, ProfilesComeNext};
ghost use Rattle.laws.specs.Faults.{SessionFaultsAreReported};
ghost use Rattle.laws.specs.Reasons.{DenialsAreForTheFirst, FaultsAreNotDone, RefusalsHaveReasons, MentionedAreValid};

/// A denial for a live path is for the first of the named paths that is live, in the order given, and shows its first
/// root, as the caller sees it. A denial by another rule shows no root.
pub fn denials_name_the_living()
    ensures live { DenialsNameTheLiving }
    ensures others { OthersShowNoRoot }
{}

/// A call fails only where no rule denies it, or the one on live paths alone; there it may fail for any cause.
pub fn failures_come_after_the_rules()
    ensures only { FailsPastTheRules }
    ensures may { MayFail }
{}

/// A call that isn't done leaves the world.
pub fn only_done_changes()
    ensures { LeavesUnlessDone }
{}

/// A refusal names the first fault: of a session its owner, then its number, which is 1 to 4,194,304, then its path; a
/// name before what it names; a profile before its generation, and a path that isn't valid before a profile that has no
/// number left. A deletion that is done named valid paths alone.
pub fn first_faults_are_reported()
    ensures sessions { SessionFaultsAreReported }
    ensures names { NamesComeFirst }
    ensures profiles { ProfilesComeNext }
    ensures paths { PathsComeBeforeNumbers }
    ensures named { NamedAreValid }
{}

/// A request is refused only for a fault that it has, and one that has a fault isn't done. Answers about a path are for
/// a valid path. A deletion is denied for the first named path that is live.
pub fn refusals_and_denials_have_reasons()
    ensures refusals { RefusalsHaveReasons }
    ensures faults { FaultsAreNotDone }
    ensures reported { MentionedAreValid }
    ensures denials { DenialsAreForTheFirst }
{}
