//! Laws of steps and runs.

ghost use Rattle.laws.specs.Laws.{IsAnswered, IsFunctional, RunsEndAlike};
ghost use Rattle.model.specs.Soundness.{KeepsSound, RunsKeepSound};
ghost use Rattle.laws.specs.Runs.{RunsGoStepByStep};

/// Replies that aren't failures are determined, with the world after them.
pub fn step_is_functional()
    ensures { IsFunctional }
{}

/// Every call has a reply that isn't a failure.
pub fn step_is_total()
    ensures { IsAnswered }
{}

/// A sound world stays sound, over a step and over a run of well-formed requests.
pub fn soundness_is_kept()
    ensures step { KeepsSound }
    ensures run { RunsKeepSound }
{}

/// The first world, the calls and the replies determine the worlds of a run.
pub fn runs_end_alike()
    ensures { RunsEndAlike }
{}

/// A run makes one step after another, each from the world that the one before left.
pub fn runs_go_step_by_step()
    ensures { RunsGoStepByStep }
{}
