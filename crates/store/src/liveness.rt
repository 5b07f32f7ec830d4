//! The live and the dead paths, and the usage report.

ghost use Rattle.std.specs.Prelude.{◌≡◌};
ghost use Rattle.policy.specs.Caller.{Caller};
ghost use Rattle.model.specs.World.{World};
ghost use Rattle.tables_outline.specs.Outline.{outline_of};
ghost use Rattle.model.specs.Liveness as liveness;
ghost use Rattle.model.specs.Request as asked;
ghost use Rattle.store_types.specs.Meets.{Reads};
ghost use Rattle.store_types.specs.View.{usage_view};

use crate::records::all_paths;
use paths::StorePath;
use policy::Config;
use std::alloc::Global;
use store_reach::{bytes_in, dead_paths, live_and_dead, live_paths};
use store_types::{Answer, Stop, Usage};
use tables_outline::Outline;

/// The paths that live.
pub(crate) fn list_live(alloc: Global, config: &Config, outline: &Outline) -> Result<Answer, Stop>
    ensures { (c : Caller) → Reads config.now c outline.now asked.list_live result }
{
    let paths = live_paths(alloc, config, outline)?;
    Ok(Answer::Paths(paths))
}

/// The paths that are dead.
pub(crate) fn list_dead(alloc: Global, config: &Config, outline: &Outline) -> Result<Answer, Stop>
    ensures { (c : Caller) → Reads config.now c outline.now asked.list_dead result }
{
    let paths = dead_paths(alloc, config, outline)?;
    Ok(Answer::Paths(paths))
}

/// How many paths there are, and the bytes of their archives.
fn usage(outline: &Outline, paths: &[StorePath]) -> Usage
    ensures { (w : World) → outline_of w ≡ outline.now → usage_view result ≡ liveness.usage_of w paths.now }
{
    Usage {
        paths: paths.len(),
        bytes: bytes_in(outline, paths),
    }
}

/// How many paths live and are dead, and the bytes of their archives.
pub(crate) fn report(alloc: Global, config: &Config, outline: &Outline) -> Result<Answer, Stop>
    ensures { (c : Caller) → Reads config.now c outline.now asked.report result }
{
    let (live, dead) = live_and_dead(alloc, config, outline)?;
    let all = all_paths(alloc, outline)?;
    Ok(Answer::Usage(
        usage(outline, &live),
        usage(outline, &dead),
        usage(outline, &all),
    ))
}
