//! Roots, as a caller sees them.

ghost use Rattle.std.specs.Prelude.{◌≡◌};
ghost use Rattle.policy.specs.Caller.{Caller};
ghost use Rattle.policy.specs.Class.{class_of};
ghost use Rattle.policy.specs.Settings.{Settings};
ghost use Rattle.model.specs.Request as asked;
ghost use Rattle.store_types.specs.Meets.{Reads};

use paths::StorePath;
use policy::{Class, Config};
use std::alloc::Global;
use store_reach::{seen_roots, seen_roots_of};
use store_types::{Answer, Refusal, Stop};
use tables_outline::Outline;

/// All roots, as a caller of a class sees them.
pub(crate) fn list_roots(alloc: Global, class: Class, outline: &Outline) -> Result<Answer, Stop>
    ensures { (s : Settings) (c : Caller) → class ≡ class_of s c → Reads s c outline.now asked.list_roots result }
{
    let roots = seen_roots(alloc, class, outline)?;
    Ok(Answer::Roots(roots))
}

/// The roots that reach a path, as a caller of a class sees them.
pub(crate) fn list_roots_of(
    alloc: Global,
    config: &Config,
    class: Class,
    outline: &Outline,
    path: StorePath,
) -> Result<Answer, Stop>
    ensures { (c : Caller) → class ≡ class_of config.now c
        → Reads config.now c outline.now (asked.list_roots_of path) result }
{
    if !outline.has(&path) {
        return Err(Stop::Refused(Refusal::NotValid));
    }
    let roots = seen_roots_of(alloc, config, class, outline, &path)?;
    Ok(Answer::Roots(roots))
}
