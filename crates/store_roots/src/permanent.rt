//! Setting and dropping permanent roots.

ghost use Rattle.std.specs.Prelude.{◌≡◌, string_bytes};
ghost use Rattle.policy.specs.Settings.{Settings};
ghost use Rattle.model.specs.World.{World};
ghost use Rattle.tables_outline.specs.Outline.{outline_of};
ghost use Rattle.model.specs.Tests.{refusal};
ghost use Rattle.store_types.specs.Tested.{Tested};
ghost use Rattle.policy.specs.Caller.{Caller};
ghost use Rattle.store_promises.specs.Meets.{IsMet};
ghost use Rattle.model.specs.Request as asked;

use crate::names::is_named;
use paths::StorePath;
use sqlite::Alter;
use store_promises::answers::answered;
use store_promises::validity::{has_permanent, is_valid};
use store_types::{Answer, Refusal, Stop};
use tables_outline::Outline;
use tables_writes::Tables;

/// Tests a permanent root that is to be set.
pub fn may_set(outline: &Outline, name: &str, path: &StorePath) -> Result<(), Refusal>
    ensures { (s : Settings) (w : World) → outline_of w ≡ outline.now
        → Tested result (refusal s w (asked.set_permanent name.now path.now)) }
{
    is_named(name)?;
    is_valid(outline, path)?;
    Ok(())
}

/// Tests a permanent root that is to be dropped.
pub fn may_drop(outline: &Outline, name: &str) -> Result<(), Refusal>
    ensures { (s : Settings) (w : World) → outline_of w ≡ outline.now
        → Tested result (refusal s w (asked.drop_permanent name.now)) }
{
    is_named(name)?;
    has_permanent(outline, name)?;
    Ok(())
}

/// Sets or replaces a permanent root.
pub fn set_permanent<S: Alter>(
    tables: &mut Tables<S>,
    name: String,
    path: StorePath,
) -> Result<Answer, Stop>
    ensures { (s : Settings) (c : Caller)
        → IsMet S.Store s c (asked.set_permanent (string_bytes name) path) result tables.old tables.new }
{
    let text = name.as_str();
    may_set(tables.outline(), text, &path)?;
    answered(tables.put_permanent(text, &path), Answer::Changed)
}

/// Drops a permanent root.
pub fn drop_permanent<S: Alter>(tables: &mut Tables<S>, name: String) -> Result<Answer, Stop>
    ensures { (s : Settings) (c : Caller)
        → IsMet S.Store s c (asked.drop_permanent (string_bytes name)) result tables.old tables.new }
{
    let text = name.as_str();
    may_drop(tables.outline(), text)?;
    answered(tables.drop_permanent(text), Answer::Changed)
}
