//! Setting and dropping user roots.

ghost use Rattle.std.specs.Prelude.{◌≡◌, string_bytes};
ghost use Rattle.policy.specs.Settings.{Settings};
ghost use Rattle.model.specs.World.{World};
ghost use Rattle.tables_outline.specs.Outline.{outline_of};
ghost use Rattle.model.specs.Tests.{refusal};
ghost use Rattle.store_types.specs.Tested.{Tested};
ghost use Rattle.policy.specs.Caller.{Caller};
ghost use Rattle.store_promises.specs.Meets.{IsMet};
ghost use Rattle.model.specs.Request as asked;

use crate::names::are_named;
use paths::StorePath;
use sqlite::Alter;
use store_promises::answers::answered;
use store_promises::validity::{has_user_root, is_valid};
use store_types::{Answer, Refusal, Stop};
use tables_outline::Outline;
use tables_writes::Tables;

/// Tests a user root that is to be set.
pub fn may_set(outline: &Outline, owned: &(String, String), path: &StorePath) -> Result<(), Refusal>
    ensures { (s : Settings) (w : World) → outline_of w ≡ outline.now
        → Tested result
        (refusal s w (asked.set_user_root (string_bytes owned.now.0) (string_bytes owned.now.1) path.now)) }
{
    are_named(owned)?;
    is_valid(outline, path)?;
    Ok(())
}

/// Tests a user root that is to be dropped.
pub fn may_drop(outline: &Outline, owned: &(String, String)) -> Result<(), Refusal>
    ensures { (s : Settings) (w : World) → outline_of w ≡ outline.now
        → Tested result (refusal s w (asked.drop_user_root (string_bytes owned.now.0) (string_bytes owned.now.1))) }
{
    are_named(owned)?;
    has_user_root(outline, owned)?;
    Ok(())
}

/// Sets or replaces a user root.
pub fn set_user_root<S: Alter>(
    tables: &mut Tables<S>,
    owned: (String, String),
    path: StorePath,
) -> Result<Answer, Stop>
    ensures { (s : Settings) (c : Caller)
        → IsMet S.Store s c (asked.set_user_root (string_bytes owned.0) (string_bytes owned.1) path) result tables.old
        tables.new }
{
    may_set(tables.outline(), &owned, &path)?;
    answered(
        tables.put_user_root(owned.0.as_str(), owned.1.as_str(), &path),
        Answer::Changed,
    )
}

/// Drops a user root.
pub fn drop_user_root<S: Alter>(
    tables: &mut Tables<S>,
    owned: (String, String),
) -> Result<Answer, Stop>
    ensures { (s : Settings) (c : Caller)
        → IsMet S.Store s c (asked.drop_user_root (string_bytes owned.0) (string_bytes owned.1)) result tables.old
        tables.new }
{
    may_drop(tables.outline(), &owned)?;
    answered(
        tables.drop_user_root(owned.0.as_str(), owned.1.as_str()),
        Answer::Changed,
    )
}
