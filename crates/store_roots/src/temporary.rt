//! Temporary roots: adding the paths of sessions, and ending sessions.

ghost use Rattle.std.specs.Prelude.{◌≡◌, IfOk, string_bytes};
ghost use Rattle.paths.specs.Root.{is_session};
ghost use Rattle.policy.specs.Settings.{Settings};
ghost use Rattle.model.specs.World.{World};
ghost use Rattle.tables_outline.specs.Outline.{outline_of};
ghost use Rattle.model.specs.Tests.{refusal, unless};
ghost use Rattle.store_types.specs.Tested.{Finds, Tested};
ghost use Rattle.policy.specs.Caller.{Caller};
ghost use Rattle.store_promises.specs.Meets.{IsMet};
ghost use Rattle.model.specs.Request as asked;

use crate::names::is_named;
use paths::StorePath;
use paths::numbers::is_session;
use sqlite::Alter;
use store_promises::answers::answered;
use store_promises::validity::is_valid;
use store_types::{Answer, Refusal, Stop};
use tables_outline::Outline;
use tables_writes::Tables;

/// Tests that a session may have this number. Returns the number.
fn has_number(number: u64) -> Result<u32, Refusal>
    ensures { Finds (λ n. n) result (unless (is_session number) Refusal.BadSession) number }
{
    if !is_session(number) {
        return Err(Refusal::BadSession);
    }
    Ok(number as u32)
}

/// Tests a path that a session is to keep. Returns the number of the session.
pub fn may_keep(
    outline: &Outline,
    owner: &str,
    number: u64,
    path: &StorePath,
) -> Result<u32, Refusal>
    ensures reported { (s : Settings) (w : World) → outline_of w ≡ outline.now
        → Tested result (refusal s w (asked.add_temp owner.now number path.now)) }
    ensures number { IfOk result (λ n. n ≡ number) }
{
    is_named(owner)?;
    let session = has_number(number)?;
    is_valid(outline, path)?;
    Ok(session)
}

/// Tests a session that is to end. Returns its number.
pub fn may_end(owner: &str, number: u64) -> Result<u32, Refusal>
    ensures { (s : Settings) (w : World)
        → Finds (λ n. n) result (refusal s w (asked.end_session owner.now number)) number }
{
    is_named(owner)?;
    let session = has_number(number)?;
    Ok(session)
}

/// Adds a path to those that a session keeps. It may be one of them already.
pub fn add_temp<S: Alter>(
    tables: &mut Tables<S>,
    owner: String,
    session: u64,
    path: StorePath,
) -> Result<Answer, Stop>
    ensures { (s : Settings) (c : Caller)
        → IsMet S.Store s c (asked.add_temp (string_bytes owner) session path) result tables.old tables.new }
{
    let text = owner.as_str();
    let number = may_keep(tables.outline(), text, session, &path)?;
    answered(tables.add_temp(text, number, &path), Answer::Changed)
}

/// Ends a session. The answer is how many paths the session kept.
pub fn end_session<S: Alter>(
    tables: &mut Tables<S>,
    owner: String,
    session: u64,
) -> Result<Answer, Stop>
    ensures { (s : Settings) (c : Caller)
        → IsMet S.Store s c (asked.end_session (string_bytes owner) session) result tables.old tables.new }
{
    let text = owner.as_str();
    let number = may_end(text, session)?;
    let count = tables.end_session(text, number)?;
    Ok(Answer::TemporaryCount(count))
}
