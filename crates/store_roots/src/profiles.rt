//! Setting, rolling back and switching profiles, and deleting their generations.

ghost use Rattle.std.specs.Prelude.{◌≡◌, IfOk, Some, string_bytes};
ghost use Rattle.policy.specs.Settings.{Settings};
ghost use Rattle.model.specs.World.{World};
ghost use Rattle.model.specs.Profiles.{number_for, previous, profile_at};
ghost use Rattle.tables_outline.specs.Maps.{pair_bytes};
ghost use Rattle.tables_outline.specs.Outline.{outline_of, profile_of};
ghost use Rattle.model.specs.Tests.{refusal};
ghost use Rattle.store_types.specs.Tested.{Finds};
ghost use Rattle.policy.specs.Caller.{Caller};
ghost use Rattle.store_promises.specs.Meets.{IsMet};
ghost use Rattle.store_roots.specs.Profiles.{IsTestedOn};
ghost use Rattle.model.specs.Request as asked;

use crate::generations::{has_generation, has_older, is_not_current};
use crate::names::are_named;
use paths::StorePath;
use sqlite::Alter;
use store_promises::answers::answered;
use store_promises::validity::{has_profile, is_valid};
use store_types::{Answer, Refusal, Stop};
use tables_outline::Outline;
use tables_writes::Tables;

/// Tests a path that is to be set in a profile. Returns the number of its generation.
pub fn next_number(
    outline: &Outline,
    owned: &(String, String),
    path: &StorePath,
) -> Result<u32, Refusal>
    ensures reported { (s : Settings) (w : World) → outline_of w ≡ outline.now → Finds (λ n. n) result
        (refusal s w (asked.set_profile (string_bytes owned.now.0) (string_bytes owned.now.1) path.now))
        (number_for (profile_at w (pair_bytes owned.now)) path.now) }
    ensures number { IfOk result (λ n. n ≡ number_for (profile_of outline.now (pair_bytes owned.now)) path.now) }
{
    are_named(owned)?;
    is_valid(outline, path)?;
    match outline.number_left(owned, path) {
        Some(number) => Ok(number),
        None => Err(Refusal::GenerationLimit),
    }
}

/// Tests a profile that is to be rolled back. Returns the number that becomes current.
pub fn older(outline: &Outline, owned: &(String, String)) -> Result<u32, Refusal>
    ensures tested { IsTestedOn outline.now (pair_bytes owned.now)
        (asked.rollback (string_bytes owned.now.0) (string_bytes owned.now.1)) result }
    ensures number { IfOk result
        (λ n. (w : World) → outline_of w ≡ outline.now → Some n ≡ previous (profile_at w (pair_bytes owned.now))) }
{
    are_named(owned)?;
    has_profile(outline, owned)?;
    let number = has_older(outline, owned)?;
    Ok(number)
}

/// Tests a generation that is to become current.
pub fn may_switch(outline: &Outline, owned: &(String, String), number: u32) -> Result<(), Refusal>
    ensures { IsTestedOn outline.now (pair_bytes owned.now)
        (asked.switch (string_bytes owned.now.0) (string_bytes owned.now.1) number) result }
{
    are_named(owned)?;
    has_profile(outline, owned)?;
    has_generation(outline, owned, number)?;
    Ok(())
}

/// Tests a generation that is to be deleted.
pub fn may_delete(outline: &Outline, owned: &(String, String), number: u32) -> Result<(), Refusal>
    ensures { IsTestedOn outline.now (pair_bytes owned.now)
        (asked.delete_generation (string_bytes owned.now.0) (string_bytes owned.now.1) number) result }
{
    are_named(owned)?;
    has_profile(outline, owned)?;
    has_generation(outline, owned, number)?;
    is_not_current(outline, owned, number)?;
    Ok(())
}

/// Makes a path the current generation of a profile. The answer is the number of that generation.
pub fn set_profile<S: Alter>(
    tables: &mut Tables<S>,
    owned: (String, String),
    path: StorePath,
) -> Result<Answer, Stop>
    ensures { (s : Settings) (c : Caller)
        → IsMet S.Store s c (asked.set_profile (string_bytes owned.0) (string_bytes owned.1) path) result tables.old
        tables.new }
{
    let number = next_number(tables.outline(), &owned, &path)?;
    answered(
        tables.set_profile(owned.0.as_str(), owned.1.as_str(), number, &path),
        Answer::Generation(number),
    )
}

/// Makes the generation below the current one current. The answer is the number of that generation.
pub fn rollback<S: Alter>(tables: &mut Tables<S>, owned: (String, String)) -> Result<Answer, Stop>
    ensures { (s : Settings) (c : Caller)
        → IsMet S.Store s c (asked.rollback (string_bytes owned.0) (string_bytes owned.1)) result tables.old
        tables.new }
{
    let number = older(tables.outline(), &owned)?;
    answered(
        tables.switch_generation(owned.0.as_str(), owned.1.as_str(), number),
        Answer::Generation(number),
    )
}

/// Makes a generation current. The answer is the number of that generation.
pub fn switch<S: Alter>(
    tables: &mut Tables<S>,
    owned: (String, String),
    number: u32,
) -> Result<Answer, Stop>
    ensures { (s : Settings) (c : Caller)
        → IsMet S.Store s c (asked.switch (string_bytes owned.0) (string_bytes owned.1) number) result tables.old
        tables.new }
{
    may_switch(tables.outline(), &owned, number)?;
    answered(
        tables.switch_generation(owned.0.as_str(), owned.1.as_str(), number),
        Answer::Generation(number),
    )
}

/// Deletes a generation that isn't the current one.
pub fn delete_generation<S: Alter>(
    tables: &mut Tables<S>,
    owned: (String, String),
    number: u32,
) -> Result<Answer, Stop>
    ensures { (s : Settings) (c : Caller)
        → IsMet S.Store s c (asked.delete_generation (string_bytes owned.0) (string_bytes owned.1) number) result
        tables.old tables.new }
{
    may_delete(tables.outline(), &owned, number)?;
    answered(
        tables.drop_generation(owned.0.as_str(), owned.1.as_str(), number),
        Answer::Changed,
    )
}
