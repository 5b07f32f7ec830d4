//! Tests of the numbers of generations.

ghost use Rattle.std.specs.Prelude.{◌≡◌, ◌==◌, not, is_some, Some};
ghost use Rattle.model.specs.World.{World};
ghost use Rattle.model.specs.Profiles as profiles;
ghost use Rattle.model.specs.Profiles.{previous, profile_at};
ghost use Rattle.tables_outline.specs.Maps.{pair_bytes};
ghost use Rattle.tables_outline.specs.Outline.{outline_of, profile_of};
ghost use Rattle.model.specs.Tests.{unless};
ghost use Rattle.store_types.specs.Tested.{Finds, Tested};

use store_types::Refusal;
use tables_outline::Outline;

/// Tests that a profile has a generation below the current one. Returns the greatest such number.
pub(crate) fn has_older(outline: &Outline, owned: &(String, String)) -> Result<u32, Refusal>
    ensures { (w : World) → outline_of w ≡ outline.now → Finds (λ n. Some n) result
        (unless (is_some (previous (profile_at w (pair_bytes owned.now)))) Refusal.NoOlderGeneration)
        (previous (profile_at w (pair_bytes owned.now))) }
{
    match outline.previous_generation(owned) {
        Some(older) => Ok(older),
        None => Err(Refusal::NoOlderGeneration),
    }
}

/// Tests that a profile has a generation of this number.
pub(crate) fn has_generation(
    outline: &Outline,
    owned: &(String, String),
    number: u32,
) -> Result<(), Refusal>
    ensures { (w : World) → outline_of w ≡ outline.now
        → Tested result
        (unless (profiles.has_generation (profile_at w (pair_bytes owned.now)) number) Refusal.NoGeneration) }
{
    if !outline.has_generation(owned, number) {
        return Err(Refusal::NoGeneration);
    }
    Ok(())
}

/// Whether this is the number of the current generation of a profile.
fn is_current(outline: &Outline, owned: &(String, String), number: u32) -> bool
    ensures { result ≡ ((profile_of outline.now (pair_bytes owned.now)).current == number) }
{
    outline.current_generation(owned) == number
}

/// Tests that this isn't the number of the current generation of a profile.
pub(crate) fn is_not_current(
    outline: &Outline,
    owned: &(String, String),
    number: u32,
) -> Result<(), Refusal>
    ensures { (w : World) → outline_of w ≡ outline.now
        → Tested result
        (unless (not ((profile_at w (pair_bytes owned.now)).current == number)) Refusal.CurrentGeneration) }
{
    if is_current(outline, owned, number) {
        return Err(Refusal::CurrentGeneration);
    }
    Ok(())
}
