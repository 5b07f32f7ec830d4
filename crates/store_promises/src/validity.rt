//! Tests that what a request names exists.

ghost use Rattle.std.specs.Prelude.{◌≡◌, IsTrue, OnOk, string_bytes};
ghost use Rattle.std.specs.List.{list_all};
ghost use Rattle.std.specs.FinMap as finite;
ghost use Rattle.model.specs.World.{World, has};
ghost use Rattle.model.specs.Profiles as profiles;
ghost use Rattle.tables_outline.specs.Outline.{outline_of};
ghost use Rattle.model.specs.Tests.{unless};
ghost use Rattle.store_types.specs.Tested.{Tested};

use paths::StorePath;
use store_types::Refusal;
use tables_outline::Outline;

/// Tests that a path is valid.
pub fn is_valid(outline: &Outline, path: &StorePath) -> Result<(), Refusal>
    ensures { (w : World) → outline_of w ≡ outline.now → Tested result (unless (has w path.now) Refusal.NotValid) }
{
    if !outline.has(path) {
        return Err(Refusal::NotValid);
    }
    Ok(())
}

/// Whether each path is one of the outline.
fn has_all(outline: &Outline, paths: &[StorePath]) -> bool
    ensures { result ≡ list_all (finite.contains_key outline.now.objects) paths.now }
{
    paths.iter().all(|path| outline.has(path))
}

/// Tests that paths are valid.
pub fn are_valid(outline: &Outline, paths: &[StorePath]) -> Result<(), Refusal>
    ensures { (w : World) → outline_of w ≡ outline.now
        → Tested result (unless (list_all (has w) paths.now) Refusal.NotValid) }
{
    if !has_all(outline, paths) {
        return Err(Refusal::NotValid);
    }
    Ok(())
}

/// Tests that a permanent root of this name exists.
pub fn has_permanent(outline: &Outline, name: &str) -> Result<(), Refusal>
    ensures { (w : World) → outline_of w ≡ outline.now
        → Tested result (unless (finite.contains_key w.permanent name.now) Refusal.NoRoot) }
{
    if !outline.has_permanent(name) {
        return Err(Refusal::NoRoot);
    }
    Ok(())
}

/// Tests that a user root of this owner and name exists.
pub fn has_user_root(outline: &Outline, owned: &(String, String)) -> Result<(), Refusal>
    ensures { (w : World) → outline_of w ≡ outline.now
        → Tested result
        (unless (finite.contains_key w.user_roots (string_bytes owned.now.0, string_bytes owned.now.1))
        Refusal.NoRoot) }
{
    if !outline.has_user_root(owned) {
        return Err(Refusal::NoRoot);
    }
    Ok(())
}

/// Tests that a profile of this owner and name exists.
pub fn has_profile(outline: &Outline, owned: &(String, String)) -> Result<(), Refusal>
    ensures reported { (w : World) → outline_of w ≡ outline.now
        → Tested result
        (unless (profiles.has_profile w (string_bytes owned.now.0, string_bytes owned.now.1)) Refusal.NoProfile) }
    ensures present { OnOk result
        (IsTrue (finite.contains_key outline.now.profiles (string_bytes owned.now.0, string_bytes owned.now.1))) }
{
    if !outline.has_profile(owned) {
        return Err(Refusal::NoProfile);
    }
    Ok(())
}
