//! Tests of owners, of names of roots and profiles, and of labels.
ghost use Rattle.std.specs.Prelude.{◌≡◌, ◌&&◌, string_bytes};
ghost use Rattle.paths.specs.Names.{is_plain_name};
ghost use Rattle.model.specs.Tests.{unless};
ghost use Rattle.store_types.specs.Tested.{Tested};
ghost use Rattle.std.specs.List.{list_all};
ghost use Rattle.paths.specs.Root.{is_runtime_label};

use paths::labels::is_runtime_label;
use paths::{StorePath, is_plain_name};
use store_types::Refusal;

/// Tests that the name of a permanent root, or the owner of a session, is a plain name.
pub(crate) fn is_named(name: &str) -> Result<(), Refusal>
    ensures { Tested result (unless (is_plain_name name.now) Refusal.BadRootName) }
{
    if !is_plain_name(name) {
        return Err(Refusal::BadRootName);
    }
    Ok(())
}

/// Whether an owner and the name of what they own are both plain.
fn are_plain(owner: &str, name: &str) -> bool
    ensures { result ≡ (is_plain_name owner.now && is_plain_name name.now) }
{
    is_plain_name(owner) && is_plain_name(name)
}

/// Tests that an owner and the name of what they own are plain names.
pub(crate) fn are_named(owned: &(String, String)) -> Result<(), Refusal>
    ensures { Tested result (unless (is_plain_name (string_bytes owned.now.0)
        && is_plain_name (string_bytes owned.now.1)) Refusal.BadRootName) }
{
    if !are_plain(owned.0.as_str(), owned.1.as_str()) {
        return Err(Refusal::BadRootName);
    }
    Ok(())
}

/// Whether each label is one of a runtime root.
pub(crate) fn are_runtime_labels(pairs: &[(String, StorePath)]) -> bool
    ensures { result ≡ list_all (λ p. is_runtime_label (string_bytes p.0)) pairs.now }
{
    pairs.iter().all(|pair| is_runtime_label(pair.0.as_str()))
}
