//! The labels of roots.

ghost use Rattle.std.specs.Prelude.{◌≡◌, IfOk, string_bytes};
ghost use Rattle.paths.specs.Root.{generation_label as label_of_generation, permanent_label as label_of_permanent};
ghost use Rattle.paths.specs.Root.{temporary_label as label_of_session, user_label as label_of_user};

use std::alloc::{AllocError, Global};
use std::fmt::Write;

/// The label of a permanent root.
pub(crate) fn permanent_label(alloc: Global, name: &str) -> Result<String, AllocError>
    ensures { IfOk result (λ l. string_bytes l ≡ label_of_permanent name.now) }
{
    let mut label = String::from_str(alloc, "gcroots/")?;
    label.push_str(name)?;
    Ok(label)
}

/// The label of a user root.
pub(crate) fn user_label(alloc: Global, owner: &str, name: &str) -> Result<String, AllocError>
    ensures { IfOk result (λ l. string_bytes l ≡ label_of_user owner.now name.now) }
{
    let mut label = String::from_str(alloc, "gcroots/per-user/")?;
    label.push_str(owner)?;
    label.push_str("/")?;
    label.push_str(name)?;
    Ok(label)
}

/// The label of a generation of a profile.
pub(crate) fn generation_label(
    alloc: Global,
    owner: &str,
    name: &str,
    number: u32,
) -> Result<String, AllocError>
    ensures { IfOk result (λ l. string_bytes l ≡ label_of_generation owner.now name.now number) }
{
    let mut label = String::from_str(alloc, "profiles/per-user/")?;
    label.push_str(owner)?;
    label.push_str("/")?;
    label.push_str(name)?;
    write!(label, "-{number}-link")?;
    Ok(label)
}

/// The label of a temporary root.
pub(crate) fn temporary_label(alloc: Global, session: u32) -> Result<String, AllocError>
    ensures { IfOk result (λ l. string_bytes l ≡ label_of_session session) }
{
    let mut label = String::new(alloc);
    write!(label, "{{temp:{session}}}")?;
    Ok(label)
}
