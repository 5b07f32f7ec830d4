//! Requests about profiles.
ghost use Rattle.std.specs.Prelude.{◌≡◌, IfOk, string_bytes};
ghost use Rattle.tool_words.specs.Asked.{on_profile_view, optional_text};
ghost use Rattle.model.specs.Request as asked;
ghost use Rattle.store_types.specs.View.{request_view};
ghost use Rattle.tool.specs.Requests as spec;
ghost use Rattle.tool.specs.Requests.{Gives, IsAsked, owner_of};

use crate::named::owner;
use paths::{StoreDir, StorePath};
use policy::Caller;
use std::alloc::{AllocError, Global};
use store_types::Request;
use tool_pure::{Stop, parse_reference};
use tool_words::{ProfileAction, ProfileArguments};

/// The owner and the name of a profile. The owner is the caller if none is named.
fn names(
    alloc: Global,
    caller: &Caller,
    profile: &ProfileArguments<'_>,
) -> Result<(String, String), AllocError>
    ensures owner { IfOk result (λ n. string_bytes n.0 ≡ owner_of caller.now (optional_text profile.now.owner)) }
    ensures name { IfOk result (λ n. string_bytes n.1 ≡ profile.now.name.now) }
{
    let owner = owner(alloc, caller, profile.owner)?;
    let name = String::from_str(alloc, profile.name)?;
    Ok((owner, name))
}

/// The request that makes a path the current generation of a profile.
fn set(
    alloc: Global,
    caller: &Caller,
    profile: &ProfileArguments<'_>,
    path: StorePath,
) -> Result<Request, AllocError>
    ensures { IfOk result
        (λ q. request_view q
        ≡ asked.set_profile (owner_of caller.now (optional_text profile.now.owner)) profile.now.name.now path) }
{
    let (owner, name) = names(alloc, caller, profile)?;
    Ok(Request::SetProfile {
        user: owner,
        profile: name,
        path,
    })
}

/// The request that makes the generation below the current one current.
fn rollback(
    alloc: Global,
    caller: &Caller,
    profile: &ProfileArguments<'_>,
) -> Result<Request, AllocError>
    ensures { IfOk result
        (λ q. request_view q
        ≡ asked.rollback (owner_of caller.now (optional_text profile.now.owner)) profile.now.name.now) }
{
    let (owner, name) = names(alloc, caller, profile)?;
    Ok(Request::Rollback {
        user: owner,
        profile: name,
    })
}

/// The request that makes the generation of a number current.
fn switch(
    alloc: Global,
    caller: &Caller,
    profile: &ProfileArguments<'_>,
    number: u32,
) -> Result<Request, AllocError>
    ensures { IfOk result
        (λ q. request_view q
        ≡ asked.switch (owner_of caller.now (optional_text profile.now.owner)) profile.now.name.now number) }
{
    let (owner, name) = names(alloc, caller, profile)?;
    Ok(Request::Switch {
        user: owner,
        profile: name,
        n: number,
    })
}

/// The request that deletes the generation of a number.
fn delete(
    alloc: Global,
    caller: &Caller,
    profile: &ProfileArguments<'_>,
    number: u32,
) -> Result<Request, AllocError>
    ensures { IfOk result
        (λ q. request_view q
        ≡ asked.delete_generation (owner_of caller.now (optional_text profile.now.owner)) profile.now.name.now number) }
{
    let (owner, name) = names(alloc, caller, profile)?;
    Ok(Request::DeleteGeneration {
        user: owner,
        profile: name,
        n: number,
    })
}

/// The request that changes a profile.
pub(crate) fn change_profile(
    alloc: Global,
    dir: &StoreDir,
    caller: &Caller,
    profile: &ProfileArguments<'_>,
) -> Result<Request, Stop>
    ensures { IsAsked ⊥
        (Gives (spec.change_profile dir.now (owner_of caller.now (optional_text profile.now.owner)) profile.now.name.now
        (on_profile_view profile.now.action))) result }
{
    match profile.action {
        ProfileAction::Set(text) => {
            let path = parse_reference(alloc, dir, text)?;
            Ok(set(alloc, caller, profile, path)?)
        }
        ProfileAction::Rollback => Ok(rollback(alloc, caller, profile)?),
        ProfileAction::Switch(number) => Ok(switch(alloc, caller, profile, number)?),
        ProfileAction::Delete(number) => Ok(delete(alloc, caller, profile, number)?),
    }
}
