//! Requests that name something in the target, and a path in the body.
ghost use Rattle.wire_requests.specs.declared.kind.Kind.TheVariants as kinds;
ghost use Rattle.wire_requests.specs.Reads.{ReadsBy};

use crate::error::AskError;
use crate::parameters::Parameters;
use paths::StoreDir;
use paths::numbers::session;
use std::alloc::Global;
use store_types::Request;
use wire_bodies::path_body;

/// The request that sets a permanent root.
pub(crate) fn set_permanent(
    alloc: Global,
    dir: &StoreDir,
    parameters: Parameters,
    body: &[u8],
) -> Result<Request, AskError>
    ensures { ReadsBy dir.now kinds.SetPermanent parameters body.now result }
{
    let path = path_body(alloc, dir, body)?;
    Ok(Request::SetPermanent {
        name: parameters.name,
        path,
    })
}

/// The request that sets a root of a user.
pub(crate) fn set_user_root(
    alloc: Global,
    dir: &StoreDir,
    parameters: Parameters,
    body: &[u8],
) -> Result<Request, AskError>
    ensures { ReadsBy dir.now kinds.SetUserRoot parameters body.now result }
{
    let path = path_body(alloc, dir, body)?;
    Ok(Request::SetUserRoot {
        user: parameters.user,
        name: parameters.name,
        path,
    })
}

/// The request that makes a path the current generation of a profile.
pub(crate) fn set_profile(
    alloc: Global,
    dir: &StoreDir,
    parameters: Parameters,
    body: &[u8],
) -> Result<Request, AskError>
    ensures { ReadsBy dir.now kinds.SetProfile parameters body.now result }
{
    let path = path_body(alloc, dir, body)?;
    Ok(Request::SetProfile {
        user: parameters.user,
        profile: parameters.name,
        path,
    })
}

/// The request that adds a path to those that a session keeps.
pub(crate) fn add_temp(
    alloc: Global,
    dir: &StoreDir,
    parameters: Parameters,
    body: &[u8],
) -> Result<Request, AskError>
    ensures { ReadsBy dir.now kinds.AddTemp parameters body.now result }
{
    let path = path_body(alloc, dir, body)?;
    Ok(Request::AddTemp {
        session: session(parameters.session.as_str()),
        owner: parameters.user,
        path,
    })
}
