//! Requests about the temporary roots of a session.
ghost use Rattle.std.specs.Prelude.{◌≡◌, IfOk};
ghost use Rattle.tool_words.specs.Asked.{on_session_view, optional_text};
ghost use Rattle.model.specs.Request as asked;
ghost use Rattle.store_types.specs.View.{request_view};
ghost use Rattle.tool.specs.Requests as spec;
ghost use Rattle.tool.specs.Requests.{Gives, IsAsked, owner_of};

use crate::named::owner;
use paths::{StoreDir, StorePath};
use policy::Caller;
use std::alloc::{AllocError, Global};
use store_types::Request;
use tool_pure::{Stop, parse_reference};
use tool_words::{TempAction, TempArguments};

/// The request that adds a path to the temporary roots of a session.
fn add(
    alloc: Global,
    caller: &Caller,
    session: &TempArguments<'_>,
    path: StorePath,
) -> Result<Request, AllocError>
    ensures { IfOk result
        (λ q. request_view q
        ≡ asked.add_temp (owner_of caller.now (optional_text session.now.owner)) session.now.session path) }
{
    let owner = owner(alloc, caller, session.owner)?;
    Ok(Request::AddTemp {
        owner,
        session: session.session,
        path,
    })
}

/// The request that ends a session.
fn end(alloc: Global, caller: &Caller, session: &TempArguments<'_>) -> Result<Request, AllocError>
    ensures { IfOk result
        (λ q. request_view q
        ≡ asked.end_session (owner_of caller.now (optional_text session.now.owner)) session.now.session) }
{
    let owner = owner(alloc, caller, session.owner)?;
    Ok(Request::EndSession {
        owner,
        session: session.session,
    })
}

/// The request that adds to a session's temporary roots, or ends the session.
pub(crate) fn change_session(
    alloc: Global,
    dir: &StoreDir,
    caller: &Caller,
    session: &TempArguments<'_>,
) -> Result<Request, Stop>
    ensures { IsAsked ⊥
        (Gives (spec.change_session dir.now (owner_of caller.now (optional_text session.now.owner)) session.now.session
        (on_session_view session.now.action))) result }
{
    match session.action {
        TempAction::Add(text) => {
            let path = parse_reference(alloc, dir, text)?;
            Ok(add(alloc, caller, session, path)?)
        }
        TempAction::End => Ok(end(alloc, caller, session)?),
    }
}
