//! Replies of the store, and refusals of messages that aren't requests, as responses.
ghost use Rattle.std.specs.Prelude.{◌≡◌, IfOk};
ghost use Rattle.wire.specs.Replies as spec;
ghost use Rattle.wire_server.specs.Responses.{replied};
ghost use Rattle.store_types.specs.View.{reply_view};
ghost use Rattle.wire.specs.Replies.{response_to};
ghost use Rattle.wire.specs.Courses.{IsRefusalOf};

use http::StatusCode;
use paths::StoreDir;
use report::{Refusal, reply_pieces};
use std::alloc::{AllocError, Global};
use store_types::{Answer, Reply};
use wire_requests::AskError;
use wire_server::{Response, refusal_status};

/// The status of a reply.
fn status_of(reply: &Reply) -> StatusCode
    ensures { result ≡ spec.status_of (reply_view reply.now) }
{
    match reply {
        Reply::Done(_) => StatusCode::OK,
        Reply::Denied(_, _) => StatusCode::FORBIDDEN,
        Reply::Refused(refusal) => refusal_status(*refusal),
        Reply::Failed(_) => StatusCode::SERVICE_UNAVAILABLE,
    }
}

/// The media type of the text of a reply.
fn kind_of(reply: &Reply) -> &'static str
    ensures { result.now ≡ spec.kind_of (reply_view reply.now) }
{
    match reply {
        Reply::Done(Answer::Archive(_)) => "application/octet-stream",
        _ => "text/plain",
    }
}

/// The response for a reply of the store.
pub(crate) fn respond(alloc: Global, dir: &StoreDir, reply: Reply) -> Result<Response, AllocError>
    ensures { IfOk result (λ r. replied r ≡ response_to dir.now (reply_view reply)) }
{
    let status = status_of(&reply);
    let kind = kind_of(&reply);
    Ok(Response {
        status,
        kind,
        allow: None,
        text: reply_pieces(alloc, dir, reply)?,
    })
}

/// The response to a message that isn't a request, by what its reading has decided.
///
/// # Errors
///
/// Memory was refused, for the reading or now.
pub(crate) fn refuse(alloc: Global, fault: AskError) -> Result<Response, AllocError>
    ensures { IsRefusalOf fault result }
{
    match fault {
        AskError::BadPath => Response::refused(alloc, Refusal::BadStorePath, None),
        AskError::BadBodyHead => Response::refused(alloc, Refusal::BadBodyHead, None),
        AskError::Memory => Err(AllocError),
    }
}
