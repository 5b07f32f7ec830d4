//! The responses to messages, and the statuses of refusals.
ghost use Rattle.std.specs.Prelude.{◌≡◌, IfOk, length, option_map, string_bytes};
ghost use Rattle.wire_server.specs.ReplyHead.{reply_head};
ghost use Rattle.wire_server.specs.Responses.{replied, plain, refused, status_of};

use crate::reply_head::{ReplyHead, write_reply_head};
use http::StatusCode;
use model::{Refusal, refusal_line};
use std::alloc::{AllocError, Global};
use streams::{Pieces, in_pieces};

/// The response to a message.
#[derive(Drop)]
pub struct Response {
    pub status: StatusCode,
    /// The media type of the text.
    pub kind: &'static str,
    /// The methods of the route, if the method of the request is refused.
    pub allow: Option<&'static str>,
    pub text: Pieces,
}

impl Response {
    /// The head of the reply, with the number of the text's bytes. `close`: whether the connection is closed after the
    /// reply.
    pub fn head(&self, alloc: Global, close: bool) -> Result<String, AllocError>
        ensures { IfOk result (λ head. string_bytes head
            ≡ reply_head self.now.status self.now.kind.now (option_map (λ methods. methods.now) self.now.allow) close
            (length self.now.text)) }
    {
        let mut head = String::new(alloc);
        let reply = ReplyHead {
            status: self.status,
            kind: self.kind,
            allow: self.allow,
            close,
            size: self.text.len(),
        };
        write_reply_head(&mut head, &reply)?;
        Ok(head)
    }

    /// A response with a status and a plain text.
    pub fn plain(alloc: Global, status: StatusCode, text: &str) -> Result<Response, AllocError>
        ensures { IfOk result (λ r. replied r ≡ plain status text.now) }
    {
        Ok(Response {
            status,
            kind: "text/plain",
            allow: None,
            text: in_pieces(alloc, text.as_bytes())?,
        })
    }

    /// The response for a refusal. `allow` lists the route's methods, for a refused method.
    pub fn refused(
        alloc: Global,
        refusal: Refusal,
        allow: Option<&'static str>,
    ) -> Result<Response, AllocError>
        ensures { IfOk result (λ r. replied r ≡ refused refusal (option_map (λ methods. methods.now) allow.entry)) }
    {
        Ok(Response {
            status: refusal_status(refusal),
            kind: "text/plain",
            allow,
            text: in_pieces(alloc, refusal_line(refusal).as_bytes())?,
        })
    }
}

/// The status of a refusal: 404 for something that doesn't exist, 405 for a method that the route doesn't have, else
/// 400.
pub fn refusal_status(refusal: Refusal) -> StatusCode
    ensures { result ≡ status_of refusal }
{
    match refusal {
        Refusal::NotValid
        | Refusal::NoRoot
        | Refusal::NoProfile
        | Refusal::NoGeneration
        | Refusal::NoRoute => StatusCode::NOT_FOUND,
        Refusal::BadMethod => StatusCode::METHOD_NOT_ALLOWED,
        _ => StatusCode::BAD_REQUEST,
    }
}
