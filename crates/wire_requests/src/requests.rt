//! The requests of a route, by method.
ghost use Rattle.std.specs.Prelude.{◌≡◌};
ghost use Rattle.wire_requests.specs.Methods as spec;
ghost use Rattle.wire_requests.specs.Methods.{allowed};

use crate::kind::Kind;
use http::Method;
use std::alloc::Global;

/// The requests of a route, by method.
#[derive(Clone, Copy, Debug, PartialEq, Eq)]
pub enum Requests {
    Get(Kind),
    Post(Kind),
    Delete(Kind),
    /// The first by POST, the second by DELETE.
    PostOrDelete(Kind, Kind),
}

impl Requests {
    /// The request of the route for a method. `None` if the route doesn't have the method, also if memory is refused
    /// for its word, since the routes' own methods take no memory.
    pub fn kind(self, alloc: Global, method: &[u8]) -> Option<Kind>
        ensures { result ≡ spec.kind_of self method.now }
    {
        let method = match Method::from_bytes(alloc, method) {
            Ok(method) => method,
            Err(_) => return None,
        };
        match self {
            Requests::Get(kind) => (method == Method::GET).then_some(kind),
            Requests::Post(kind) => (method == Method::POST).then_some(kind),
            Requests::Delete(kind) => (method == Method::DELETE).then_some(kind),
            Requests::PostOrDelete(kind, other) => {
                if method == Method::POST {
                    Some(kind)
                } else {
                    (method == Method::DELETE).then_some(other)
                }
            }
        }
    }

    /// The methods of the route, as a reply with status 405 lists them.
    pub fn allow(self) -> &'static str
        ensures { result.now ≡ allowed self }
    {
        match self {
            Requests::Get(_) => "GET",
            Requests::Post(_) => "POST",
            Requests::Delete(_) => "DELETE",
            Requests::PostOrDelete(_, _) => "POST, DELETE",
        }
    }
}
