//! What is done with a store after a request.
ghost use Rattle.std.specs.Prelude.{◌≡◌, true};
ghost use Rattle.policy.specs.Settings.{Settings};
ghost use Rattle.model.specs.World.{World};
ghost use Rattle.model.specs.Effects.{effect};
ghost use Rattle.store_types.specs.View.{request_view};
ghost use Rattle.tool.specs.Requests.{only_reads};

use sqlite::{Alter, Connection};
use store_types::Request;
use tables::Close;

/// Whether a request only reads: it has no effect, whatever the store holds.
pub(crate) fn reads(request: &Request) -> bool
    ensures exact { result ≡ only_reads (request_view request.now) }
    ensures still { result ≡ true → (settings : Settings) (w : World)
        → effect settings w (request_view request.now) ≡ w }
{
    match request {
        Request::Info(_) | Request::Nar(_) | Request::Ls(_) => true,
        Request::List | Request::Live | Request::Dead => true,
        Request::ListRoots | Request::RootsOf(_) | Request::Report => true,
        _ => false,
    }
}

/// Lets go of the connection of a store after a request. Unless the request only reads, the changes are brought into
/// the store's file, if it has one. A failure of that is ignored, since they are durable without it.
pub(crate) fn end<S: Alter + Drop + Close<Connection<S>>>(conn: Connection<S>, reads: bool) {
    if reads {
        drop(conn);
    } else {
        drop(S::close(conn));
    }
}
