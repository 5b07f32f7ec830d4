//! Requests made from the target alone.
ghost use Rattle.std.specs.Prelude.{◌≡◌, List, ℕ, option_map};
ghost use Rattle.wire_requests.specs.Asks as spec;
ghost use Rattle.wire_requests.specs.Parameters.{AreParameters};
ghost use Rattle.wire_requests.specs.Reads.{ReadsTarget};
ghost use Rattle.store_types.specs.View.{request_view};

use crate::error::AskError;
use crate::kind::Kind;
use crate::parameters::Parameters;
use paths::numbers::{generation, session};
use store_types::Request;

/// The request of a kind whose values are all names in the target. `None` for any other kind.
fn by_names(kind: Kind, parameters: Parameters) -> Option<Request>
    ensures { (target : List ℕ) → AreParameters kind target parameters
        → option_map request_view result ≡ spec.by_names kind target }
{
    match kind {
        Kind::DropPermanent => Some(Request::DropPermanent {
            name: parameters.name,
        }),
        Kind::DropUserRoot => Some(Request::DropUserRoot {
            user: parameters.user,
            name: parameters.name,
        }),
        Kind::Rollback => Some(Request::Rollback {
            user: parameters.user,
            profile: parameters.name,
        }),
        Kind::Switch => Some(Request::Switch {
            n: generation(parameters.number.as_str()),
            user: parameters.user,
            profile: parameters.name,
        }),
        Kind::DeleteGeneration => Some(Request::DeleteGeneration {
            n: generation(parameters.number.as_str()),
            user: parameters.user,
            profile: parameters.name,
        }),
        Kind::EndSession => Some(Request::EndSession {
            session: session(parameters.session.as_str()),
            owner: parameters.user,
        }),
        _ => None,
    }
}

/// The request of a kind without values, or whose values are all names in the target. `None` for any other kind.
fn by_target(kind: Kind, parameters: Parameters) -> Option<Request>
    ensures { (target : List ℕ) → AreParameters kind target parameters
        → option_map request_view result ≡ spec.by_target kind target }
{
    match kind {
        Kind::List => Some(Request::List),
        Kind::ListRoots => Some(Request::ListRoots),
        Kind::Live => Some(Request::Live),
        Kind::Dead => Some(Request::Dead),
        Kind::Report => Some(Request::Report),
        _ => by_names(kind, parameters),
    }
}

/// The request of a kind without values, or whose values are all names in the target. `BadBodyHead` if the body isn't
/// blank. `Memory` for any other kind, of whose body nothing is known.
pub(crate) fn bare(kind: Kind, parameters: Parameters, is_blank: bool) -> Result<Request, AskError>
    ensures { (target : List ℕ) → AreParameters kind target parameters → ReadsTarget kind target is_blank result }
{
    let request = by_target(kind, parameters).ok_or(AskError::Memory)?;
    if !is_blank {
        return Err(AskError::BadBodyHead);
    }
    Ok(request)
}
