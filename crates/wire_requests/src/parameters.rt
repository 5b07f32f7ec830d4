//! The parameters of a target, by their names.
ghost use Rattle.std.specs.Prelude.{◌≡◌, [], IfOk, string_bytes, unwrap_or};
ghost use Rattle.matchit.specs.Params.{AllText, named};
ghost use Rattle.wire_requests.specs.Parameters.{AreNamed, pairs_of};

use matchit::Params;
use std::alloc::{AllocError, Global};

/// The values of a route's parameters in a target. A parameter that the route doesn't have is empty.
#[derive(Drop)]
pub struct Parameters {
    pub(crate) path: String,
    pub(crate) user: String,
    pub(crate) name: String,
    pub(crate) number: String,
    pub(crate) session: String,
}

/// A copy of the value of the parameter of a name. The empty text if the route doesn't have that parameter.
fn copy(alloc: Global, params: &Params, name: &str) -> Result<String, AllocError>
    ensures { AllText (pairs_of params.now)
        → IfOk result (λ text. string_bytes text ≡ unwrap_or (named name.now (pairs_of params.now)) []) }
{
    match params.get(name) {
        Some(text) => String::from_str(alloc, text),
        None => String::from_str(alloc, ""),
    }
}

impl Parameters {
    /// Copies of all values, which don't borrow the target.
    pub(crate) fn of(alloc: Global, params: &Params) -> Result<Parameters, AllocError>
        ensures { AllText (pairs_of params.now) → IfOk result (AreNamed (pairs_of params.now)) }
    {
        Ok(Parameters {
            path: copy(alloc, params, "path")?,
            user: copy(alloc, params, "user")?,
            name: copy(alloc, params, "name")?,
            number: copy(alloc, params, "n")?,
            session: copy(alloc, params, "s")?,
        })
    }
}
