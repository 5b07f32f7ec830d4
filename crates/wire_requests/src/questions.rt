//! Requests about a path in the target.
ghost use Rattle.std.specs.Prelude.{string_bytes};
ghost use Rattle.wire_requests.specs.declared.kind.Kind.TheVariants as kinds;
ghost use Rattle.wire_requests.specs.Reads.{ReadsBare, ReadsPath};

use crate::error::AskError;
use crate::parameters::Parameters;
use paths::StorePath;
use std::alloc::Global;
use store_types::Request;

/// The path of the base name in the target. The body has to be blank; `is_blank` is whether it is.
fn path_with_blank_body(
    alloc: Global,
    parameters: &Parameters,
    is_blank: bool,
) -> Result<StorePath, AskError>
    ensures { ReadsPath (string_bytes parameters.now.path) is_blank result }
{
    let path = StorePath::from_base(alloc, parameters.path.as_str())?;
    if is_blank {
        Ok(path)
    } else {
        Err(AskError::BadBodyHead)
    }
}

/// The request for the record of an object.
pub(crate) fn info(
    alloc: Global,
    parameters: &Parameters,
    is_blank: bool,
) -> Result<Request, AskError>
    ensures { ReadsBare kinds.Info parameters.now is_blank result }
{
    Ok(Request::Info(path_with_blank_body(alloc, parameters, is_blank)?))
}

/// The request for the archive of a path.
pub(crate) fn archive(
    alloc: Global,
    parameters: &Parameters,
    is_blank: bool,
) -> Result<Request, AskError>
    ensures { ReadsBare kinds.Nar parameters.now is_blank result }
{
    Ok(Request::Nar(path_with_blank_body(alloc, parameters, is_blank)?))
}

/// The request for the listing of a path.
pub(crate) fn listing(
    alloc: Global,
    parameters: &Parameters,
    is_blank: bool,
) -> Result<Request, AskError>
    ensures { ReadsBare kinds.Ls parameters.now is_blank result }
{
    Ok(Request::Ls(path_with_blank_body(alloc, parameters, is_blank)?))
}

/// The request for the roots that reach the path.
pub(crate) fn roots_of(
    alloc: Global,
    parameters: &Parameters,
    is_blank: bool,
) -> Result<Request, AskError>
    ensures { ReadsBare kinds.RootsOf parameters.now is_blank result }
{
    Ok(Request::RootsOf(path_with_blank_body(alloc, parameters, is_blank)?))
}
