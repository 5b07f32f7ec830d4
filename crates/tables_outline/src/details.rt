//! The parts of an object that few objects have.

ghost use Rattle.std.specs.Prelude.{◌≡◌, IfOk};
ghost use Rattle.tables_outline.specs.Details.{details_of, details_view};

use crate::outputs::Outputs;
use paths::{Ca, StorePath};
use std::alloc::{AllocError, Global};

/// The deriver, the content address and the outputs of an object.
#[derive(Drop)]
pub struct Details {
    /// The deriver, if one is recorded.
    pub deriver: Option<StorePath>,
    /// The content address, if one is recorded.
    pub ca: Option<Ca>,
    /// The outputs.
    pub outputs: Outputs,
}

/// Boxes details. An object that has none of them needs no box.
pub(crate) fn boxed(alloc: Global, details: Details) -> Result<Option<Box<Details>>, AllocError>
    ensures { IfOk result (λ it. details_of it ≡ details_view details) }
{
    if details.deriver.is_none()
        && details.ca.is_none()
        && details.outputs.names.is_empty()
        && details.outputs.paths.is_empty()
    {
        return Ok(None);
    }
    let it = Box::new(alloc, details)?;
    Ok(Some(it))
}
