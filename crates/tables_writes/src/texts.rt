//! The texts in the row of an object.

ghost use Rattle.std.specs.Prelude.{◌≡◌, List, ℕ, Some, IfOk, IsSome, option_map, string_bytes};
ghost use Rattle.paths.specs.ContentAddress.{address_of};
ghost use Rattle.tables_world.specs.Rows.{address_in};

use std::alloc::{AllocError, Global};
use tables_outline::Summary;

/// The deriver and the content address of an object as texts, if it has them.
#[derive(Drop)]
pub(crate) struct Texts {
    pub(crate) deriver: Option<String>,
    pub(crate) ca: Option<String>,
}

fn deriver_text(alloc: Global, object: &Summary) -> Result<Option<String>, AllocError>
    ensures { IfOk result (λ text. option_map string_bytes text ≡ object.now.deriver) }
{
    match object.deriver() {
        Some(path) => Ok(Some(String::from_str(alloc, path.as_str())?)),
        None => Ok(None),
    }
}

fn address_text(alloc: Global, object: &Summary) -> Result<Option<String>, AllocError>
    ensures text { IfOk result (λ text. address_in (option_map string_bytes text) ≡ object.now.ca) }
    ensures valid { IfOk result (λ text. (t : List ℕ) → option_map string_bytes text ≡ Some t → IsSome (address_of t)) }
{
    match object.ca() {
        Some(ca) => Ok(Some(ca.to_text(alloc)?)),
        None => Ok(None),
    }
}

/// The texts of an object.
pub(crate) fn texts_of(alloc: Global, object: &Summary) -> Result<Texts, AllocError>
    ensures deriver { IfOk result (λ texts. option_map string_bytes texts.deriver ≡ object.now.deriver) }
    ensures ca { IfOk result (λ texts. address_in (option_map string_bytes texts.ca) ≡ object.now.ca) }
    ensures valid { IfOk result
        (λ texts. (t : List ℕ) → option_map string_bytes texts.ca ≡ Some t → IsSome (address_of t)) }
{
    let deriver = deriver_text(alloc, object)?;
    let ca = address_text(alloc, object)?;
    Ok(Texts { deriver, ca })
}
