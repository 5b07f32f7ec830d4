//! The body of an add.
ghost use Rattle.std.specs.Prelude.{◌≡◌, IfOk, Err, List, ℕ};
ghost use Rattle.wire_bodies.specs.Bodies.{IsNamedBody};
ghost use Rattle.wire_bodies.specs.declared.heads.NamedHead.{NamedHead as NamedOf};

use crate::error::BodyError;
use crate::heads::{NamedHead, named_head};
use crate::parts::body_of;
use paths::StoreDir;
use std::alloc::Global;

/// The add of a body, and the contents or the archive after its empty line, which are borrowed and not examined.
///
/// # Errors
///
/// `BadBodyHead` if and only if the body isn't an add; `Memory` if memory was refused.
pub fn named_body<'b>(
    alloc: Global,
    dir: &StoreDir,
    body: &'b [u8],
) -> Result<(NamedHead, &'b [u8]), BodyError>
    ensures ok { IfOk result (λ add. IsNamedBody dir.now body.now add.0 add.1.now) }
    ensures bad { result ≡ Err BodyError.BadBodyHead
        → (head : NamedOf) (contents : List ℕ) → IsNamedBody dir.now body.now head contents → ⊥ }
{
    let Some(parts) = body_of(body) else {
        return Err(BodyError::BadBodyHead);
    };
    let head = named_head(alloc, dir, &parts.entries)?;
    Ok((head, parts.payload))
}
