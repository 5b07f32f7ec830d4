//! Requests made from the body alone.
ghost use Rattle.std.specs.Prelude.{◌≡◌, IfOk, Err, List, ℕ};
ghost use Rattle.wire_bodies.specs.Bodies.{Says, IsRuntime};
ghost use Rattle.model.specs.World.{Pair};
ghost use Rattle.model.specs.Request.{replace_runtime as asked};
ghost use Rattle.store_types.specs.View.{request_view};
ghost use Rattle.wire_requests.specs.declared.kind.Kind.TheVariants as kinds;
ghost use Rattle.wire_requests.specs.Reads.{Reads};

use crate::error::AskError;
use paths::StoreDir;
use std::alloc::Global;
use store_types::Request;
use wire_bodies::{BodyError, DeleteHead, collect_body, delete_body};

/// The request of a whole body of `POST /runtime`, which sets runtime roots in place of all others.
///
/// ```rust
/// use paths::StoreDir;
/// use store::Request;
///
/// let dir = StoreDir::parse(alloc, "/nix/store")?;
/// let body = b"root: /proc/1/exe 22222222222222222222222222222222-y\n\n";
/// let Request::ReplaceRuntime(pairs) = wire::runtime_body(alloc, &dir, body)? else {
///     return Err(Fail::new("another request"));
/// };
/// assert_eq!(rt; pairs.len(), 1);
/// ```
///
/// # Errors
///
/// `BadBodyHead` if and only if the body isn't a list of runtime roots; `Memory` if memory runs out.
pub fn runtime_body(alloc: Global, dir: &StoreDir, body: &[u8]) -> Result<Request, BodyError>
    ensures ok { IfOk result (λ q. (named : List Pair) × Says (IsRuntime dir.now) body.now named
        × (request_view q ≡ asked named)) }
    ensures bad { result ≡ Err BodyError.BadBodyHead → (named : List Pair) → Says (IsRuntime dir.now) body.now named
        → ⊥ }
{
    let roots = wire_bodies::runtime_body(alloc, dir, body)?;
    Ok(Request::ReplaceRuntime(roots))
}

/// The request that sets runtime roots in place of all others.
pub(crate) fn replace_runtime(
    alloc: Global,
    dir: &StoreDir,
    body: &[u8],
) -> Result<Request, AskError>
    ensures { (target : List ℕ) → Reads dir.now kinds.ReplaceRuntime target body.now result }
{
    Ok(runtime_body(alloc, dir, body)?)
}

/// The request for a collection.
pub(crate) fn collect(alloc: Global, body: &[u8]) -> Result<Request, AskError>
    ensures { (dir target : List ℕ) → Reads dir kinds.Collect target body.now result }
{
    let head = collect_body(alloc, body)?;
    Ok(Request::Collect {
        ignore_liveness: head.ignore_liveness.unwrap_or(false),
        max_freed: head.max_freed,
    })
}

/// The request that deletes objects.
pub(crate) fn delete(alloc: Global, dir: &StoreDir, body: &[u8]) -> Result<Request, AskError>
    ensures { (target : List ℕ) → Reads dir.now kinds.Delete target body.now result }
{
    let head = delete_body(alloc, dir, body)?;
    let DeleteHead {
        paths,
        ignore_liveness,
    } = head;
    Ok(Request::Delete {
        paths,
        ignore_liveness: ignore_liveness.unwrap_or(false),
    })
}
