//! The request of a message.
ghost use Rattle.std.specs.Prelude.{◌≡◌, ℕ, List};
ghost use Rattle.wire_requests.specs.Kept.{IsParted, Represents};
ghost use Rattle.wire_requests.specs.Parameters.{AreParameters};
ghost use Rattle.wire_requests.specs.Reads.{Makes, ReadsBare, ReadsBy};

use crate::adds::{add_source, add_text, import};
use crate::body::{Body, Storage};
use crate::error::AskError;
use crate::kind::Kind;
use crate::named::{add_temp, set_permanent, set_profile, set_user_root};
use crate::parameters::Parameters;
use crate::parted::Parted;
use crate::questions::{archive, info, listing, roots_of};
use crate::sweeps::{collect, delete, replace_runtime};
use crate::targets::bare;
use paths::StoreDir;
use std::alloc::Global;
use store_types::Request;

/// Reads a request whose body says nothing; `is_blank` is whether it does. `Memory` for any other kind, of whose body
/// nothing is known.
fn read_bare(
    alloc: Global,
    kind: Kind,
    parameters: Parameters,
    is_blank: bool,
) -> Result<Request, AskError>
    ensures { ReadsBare kind parameters is_blank result }
{
    match kind {
        Kind::Info => info(alloc, &parameters, is_blank),
        Kind::Nar => archive(alloc, &parameters, is_blank),
        Kind::Ls => listing(alloc, &parameters, is_blank),
        Kind::RootsOf => roots_of(alloc, &parameters, is_blank),
        _ => bare(kind, parameters, is_blank),
    }
}

/// Reads a request whose body is lines. `Memory` for any other kind.
fn read_lines(
    alloc: Global,
    dir: &StoreDir,
    kind: Kind,
    parameters: Parameters,
    body: &[u8],
) -> Result<Request, AskError>
    ensures { ReadsBy dir.now kind parameters body.now result }
{
    match kind {
        Kind::SetPermanent => set_permanent(alloc, dir, parameters, body),
        Kind::SetUserRoot => set_user_root(alloc, dir, parameters, body),
        Kind::SetProfile => set_profile(alloc, dir, parameters, body),
        Kind::AddTemp => add_temp(alloc, dir, parameters, body),
        Kind::ReplaceRuntime => replace_runtime(alloc, dir, body),
        Kind::Collect => collect(alloc, body),
        Kind::Delete => delete(alloc, dir, body),
        _ => Err(AskError::Memory),
    }
}

/// Reads a request whose body is in one buffer. `Memory` for a kind whose body never is.
fn read_whole(
    alloc: Global,
    dir: &StoreDir,
    kind: Kind,
    parameters: Parameters,
    body: Vec<u8>,
) -> Result<Request, AskError>
    ensures { ReadsBy dir.now kind parameters body.items result }
{
    match kind {
        Kind::AddText => add_text(alloc, dir, body),
        _ => read_lines(alloc, dir, kind, parameters, &body),
    }
}

/// Makes a request whose payload is an archive. `Memory` for any other kind.
fn read_parted(alloc: Global, dir: &StoreDir, kind: Kind, body: Parted) -> Result<Request, AskError>
    ensures { (target all : List ℕ) → IsParted body.0 body.1 all → Makes dir.now kind target all result }
{
    match kind {
        Kind::AddSource => add_source(alloc, dir, body),
        Kind::Import => import(alloc, dir, body),
        _ => Err(AskError::Memory),
    }
}

/// The request of a message, made from its kind, the parameters of its target and what is kept of its body, which was
/// made for that kind. The contents of a text stay in the buffer of the body, and an archive passes from the body into
/// the request without a copy. If the archive is spent, so is the request.
///
/// # Errors
///
/// `BadPath` if and only if the target names a path that isn't a base name; `BadBodyHead` if and only if it doesn't and
/// the body isn't one of the kind; `Memory` if memory runs out, or the body was made for a kind whose body has another
/// form.
pub fn read_request(
    alloc: Global,
    dir: &StoreDir,
    kind: Kind,
    parameters: Parameters,
    body: Body,
) -> Result<Request, AskError>
    ensures { (target all : List ℕ) → AreParameters kind target parameters → Represents body all
        → Makes dir.now kind target all result }
{
    match body.into_kept() {
        Storage::Bare(came) => read_bare(alloc, kind, parameters, came.is_blank()),
        Storage::Whole(held) => read_whole(alloc, dir, kind, parameters, held.into_bytes()),
        Storage::Parted(parted) => read_parted(alloc, dir, kind, parted),
    }
}
