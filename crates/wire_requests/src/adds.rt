//! Requests that add an object.
ghost use Rattle.std.specs.Prelude.{◌≡◌, IfOk, Err, List, ℕ, is_none};
ghost use Rattle.wire_requests.specs.declared.kind.Kind.TheVariants as kinds;
ghost use Rattle.wire_bodies.specs.Bodies.{IsNamedBody, IsImportBody};
ghost use Rattle.wire_bodies.specs.Prefix.{prefix_of, rest_of};
ghost use Rattle.wire_bodies.specs.declared.heads.NamedHead.{NamedHead as NamedOf};
ghost use Rattle.wire_bodies.specs.declared.import.ImportHead.{ImportHead as ImportOf};
ghost use Rattle.intake.specs.Arrival.{bytes_in};
ghost use Rattle.model.specs.Request.{import_object};
ghost use Rattle.store_types.specs.View.{request_view};
ghost use Rattle.wire_requests.specs.View as given;
ghost use Rattle.store_types.specs.Spent.{is_spent};
ghost use Rattle.wire_requests.specs.Kept.{IsParted, bytes_of};
ghost use Rattle.wire_requests.specs.Reads.{Makes, MakesImport, Reads, ReadsImport};

use crate::error::AskError;
use crate::parted::Parted;
use intake::Intake;
use paths::StoreDir;
use std::alloc::Global;
use store_types::Request;
use streams::{Sink, drain_prefix};
use wire_bodies::{BodyError, ImportHead, NamedHead, named_body};

/// The request that adds a text object. The contents stay in the buffer of the body.
pub(crate) fn add_text(
    alloc: Global,
    dir: &StoreDir,
    mut body: Vec<u8>,
) -> Result<Request, AskError>
    ensures { (target : List ℕ) → Reads dir.now kinds.AddText target body.items result }
{
    let (head, contents) = named_body(alloc, dir, &body)?;
    let start = body.len().saturating_sub(contents.len());
    drain_prefix(&mut body, start);
    let NamedHead { name, references } = head;
    Ok(Request::AddText {
        name,
        refs: references,
        contents: body,
    })
}

/// The head of an add, read from the lines of a body before the payload.
fn named_prefix(alloc: Global, dir: &StoreDir, lines: &[u8]) -> Result<NamedHead, BodyError>
    ensures ok { IfOk result (λ head. (all : List ℕ) → prefix_of all ≡ lines.now
        → IsNamedBody dir.now all head (rest_of all)) }
    ensures bad { result ≡ Err BodyError.BadBodyHead → (all : List ℕ) → prefix_of all ≡ lines.now
        → (head : NamedOf) (nar : List ℕ) → IsNamedBody dir.now all head nar → ⊥ }
{
    let (head, _) = named_body(alloc, dir, lines)?;
    Ok(head)
}

/// The head of an import, read from the lines of a body before the archive.
fn import_prefix(alloc: Global, dir: &StoreDir, lines: &[u8]) -> Result<ImportHead, BodyError>
    ensures ok { IfOk result (λ head. (all : List ℕ) → prefix_of all ≡ lines.now
        → IsImportBody dir.now all head (rest_of all)) }
    ensures bad { result ≡ Err BodyError.BadBodyHead → (all : List ℕ) → prefix_of all ≡ lines.now
        → (head : ImportOf) (nar : List ℕ) → IsImportBody dir.now all head nar → ⊥ }
{
    let (head, _) = wire_bodies::import_body(alloc, dir, lines)?;
    Ok(head)
}

/// The request that adds a source object with the archive of a body.
pub(crate) fn add_source(alloc: Global, dir: &StoreDir, body: Parted) -> Result<Request, AskError>
    ensures { (target all : List ℕ) → IsParted body.0 body.1 all
        → Makes dir.now kinds.AddSource target all result }
{
    let head = named_prefix(alloc, dir, body.lines())?;
    let NamedHead { name, references } = head;
    Ok(Request::AddSource {
        name,
        refs: references,
        nar: body.into_archive(),
    })
}

/// The request that imports an object, by the head of a body and an archive.
fn imported(head: ImportHead, nar: Intake) -> Request
    ensures view { request_view result ≡ import_object (given.imported head (bytes_in nar)) }
    ensures spent { is_spent result ≡ is_none nar }
{
    let ImportHead {
        path,
        nar_hash,
        references,
        deriver,
        ca,
    } = head;
    Request::Import {
        path,
        nar_hash,
        refs: references,
        deriver,
        ca,
        nar,
    }
}

/// The request of a body of `POST /import`. The archive isn't copied. If it is spent, the request has no bytes of it.
///
/// # Errors
///
/// `BadBodyHead` if and only if the body isn't an import; `Memory` if memory runs out.
pub fn read_import(alloc: Global, dir: &StoreDir, body: Parted) -> Result<Request, BodyError>
    ensures whole { ReadsImport dir.now (bytes_of body) result }
    // If the archive is spent, the request is the one of each body with these lines, but for its archive.
    ensures made { (all : List ℕ) → IsParted body.0 body.1 all → MakesImport dir.now all result }
{
    let head = import_prefix(alloc, dir, body.lines())?;
    Ok(imported(head, body.into_archive()))
}

/// The request of a whole body of `POST /import`: an import by the lines of the body, with the archive after the empty
/// line.
///
/// ```rust
/// use paths::StoreDir;
/// use store::Request;
///
/// let dir = StoreDir::parse(alloc, "/nix/store")?;
/// let body = b"path: 11111111111111111111111111111111-o\n\
/// nar-hash: sha256:0mdqa9w1p6cmli6976v4wi0sw9r4p5prkj7lzfd1877wk11c9c73\n\n";
/// assert!(rt; matches!(wire::import_body(alloc, &dir, body)?, Request::Import { ca: None, .. }));
/// assert!(rt; wire::import_body(alloc, &dir, b"").is_err());
/// ```
///
/// # Errors
///
/// `BadBodyHead` if and only if the body isn't an import; `Memory` if memory runs out.
pub fn import_body(alloc: Global, dir: &StoreDir, body: &[u8]) -> Result<Request, BodyError>
    ensures { ReadsImport dir.now body.now result }
{
    let mut parted = Parted::new(alloc);
    parted.take(body)?;
    read_import(alloc, dir, parted)
}

/// The request that imports an object at its path.
pub(crate) fn import(alloc: Global, dir: &StoreDir, body: Parted) -> Result<Request, AskError>
    ensures { (target all : List ℕ) → IsParted body.0 body.1 all
        → Makes dir.now kinds.Import target all result }
{
    Ok(read_import(alloc, dir, body)?)
}
