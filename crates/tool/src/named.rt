//! Requests about permanent roots and roots of users.
ghost use Rattle.std.specs.Prelude.{◌≡◌, IfOk, Ok, string_bytes};
ghost use Rattle.tool_words.specs.Asked.{optional_text};
ghost use Rattle.store_types.specs.View.{request_view};
ghost use Rattle.tool.specs.Requests as spec;
ghost use Rattle.tool.specs.Requests.{Gives, IsAsked, on_path, owner_of};

use paths::{StoreDir, StorePath};
use policy::Caller;
use std::alloc::{AllocError, Global};
use store_types::Request;
use tool_pure::{Stop, parse_reference};
use tool_words::{NamedRootKind, RootArguments, UnrootArguments, Unrooted};

/// The name of the owner: `named`, or that of the caller if `named` is `None`.
pub(crate) fn owner(
    alloc: Global,
    caller: &Caller,
    named: Option<&str>,
) -> Result<String, AllocError>
    ensures { IfOk result (λ s. string_bytes s ≡ owner_of caller.now (optional_text named.entry)) }
{
    match named {
        Some(name) => String::from_str(alloc, name),
        None => String::from_str(alloc, caller.name()),
    }
}

/// The request that sets a root to a path.
fn root_at(
    alloc: Global,
    caller: &Caller,
    root: &RootArguments<'_>,
    path: StorePath,
) -> Result<Request, AllocError>
    ensures { IfOk result (λ q. request_view q ≡ spec.set_root root.now.kind caller.now root.now.name.now path) }
{
    let name = String::from_str(alloc, root.name)?;
    match root.kind {
        NamedRootKind::Permanent => Ok(Request::SetPermanent { name, path }),
        NamedRootKind::User => {
            let owner = String::from_str(alloc, caller.name())?;
            Ok(Request::SetUserRoot {
                user: owner,
                name,
                path,
            })
        }
    }
}

/// The request that sets a root. Refused if the text isn't a path.
pub(crate) fn set_root(
    alloc: Global,
    dir: &StoreDir,
    caller: &Caller,
    root: &RootArguments<'_>,
) -> Result<Request, Stop>
    ensures { IsAsked ⊥
        (Gives (on_path dir.now root.now.path.now (spec.set_root root.now.kind caller.now root.now.name.now))) result }
{
    let path = parse_reference(alloc, dir, root.path)?;
    Ok(root_at(alloc, caller, root, path)?)
}

/// The request that drops a root, or out of memory.
fn dropped(
    alloc: Global,
    caller: &Caller,
    root: &UnrootArguments<'_>,
) -> Result<Request, AllocError>
    ensures { IfOk result (λ q. request_view q ≡ spec.drop_root root.now.root caller.now root.now.name.now) }
{
    let name = String::from_str(alloc, root.name)?;
    match root.root {
        Unrooted::Permanent => Ok(Request::DropPermanent { name }),
        Unrooted::User(named) => {
            let owner = owner(alloc, caller, named)?;
            Ok(Request::DropUserRoot { user: owner, name })
        }
    }
}

/// The request that drops a root.
pub(crate) fn drop_root(
    alloc: Global,
    caller: &Caller,
    root: &UnrootArguments<'_>,
) -> Result<Request, Stop>
    ensures { IsAsked ⊥ (Gives (Ok (spec.drop_root root.now.root caller.now root.now.name.now))) result }
{
    Ok(dropped(alloc, caller, root)?)
}
