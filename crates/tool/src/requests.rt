//! The request of a subcommand, by its arguments, and by its input if it reads one.
ghost use Rattle.std.specs.Prelude.{◌≡◌, IsSome, Some};
ghost use Rattle.tool_words.specs.Asked.{asked_view};
ghost use Rattle.model.specs.Request as asked;
ghost use Rattle.report.specs.Outputs.{change_of};
ghost use Rattle.tool.specs.Requests.{Ask, Gives, IsAsked, IsAskedBy, ReadsWithin, asks, most_read, on_path};

use crate::adds::{add_source, add_text};
use crate::deletions::delete_paths;
use crate::input_bodies::{import, replace_runtime};
use crate::named::{drop_root, set_root};
use crate::profiles::change_profile;
use crate::temporary::change_session;
use paths::StoreDir;
use policy::Caller;
use std::alloc::Global;
use std::io::Read;
use store_types::Request;
use tool_pure::{Stop, parse_reference};
use tool_words::Task;

/// The request for the roots that reach a path.
fn why(alloc: Global, dir: &StoreDir, text: &str) -> Result<Request, Stop>
    ensures { IsAsked ⊥ (Gives (on_path dir.now text.now asked.list_roots_of)) result }
{
    let path = parse_reference(alloc, dir, text)?;
    Ok(Request::RootsOf(path))
}

/// The request for the record of an object.
fn info(alloc: Global, dir: &StoreDir, text: &str) -> Result<Request, Stop>
    ensures { IsAsked ⊥ (Gives (on_path dir.now text.now asked.info)) result }
{
    let path = parse_reference(alloc, dir, text)?;
    Ok(Request::Info(path))
}

/// The request for the archive of an object.
fn cat_nar(alloc: Global, dir: &StoreDir, text: &str) -> Result<Request, Stop>
    ensures { IsAsked ⊥ (Gives (on_path dir.now text.now asked.nar)) result }
{
    let path = parse_reference(alloc, dir, text)?;
    Ok(Request::Nar(path))
}

/// The request that a subcommand makes to a store.
#[tactic(auto, using(crate::proofs::Reading::unread_within))]
pub(crate) fn request<R: Read>(
    alloc: Global,
    dir: &StoreDir,
    caller: &Caller,
    task: &Task<'_>,
    input: &mut R,
) -> Result<Request, Stop>
    requires { IsSome (asks (asked_view task.now)) }
    ensures asked { (ask : Ask) → asks (asked_view task.now) ≡ Some ask
        → IsAskedBy ask dir.now caller.now (change_of R.remaining input.old input.new) result }
    ensures reads { ReadsWithin (most_read (asked_view task.now)) (R.remaining input.old) (R.remaining input.new) }
{
    match task {
        Task::List => Ok(Request::List),
        Task::Live => Ok(Request::Live),
        Task::Dead => Ok(Request::Dead),
        Task::Roots => Ok(Request::ListRoots),
        Task::Report => Ok(Request::Report),
        Task::Gc(gc) => Ok(Request::Collect {
            ignore_liveness: gc.ignore_liveness,
            max_freed: gc.max_freed,
        }),
        Task::Delete(deletion) => delete_paths(alloc, dir, deletion),
        Task::Info(text) => info(alloc, dir, text),
        Task::Why(text) => why(alloc, dir, text),
        Task::CatNar(text) => cat_nar(alloc, dir, text),
        Task::AddText(object) => add_text(alloc, dir, object, input),
        Task::AddSource(object) => add_source(alloc, dir, object, input),
        Task::Import => import(alloc, dir, input),
        Task::Runtime => replace_runtime(alloc, dir, input),
        Task::Root(root) => set_root(alloc, dir, caller, root),
        Task::Unroot(root) => drop_root(alloc, caller, root),
        Task::Profile(profile) => change_profile(alloc, dir, caller, profile),
        Task::Temp(session) => change_session(alloc, dir, caller, session),
        _ => unreachable!(),
    }
}
