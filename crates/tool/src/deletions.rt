//! Requests that delete objects.
ghost use Rattle.clap.specs.Walk.{texts};
ghost use Rattle.model.specs.Request as asked;
ghost use Rattle.tool.specs.Requests.{Gives, IsAsked, on_paths};

use paths::StoreDir;
use std::alloc::Global;
use store_types::Request;
use tool_pure::{Stop, parse_references};
use tool_words::DeleteArguments;

/// The request that deletes objects.
pub(crate) fn delete_paths(
    alloc: Global,
    dir: &StoreDir,
    deletion: &DeleteArguments<'_>,
) -> Result<Request, Stop>
    ensures { IsAsked ⊥ (Gives (on_paths dir.now (texts deletion.now.paths.items)
        (λ named. asked.delete named deletion.now.ignore_liveness))) result }
{
    let named = parse_references(alloc, dir, deletion.paths.as_slice())?;
    Ok(Request::Delete {
        paths: named,
        ignore_liveness: deletion.ignore_liveness,
    })
}
