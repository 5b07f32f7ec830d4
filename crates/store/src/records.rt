//! Records of objects.
ghost use Rattle.std.specs.Prelude.{◌≡◌, IfOk};
ghost use Rattle.std.specs.FinMap as finite;
ghost use Rattle.store_promises.specs.Summaries.{info_in};
ghost use Rattle.store_types.specs.View.{info_view};
ghost use Rattle.policy.specs.Settings.{Settings};
ghost use Rattle.policy.specs.Caller.{Caller};
ghost use Rattle.model.specs.Request as asked;
ghost use Rattle.store_types.specs.Meets.{Reads};

use paths::StorePath;
use std::alloc::{AllocError, Global};
use store_types::{Answer, Info, Refusal, Stop};
use tables_outline::{Outline, Summary};

/// The record of an object.
pub(crate) fn record(alloc: Global, path: StorePath, object: &Summary) -> Result<Info, AllocError>
    ensures { IfOk result (λ info. info_view info ≡ info_in path object.now) }
{
    let references = object.references().to_vec(alloc)?;
    let deriver = object.deriver().cloned()?;
    Ok(Info {
        path,
        hash: *object.hash(),
        size: object.size(),
        references,
        deriver,
        ca: object.ca(),
    })
}

/// All paths.
pub(crate) fn all_paths(alloc: Global, outline: &Outline) -> Result<Vec<StorePath>, AllocError>
    ensures { IfOk result (λ v. v.items ≡ finite.keys outline.now.objects) }
{
    let objects = outline.objects();
    let mut paths = Vec::new(alloc);
    for path in objects.keys() {
        paths.push(path.clone()?)?;
    }
    Ok(paths)
}

/// The record of an object.
pub(crate) fn info(alloc: Global, outline: &Outline, path: StorePath) -> Result<Answer, Stop>
    ensures { (s : Settings) (c : Caller) → Reads s c outline.now (asked.info path) result }
{
    let Some(object) = outline.object(&path) else {
        return Err(Stop::Refused(Refusal::NotValid));
    };
    Ok(Answer::Record(record(alloc, path, object)?))
}

/// All paths.
pub(crate) fn list(alloc: Global, outline: &Outline) -> Result<Answer, Stop>
    ensures { (s : Settings) (c : Caller) → Reads s c outline.now asked.list result }
{
    let paths = all_paths(alloc, outline)?;
    Ok(Answer::Paths(paths))
}
