//! Reads from the disk: archives and their listings.

ghost use Rattle.std.specs.Prelude.{◌≡◌, IfErr, IfOk, string_bytes};
ghost use Rattle.nar.specs.Outcome.{outcome_of};
ghost use Rattle.policy.specs.Settings.{Settings};
ghost use Rattle.model.specs.World.{World};
ghost use Rattle.tables_outline.specs.Outline.{outline_of};
ghost use Rattle.model.specs.Answers.{listing_at, archive_at};
ghost use Rattle.model.specs.Tests.{refusal};
ghost use Rattle.store_types.specs.Tested.{Tested};
ghost use Rattle.policy.specs.Caller.{Caller};
ghost use Rattle.store_promises.specs.Meets.{IsMet};
ghost use Rattle.model.specs.Request as asked;
ghost use Rattle.std.specs.FinMap as finite;
ghost use Rattle.store.specs.Listing.{FailsToList, Lists, ReadsArchive};

use nar::NarError;
use paths::StorePath;
use sqlite::Alter;
use std::alloc::Global;
use store_promises::validity::is_valid;
use store_types::{Answer, Refusal, Stop};
use streams::Pieces;
use tables_outline::Outline;
use tables_sql::failure::Failed;
use tables_writes::Tables;

/// Tests a path whose archive is to be read.
pub(crate) fn may_read(outline: &Outline, path: &StorePath) -> Result<(), Refusal>
    ensures { (s : Settings) (w : World) → outline_of w ≡ outline.now
        → Tested result (refusal s w (asked.nar path.now)) }
{
    is_valid(outline, path)?;
    Ok(())
}

/// The listing of an archive. `Disk` if the bytes aren't an archive, which only a faulty disk returns.
pub(crate) fn list(alloc: Global, nar: &Pieces) -> Result<String, Failed>
    ensures listing { IfOk result (λ text. Lists (outcome_of nar.now) (string_bytes text)) }
    ensures failed { IfErr result (λ failure. FailsToList failure (outcome_of nar.now)) }
{
    let mut text = String::new(alloc);
    match intake::list(alloc, nar, &mut text) {
        Ok(()) => Ok(text),
        Err(NarError::Memory) => Err(Failed::Memory),
        Err(_) => Err(Failed::Disk),
    }
}

/// The archive of a valid path. `Disk` if the tables have none, which only a faulty disk causes.
fn read<S: Alter>(tables: &mut Tables<S>, path: &StorePath) -> Result<Pieces, Failed>
    ensures { ReadsArchive S.Store path.now result (λ nar w. nar ≡ archive_at (finite.get w.objects path.now))
        tables.old tables.new }
{
    let Some(nar) = tables.archive(path)? else {
        return Err(Failed::Disk);
    };
    Ok(nar)
}

/// The archive of an object.
pub(crate) fn archive<S: Alter>(tables: &mut Tables<S>, path: StorePath) -> Result<Answer, Stop>
    ensures { (s : Settings) (c : Caller) → IsMet S.Store s c (asked.nar path) result tables.old tables.new }
{
    may_read(tables.outline(), &path)?;
    let nar = read(tables, &path)?;
    Ok(Answer::Archive(nar))
}

fn read_listing<S: Alter>(
    alloc: Global,
    tables: &mut Tables<S>,
    path: &StorePath,
) -> Result<String, Failed>
    ensures { ReadsArchive S.Store path.now result
        (λ text w. string_bytes text ≡ listing_at (outcome_of (archive_at (finite.get w.objects path.now))))
        tables.old tables.new }
{
    let nar = read(tables, path)?;
    list(alloc, &nar)
}

/// The listing of the archive of an object.
pub(crate) fn listing<S: Alter>(
    alloc: Global,
    tables: &mut Tables<S>,
    path: StorePath,
) -> Result<Answer, Stop>
    ensures { (s : Settings) (c : Caller) → IsMet S.Store s c (asked.ls path) result tables.old tables.new }
{
    may_read(tables.outline(), &path)?;
    let text = read_listing(alloc, tables, &path)?;
    Ok(Answer::Listing(text))
}
