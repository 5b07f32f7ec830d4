//! Doing the requests that no rule forbids.

ghost use Rattle.std.specs.Prelude.{◌≡◌, Err, IsTrue, false};
ghost use Rattle.std.specs.List.{list_any};
ghost use Rattle.policy.specs.Caller.{Caller};
ghost use Rattle.policy.specs.Class.{class_of};
ghost use Rattle.model.specs.World.{World};
ghost use Rattle.model.specs.Liveness.{lives};
ghost use Rattle.model.specs.Verdict.{named_in};
ghost use Rattle.tables_writes.specs.TablesValue.{HasWorld};
ghost use Rattle.store_types.specs.Spent.{is_spent};
ghost use Rattle.store_types.specs.View.{request_view, reply_view};
ghost use Rattle.store_types.specs.declared.replies.Stop.TheVariants.{Failed as failed};
ghost use Rattle.tables_sql.specs.declared.failure.Failed.TheVariants.{Memory as memory};
ghost use Rattle.store_promises.specs.Meets.{IsMet, reply_to};

use crate::{disk, liveness, records, root_lists};
use policy::{Class, Config};
use sqlite::Alter;
use std::alloc::Global;
use store_adds::adds::add_text;
use store_adds::imports::import_object;
use store_adds::sources::add_source;
use store_reach::collection::collect;
use store_reach::deletion::delete;
use store_roots::permanent::{drop_permanent, set_permanent};
use store_roots::profiles::{delete_generation, rollback, set_profile, switch};
use store_roots::runtime::replace_runtime;
use store_roots::temporary::{add_temp, end_session};
use store_roots::user_roots::{drop_user_root, set_user_root};
use store_types::{Answer, Imported, Reply, Request, Stop};
use tables_writes::Tables;

/// Does a request of a caller of a class: runs its tests in their order, then makes its one change, and returns its
/// answer.
pub(crate) fn act<S: Alter>(
    alloc: Global,
    config: &Config,
    class: Class,
    tables: &mut Tables<S>,
    request: Request,
) -> Result<Answer, Stop>
    requires dir { tables.old.dir ≡ config.now.store_dir }
    // What is deleted by name is dead.
    requires dead { (w : World) → HasWorld S.Store tables.old w
        → list_any (lives config.now w) (named_in (request_view request)) ≡ false }
    ensures met { (c : Caller) → class ≡ class_of config.now c
        → IsMet S.Store config.now c (request_view request) result tables.old tables.new }
    ensures dir { tables.new.dir ≡ tables.old.dir }
    ensures spent { IsTrue (is_spent request) → (result ≡ Err (failed memory)) × (tables.new ≡ tables.old) }
{
    match request {
        Request::AddText {
            name,
            refs,
            contents,
        } => add_text(alloc, config, tables, name, refs, contents),
        Request::Info(path) => records::info(alloc, tables.outline(), path),
        Request::Nar(path) => disk::archive(tables, path),
        Request::Ls(path) => disk::listing(alloc, tables, path),
        Request::List => records::list(alloc, tables.outline()),
        Request::Live => liveness::list_live(alloc, config, tables.outline()),
        Request::Dead => liveness::list_dead(alloc, config, tables.outline()),
        Request::ListRoots => root_lists::list_roots(alloc, class, tables.outline()),
        Request::RootsOf(path) => {
            root_lists::list_roots_of(alloc, config, class, tables.outline(), path)
        }
        Request::Report => liveness::report(alloc, config, tables.outline()),
        Request::SetPermanent { name, path } => set_permanent(tables, name, path),
        Request::DropPermanent { name } => drop_permanent(tables, name),
        Request::SetUserRoot { user, name, path } => set_user_root(tables, (user, name), path),
        Request::DropUserRoot { user, name } => drop_user_root(tables, (user, name)),
        Request::Rollback { user, profile } => rollback(tables, (user, profile)),
        Request::Switch { user, profile, n } => switch(tables, (user, profile), n),
        Request::DeleteGeneration { user, profile, n } => {
            delete_generation(tables, (user, profile), n)
        }
        Request::SetProfile {
            user,
            profile,
            path,
        } => set_profile(tables, (user, profile), path),
        Request::AddTemp {
            owner,
            session,
            path,
        } => add_temp(tables, owner, session, path),
        Request::EndSession { owner, session } => end_session(tables, owner, session),
        Request::ReplaceRuntime(pairs) => replace_runtime(alloc, tables, pairs),
        Request::AddSource { name, refs, nar } => add_source(
            alloc, config, tables, name, refs, nar,
        ),
        Request::Import {
            path,
            nar_hash,
            refs,
            deriver,
            ca,
            nar,
        } => {
            let object = Imported {
                path,
                nar_hash,
                refs,
                deriver,
                ca,
                nar,
            };
            import_object(alloc, config, tables, object)
        }
        Request::Collect {
            ignore_liveness,
            max_freed,
        } => collect(alloc, config, tables, ignore_liveness, max_freed),
        Request::Delete {
            paths,
            ignore_liveness,
        } => delete(alloc, tables, paths, ignore_liveness),
    }
}

/// The reply for an answer, a refusal or a failure.
pub(crate) fn reply(met: Result<Answer, Stop>) -> Reply
    ensures { reply_view result ≡ reply_to met }
{
    match met {
        Ok(answer) => Reply::Done(answer),
        Err(Stop::Refused(refusal)) => Reply::Refused(refusal),
        Err(Stop::Failed(failure)) => Reply::Failed(failure),
    }
}
