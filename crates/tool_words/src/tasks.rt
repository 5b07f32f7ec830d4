//! A subcommand with the values of its arguments.
ghost use Rattle.std.specs.Prelude.{◌≡◌, IfOk, IfErr, Ok, Err, codes};
ghost use Rattle.tool_words.specs.Actions as action;
ghost use Rattle.tool_words.specs.Asked.{asked_view, object_view};
ghost use Rattle.tool_words.specs.Line as line;
ghost use Rattle.tool_words.specs.Line.{Misses, asked_of};
ghost use Rattle.tool_words.specs.Values as value;
ghost use Rattle.tool_words.specs.Values.{rows};

use crate::actions::{limit, profile_action, served, temp_action, unrooted};
use crate::error::{CommandError, UsageFault};
use crate::line::{
    DeleteArguments, GcArguments, NamedRootKind, ObjectArguments, ProfileArguments, RootArguments,
    Task, TempArguments,
};
use crate::values::{connections, is_given, optional, port, required, values};
use crate::verb::Verb;
use clap::ArgMatches;
use std::alloc::{AllocError, Global};

/// The name and the references of a store object.
fn object<'a>(alloc: Global, matches: &ArgMatches<'a>) -> Result<ObjectArguments<'a>, AllocError>
    ensures { IfOk result (λ o. object_view o ≡ line.object (rows matches.now)) }
{
    let references = values(alloc, matches, "reference")?;
    let name = required(matches, "name");
    Ok(ObjectArguments { name, references })
}

fn root<'a>(matches: &ArgMatches<'a>) -> RootArguments<'a>
    ensures kind { result.kind ≡ action.root_kind (rows matches.now) }
    ensures name { result.name.now ≡ value.required (codes "name") (rows matches.now) }
    ensures path { result.path.now ≡ value.required (codes "path") (rows matches.now) }
{
    let kind = if is_given(matches, "permanent") {
        NamedRootKind::Permanent
    } else {
        NamedRootKind::User
    };
    let name = required(matches, "name");
    let path = required(matches, "path");
    RootArguments { kind, name, path }
}

fn unroot<'a>(matches: &ArgMatches<'a>) -> Result<Task<'a>, UsageFault>
    ensures ok { IfOk result (λ t. asked_of Verb.Unroot (rows matches.now) ≡ Ok (asked_view t)) }
    ensures err { IfErr result (λ f. asked_of Verb.Unroot (rows matches.now) ≡ Err f) }
{
    let permanent = is_given(matches, "permanent");
    let owner = optional(matches, "owner");
    let unroot = unrooted(permanent, owner, required(matches, "name"))?;
    Ok(Task::Unroot(unroot))
}

fn profile<'a>(matches: &ArgMatches<'a>) -> Result<Task<'a>, UsageFault>
    ensures ok { IfOk result (λ t. asked_of Verb.Profile (rows matches.now) ≡ Ok (asked_view t)) }
    ensures err { IfErr result (λ f. asked_of Verb.Profile (rows matches.now) ≡ Err f) }
{
    let owner = optional(matches, "owner");
    let name = required(matches, "name");
    let action = profile_action(required(matches, "action"), optional(matches, "value"))?;
    Ok(Task::Profile(ProfileArguments {
        owner,
        name,
        action,
    }))
}

fn temp<'a>(matches: &ArgMatches<'a>) -> Result<Task<'a>, UsageFault>
    ensures ok { IfOk result (λ t. asked_of Verb.Temp (rows matches.now) ≡ Ok (asked_view t)) }
    ensures err { IfErr result (λ f. asked_of Verb.Temp (rows matches.now) ≡ Err f) }
{
    let owner = optional(matches, "owner");
    let session = paths::numbers::session(required(matches, "session"));
    let action = temp_action(required(matches, "action"), optional(matches, "path"))?;
    Ok(Task::Temp(TempArguments {
        owner,
        session,
        action,
    }))
}

fn gc<'a>(matches: &ArgMatches<'a>) -> Result<Task<'a>, UsageFault>
    ensures ok { IfOk result (λ t. asked_of Verb.Gc (rows matches.now) ≡ Ok (asked_view t)) }
    ensures err { IfErr result (λ f. asked_of Verb.Gc (rows matches.now) ≡ Err f) }
{
    let ignore_liveness = is_given(matches, "ignore-liveness");
    let max_freed = limit(optional(matches, "max-freed"))?;
    Ok(Task::Gc(GcArguments {
        ignore_liveness,
        max_freed,
    }))
}

fn delete<'a>(alloc: Global, matches: &ArgMatches<'a>) -> Result<Task<'a>, AllocError>
    ensures { IfOk result (λ t. asked_of Verb.Delete (rows matches.now) ≡ Ok (asked_view t)) }
{
    let paths = values(alloc, matches, "path")?;
    Ok(Task::Delete(DeleteArguments {
        ignore_liveness: is_given(matches, "ignore-liveness"),
        paths,
    }))
}

fn serve<'a>(matches: &ArgMatches<'a>) -> Result<Task<'a>, UsageFault>
    ensures ok { IfOk result (λ t. asked_of Verb.Serve (rows matches.now) ≡ Ok (asked_view t)) }
    ensures err { IfErr result (λ f. asked_of Verb.Serve (rows matches.now) ≡ Err f) }
{
    let serve = served(port(matches), connections(matches))?;
    Ok(Task::Serve(serve))
}

/// The subcommand, with the values of its arguments.
pub(crate) fn task<'a>(
    alloc: Global,
    verb: Verb,
    matches: &ArgMatches<'a>,
) -> Result<Task<'a>, CommandError>
    ensures ok { IfOk result (λ t. asked_of verb (rows matches.now) ≡ Ok (asked_view t)) }
    ensures err { IfErr result (Misses (asked_of verb (rows matches.now))) }
{
    match verb {
        Verb::Who => Ok(Task::Who),
        Verb::Ls => Ok(Task::Ls),
        Verb::TextPath => Ok(Task::TextPath(object(alloc, matches)?)),
        Verb::SourcePath => Ok(Task::SourcePath(object(alloc, matches)?)),
        Verb::AddText => Ok(Task::AddText(object(alloc, matches)?)),
        Verb::AddSource => Ok(Task::AddSource(object(alloc, matches)?)),
        Verb::Import => Ok(Task::Import),
        Verb::Runtime => Ok(Task::Runtime),
        Verb::Info => Ok(Task::Info(required(matches, "path"))),
        Verb::CatNar => Ok(Task::CatNar(required(matches, "path"))),
        Verb::Why => Ok(Task::Why(required(matches, "path"))),
        Verb::List => Ok(Task::List),
        Verb::Roots => Ok(Task::Roots),
        Verb::Live => Ok(Task::Live),
        Verb::Dead => Ok(Task::Dead),
        Verb::Report => Ok(Task::Report),
        Verb::Root => Ok(Task::Root(root(matches))),
        Verb::Unroot => Ok(unroot(matches)?),
        Verb::Profile => Ok(profile(matches)?),
        Verb::Temp => Ok(temp(matches)?),
        Verb::Gc => Ok(gc(matches)?),
        Verb::Delete => Ok(delete(alloc, matches)?),
        Verb::Serve => Ok(serve(matches)?),
    }
}
