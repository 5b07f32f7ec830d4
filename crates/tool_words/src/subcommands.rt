//! The subcommands as `clap` gets them.
ghost use Rattle.std.specs.Prelude.{IfOk};
ghost use Rattle.tool_words.specs.Grammar.{IsCommand, plain_app, object_app, path_app, root_app, unroot_app};
ghost use Rattle.tool_words.specs.Grammar.{profile_app, temp_app, gc_app, delete_app, serve_app};

use crate::arguments::{
    connections_option, flag, option, optional, paths, port_option, references, required,
};
use crate::verb::Verb;
use clap::Command;
use std::alloc::{AllocError, Global};

/// A subcommand without arguments.
pub(crate) fn plain<'a>(alloc: Global, verb: Verb) -> Command<'a>
    ensures { IsCommand result (plain_app verb) }
{
    Command::new(alloc, verb.name()).about(verb.purpose())
}

/// `NAME [REF]..`.
pub(crate) fn object<'a>(alloc: Global, verb: Verb) -> Result<Command<'a>, AllocError>
    ensures { IfOk result (λ c. IsCommand c (object_app verb)) }
{
    plain(alloc, verb)
        .arg(required(alloc, "name", "NAME", "The name of the store object"))?
        .arg(references(alloc))
}

/// `PATH`.
pub(crate) fn path<'a>(alloc: Global, verb: Verb) -> Result<Command<'a>, AllocError>
    ensures { IfOk result (λ c. IsCommand c (path_app verb)) }
{
    plain(alloc, verb).arg(required(alloc, "path", "PATH", "The store path, full or base name"))
}

/// `root [--permanent] NAME PATH`.
pub(crate) fn root<'a>(alloc: Global) -> Result<Command<'a>, AllocError>
    ensures { IfOk result (λ c. IsCommand c root_app) }
{
    plain(alloc, Verb::Root)
        .arg(flag(
            alloc,
            "permanent",
            "A permanent root [default: one of the caller]",
        ))?
        .arg(required(alloc, "name", "NAME", "The name of the root"))?
        .arg(required(alloc, "path", "PATH", "What it keeps alive"))
}

/// `unroot [--permanent] [--owner USER] NAME`.
pub(crate) fn unroot<'a>(alloc: Global) -> Result<Command<'a>, AllocError>
    ensures { IfOk result (λ c. IsCommand c unroot_app) }
{
    plain(alloc, Verb::Unroot)
        .arg(flag(alloc, "permanent", "A permanent root"))?
        .arg(option(
            alloc,
            "owner",
            "USER",
            "Whose root it is [default: the caller's]",
        ))?
        .arg(required(alloc, "name", "NAME", "The name of the root"))
}

/// `profile [--owner USER] ACTION NAME [VALUE]`.
pub(crate) fn profile<'a>(alloc: Global) -> Result<Command<'a>, AllocError>
    ensures { IfOk result (λ c. IsCommand c profile_app) }
{
    plain(alloc, Verb::Profile)
        .arg(option(
            alloc,
            "owner",
            "USER",
            "Whose profile it is [default: the caller's]",
        ))?
        .arg(required(
            alloc,
            "action",
            "set|rollback|switch|delete",
            "What happens to the profile",
        ))?
        .arg(required(alloc, "name", "NAME", "The name of the profile"))?
        .arg(optional(
            alloc,
            "value",
            "VALUE",
            "A path to set, the number of a generation to switch to or to delete",
        ))
}

/// `temp [--owner USER] ACTION SESSION [PATH]`.
pub(crate) fn temp<'a>(alloc: Global) -> Result<Command<'a>, AllocError>
    ensures { IfOk result (λ c. IsCommand c temp_app) }
{
    plain(alloc, Verb::Temp)
        .arg(option(
            alloc,
            "owner",
            "USER",
            "Whose session it is [default: the caller's]",
        ))?
        .arg(required(
            alloc,
            "action",
            "add|end",
            "What happens to the session's temporary roots",
        ))?
        .arg(required(
            alloc,
            "session",
            "SESSION",
            "The number of the session, 1 to 4,194,304",
        ))?
        .arg(optional(alloc, "path", "PATH", "A path to add"))
}

/// `gc [--ignore-liveness] [--max-freed N]`.
pub(crate) fn gc<'a>(alloc: Global) -> Result<Command<'a>, AllocError>
    ensures { IfOk result (λ c. IsCommand c gc_app) }
{
    plain(alloc, Verb::Gc)
        .arg(flag(
            alloc,
            "ignore-liveness",
            "Denied to everyone: dead objects alone are collected",
        ))?
        .arg(option(
            alloc,
            "max-freed",
            "N",
            "Stop once N bytes are freed [default: free all that is dead]",
        ))
}

/// `delete [--ignore-liveness] PATH..`.
pub(crate) fn delete<'a>(alloc: Global) -> Result<Command<'a>, AllocError>
    ensures { IfOk result (λ c. IsCommand c delete_app) }
{
    plain(alloc, Verb::Delete)
        .arg(flag(
            alloc,
            "ignore-liveness",
            "Denied to everyone: dead objects alone are deleted",
        ))?
        .arg(paths(alloc))
}

/// `serve [--port N] [--connections K]`.
pub(crate) fn serve<'a>(alloc: Global) -> Result<Command<'a>, AllocError>
    ensures { IfOk result (λ c. IsCommand c serve_app) }
{
    plain(alloc, Verb::Serve)
        .arg(port_option(alloc))?
        .arg(connections_option(alloc))
}
