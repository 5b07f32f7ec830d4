//! The whole command line as `clap` gets it.
ghost use Rattle.std.specs.Prelude.{◌≡◌, IfOk};
ghost use Rattle.clap.specs.Simple.{app_of};
ghost use Rattle.tool_words.specs.Grammar.{IsCommand, app_for, options_app, nixkeep_app};

use crate::arguments::option;
use crate::subcommands::{delete, gc, object, path, plain, profile, root, serve, temp, unroot};
use crate::verb::{VERBS, Verb};
use clap::Command;
use std::alloc::{AllocError, Global};

/// The version: that of the file VERSION at the top of the repository, as the gate checks.
const VERSION: &str = "1.0.0";

/// What the first line of the help says, with the version.
const ABOUT: &str = "nixkeep 1.0.0: a multi-user Nix store whose behaviour is proved";

/// `nixkeep` with the options that come before the subcommand.
fn options<'a>(alloc: Global) -> Result<Command<'a>, AllocError>
    ensures { IfOk result (λ c. app_of c ≡ options_app) }
{
    Command::new(alloc, "nixkeep")
        .about(ABOUT)
        .version(VERSION)
        .arg(option(
            alloc,
            "db",
            "FILE",
            "The database, a file [default: in memory, for this run]",
        ))?
        .arg(option(
            alloc,
            "config",
            "FILE",
            "The configuration, a TOML file [default: the empty text]",
        ))?
        .arg(option(alloc, "user", "USER", "The name of the caller"))?
        .arg(option(alloc, "group", "GROUP", "The primary group of the caller"))
}

/// A subcommand with its arguments.
fn subcommand<'a>(alloc: Global, verb: Verb) -> Result<Command<'a>, AllocError>
    ensures { IfOk result (λ c. IsCommand c (app_for verb)) }
{
    match verb {
        Verb::TextPath | Verb::SourcePath | Verb::AddText | Verb::AddSource => object(alloc, verb),
        Verb::Info | Verb::CatNar | Verb::Why => path(alloc, verb),
        Verb::Root => root(alloc),
        Verb::Unroot => unroot(alloc),
        Verb::Profile => profile(alloc),
        Verb::Temp => temp(alloc),
        Verb::Gc => gc(alloc),
        Verb::Delete => delete(alloc),
        Verb::Serve => serve(alloc),
        _ => Ok(plain(alloc, verb)),
    }
}

/// A subcommand by itself, which names itself as in a command line.
pub(crate) fn alone<'a>(alloc: Global, verb: Verb) -> Result<Command<'a>, AllocError> {
    let name = verb.name();
    let whole = format!(in alloc; "nixkeep {name}")?;
    subcommand(alloc, verb)?.bin_name(whole.as_str())
}

/// The command `nixkeep`, with its options and subcommands.
pub(crate) fn nixkeep<'a>(alloc: Global) -> Result<Command<'a>, AllocError>
    ensures { IfOk result (λ c. app_of c ≡ nixkeep_app) }
{
    let mut command = options(alloc)?;
    'verbs: for verb in &VERBS {
        command = command.subcommand(subcommand(alloc, *verb)?)?;
    }
    Ok(command)
}
