//! The words of a command line, read by `clap`.
ghost use Rattle.std.specs.Prelude.{◌≡◌, IfOk, IfErr, Ok, Err, map};
ghost use Rattle.std.specs.Option.{option_map_or};
ghost use Rattle.clap.specs.Simple.{subcommand_rows_of};
ghost use Rattle.tool_words.specs.Asked.{asked_view};
ghost use Rattle.tool_words.specs.Line.{line_view, line_from, asked_by, Misses, IsLine, IsUsageFault};
ghost use Rattle.tool_words.specs.Values.{rows};

use crate::error::{CommandError, UsageFault};
use crate::grammar::nixkeep;
use crate::line::{CommandLine, Task};
use crate::tasks::task;
use crate::values::optional;
use crate::verb::verb_of;
use clap::ArgMatches;
use std::alloc::Global;
use std::convert::AsStr;

/// The subcommand of this name, with the values of its arguments.
fn named<'a>(alloc: Global, name: &str, matches: &ArgMatches<'a>) -> Result<Task<'a>, CommandError>
    ensures ok { IfOk result (λ t. asked_by name.now (rows matches.now) ≡ Ok (asked_view t)) }
    ensures err { IfErr result (Misses (asked_by name.now (rows matches.now))) }
{
    match verb_of(name) {
        Some(verb) => task(alloc, verb, matches),
        None => Err(CommandError::Misuse(UsageFault::NoSubcommand)),
    }
}

/// The subcommand that `clap` found.
fn subcommand<'a>(alloc: Global, matches: &ArgMatches<'a>) -> Result<Task<'a>, CommandError>
    ensures ok { IfOk result
        (λ t. option_map_or (λ p. asked_by p.0 p.1) (subcommand_rows_of matches.now) (Err UsageFault.NoSubcommand)
        ≡ Ok (asked_view t)) }
    ensures err { IfErr result (Misses (option_map_or
        (λ p. asked_by p.0 p.1) (subcommand_rows_of matches.now) (Err UsageFault.NoSubcommand))) }
{
    match matches.subcommand() {
        Some((name, matches)) => named(alloc, name, matches),
        None => Err(CommandError::Misuse(UsageFault::NoSubcommand)),
    }
}

/// The command line of what `clap` found.
fn read<'a>(alloc: Global, matches: &ArgMatches<'a>) -> Result<CommandLine<'a>, CommandError>
    ensures ok { IfOk result (λ c. line_from (rows matches.now) (subcommand_rows_of matches.now) ≡ Ok (line_view c)) }
    ensures err { IfErr result (Misses (line_from (rows matches.now) (subcommand_rows_of matches.now))) }
{
    let task = subcommand(alloc, matches)?;
    Ok(CommandLine {
        db: optional(matches, "db"),
        config: optional(matches, "config"),
        user: optional(matches, "user"),
        group: optional(matches, "group"),
        task,
    })
}

/// Reads the words of a command line, of which the first is the program's name.
///
/// ```rust
/// use tool::Task;
///
/// let words = ["nixkeep", "--user", "root", "who"];
/// let line = tool::command(alloc, &words)?;
/// assert!(rt; matches!(line.task, Task::Who));
/// assert_eq!(rt; line.user, Some("root"));
/// ```
///
/// # Errors
///
/// `Usage` if `clap` refuses the words or they ask for help; `Misuse` if it doesn't, but the words don't go together;
/// `Memory` if memory was refused.
pub fn command<'a, S: AsStr>(alloc: Global, words: &'a [S]) -> Result<CommandLine<'a>, CommandError>
    ensures ok { IfOk result (λ c. IsLine (map S.text words.entry.now) (line_view c)) }
    ensures err { IfErr result (IsUsageFault (map S.text words.entry.now)) }
{
    let nixkeep = nixkeep(alloc)?;
    let matches = nixkeep.try_get_matches_from(words)?;
    read(alloc, &matches)
}
