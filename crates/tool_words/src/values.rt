//! The values of arguments, among the matches that `clap` found.
ghost use Rattle.std.specs.Prelude.{◌≡◌, IfOk, codes, option_map};
ghost use Rattle.clap.specs.Walk.{first_of, texts};
ghost use Rattle.tool_words.specs.Values as value;
ghost use Rattle.tool_words.specs.Values.{rows, all_values};

use clap::ArgMatches;
use std::alloc::{AllocError, Global};

/// The value of an optional argument.
pub(crate) fn optional<'a>(matches: &ArgMatches<'a>, id: &str) -> Option<&'a str>
    ensures { option_map (λ s. s.now) result ≡ first_of id.now (rows matches.now) }
{
    matches.get_str(id)
}

/// The value of a required argument: `clap` finds a fault where it is missing.
pub(crate) fn required<'a>(matches: &ArgMatches<'a>, id: &str) -> &'a str
    ensures { result.now ≡ value.required id.now (rows matches.now) }
{
    match matches.get_str(id) {
        Some(text) => text,
        None => "",
    }
}

/// All values of an argument.
pub(crate) fn values<'a>(
    alloc: Global,
    matches: &ArgMatches<'a>,
    id: &str,
) -> Result<Vec<&'a str>, AllocError>
    ensures { IfOk result (λ v. texts v.items ≡ all_values id.now (rows matches.now)) }
{
    match matches.get_strs(id) {
        Some(values) => values.to_vec(alloc),
        None => Ok(Vec::new(alloc)),
    }
}

/// Whether a flag is given.
pub(crate) fn is_given(matches: &ArgMatches<'_>, id: &str) -> bool
    ensures { result ≡ value.is_given id.now (rows matches.now) }
{
    match matches.get_str(id) {
        Some(text) => text == "true",
        None => false,
    }
}

/// The port, which `clap` has found to be one.
pub(crate) fn port(matches: &ArgMatches<'_>) -> Option<u16>
    ensures { result ≡ value.number 16 (codes "port") (rows matches.now) }
{
    matches.get_one::<u16>("port")
}

/// The number of connections, which `clap` has found within its bounds.
pub(crate) fn connections(matches: &ArgMatches<'_>) -> Option<u32>
    ensures { result ≡ value.number 32 (codes "connections") (rows matches.now) }
{
    matches.get_one::<u32>("connections")
}
