//! The arguments of the command line as `clap` gets them.
ghost use Rattle.std.specs.Prelude.{codes};
ghost use Rattle.tool_words.specs.Arguments.{IsArgument, option_named, number_option, flag_named, required_argument};
ghost use Rattle.tool_words.specs.Arguments.{optional_argument, references_argument, paths_argument};

use clap::{Arg, ArgAction, value_parser};
use std::alloc::Global;

/// An option of one value.
pub(crate) fn option<'a>(alloc: Global, name: &'a str, value: &'a str, help: &'a str) -> Arg<'a>
    ensures { IsArgument result (option_named name.now) }
{
    Arg::new(alloc, name)
        .long(name)
        .value_name(value)
        .help(help)
}

/// `--port N`.
pub(crate) fn port_option<'a>(alloc: Global) -> Arg<'a>
    ensures { IsArgument result (number_option (codes "port") 65535) }
{
    option(
        alloc,
        "port",
        "N",
        "The port on 127.0.0.1, 1 to 65,535 [default: standard input and output]",
    )
    .value_parser(value_parser!(u16).range(1..))
}

/// `--connections K`.
pub(crate) fn connections_option<'a>(alloc: Global) -> Arg<'a>
    ensures { IsArgument result (number_option (codes "connections") 1000000) }
{
    option(
        alloc,
        "connections",
        "K",
        "How many connections to the port are served, 1 to 1,000,000 [default: 1]",
    )
    .value_parser(value_parser!(u32).range(1..=1_000_000))
}

/// A flag.
pub(crate) fn flag<'a>(alloc: Global, name: &'a str, help: &'a str) -> Arg<'a>
    ensures { IsArgument result (flag_named name.now) }
{
    Arg::new(alloc, name)
        .long(name)
        .action(ArgAction::SetTrue)
        .help(help)
}

/// A value that is required.
pub(crate) fn required<'a>(alloc: Global, id: &'a str, value: &'a str, help: &'a str) -> Arg<'a>
    ensures { IsArgument result (required_argument id.now) }
{
    Arg::new(alloc, id)
        .value_name(value)
        .required(true)
        .help(help)
}

/// A value that is optional.
pub(crate) fn optional<'a>(alloc: Global, id: &'a str, value: &'a str, help: &'a str) -> Arg<'a>
    ensures { IsArgument result (optional_argument id.now) }
{
    Arg::new(alloc, id).value_name(value).help(help)
}

/// `[REF]..`.
pub(crate) fn references<'a>(alloc: Global) -> Arg<'a>
    ensures { IsArgument result references_argument }
{
    Arg::new(alloc, "reference")
        .value_name("REF")
        .num_args(0..)
        .help("The store paths, full or base names, that it refers to")
}

/// `PATH..`.
pub(crate) fn paths<'a>(alloc: Global) -> Arg<'a>
    ensures { IsArgument result paths_argument }
{
    Arg::new(alloc, "path")
        .value_name("PATH")
        .required(true)
        .num_args(1..)
        .help("The store paths, full or base names")
}
