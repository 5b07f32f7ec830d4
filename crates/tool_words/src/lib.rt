//! The grammar of the command line.
#![tactic(auto)]

mod actions;
mod arguments;
mod error;
mod grammar;
mod laws;
mod line;
mod parse;
mod subcommands;
mod tasks;
mod values;
mod verb;

pub use actions::{ProfileAction, TempAction};
pub use error::{Acting, CommandError, UsageFault};
pub use laws::arguments_have_defaults;
pub use line::{
    CommandLine, DeleteArguments, GcArguments, NamedRootKind, ObjectArguments, ProfileArguments,
    RootArguments, ServeArguments, Task, TempArguments, UnrootArguments, Unrooted,
};
pub use parse::command;
