//! The command line of a store.
#![tactic(auto)]

mod adds;
mod answers;
mod calls;
mod close;
mod console;
mod deletions;
mod files;
mod input_bodies;
mod launch;
pub mod laws;
mod named;
mod profiles;
mod requests;
mod serve;
mod stores;
mod temporary;
mod work;

pub use answers::answer;
pub use console::Console;
pub use launch::{refuse_words, run};
pub use report::Refusal;
pub use sqlite::Unknown;
pub use tool_pure::{Failure, Stop, Verdict, judge, ls, source_path, text_path, who};
pub use tool_words::{
    Acting, CommandError, CommandLine, DeleteArguments, GcArguments, NamedRootKind,
    ObjectArguments, ProfileAction, ProfileArguments, RootArguments, ServeArguments, Task,
    TempAction, TempArguments, UnrootArguments, Unrooted, UsageFault, arguments_have_defaults,
    command,
};
pub use wire::serve_on;
