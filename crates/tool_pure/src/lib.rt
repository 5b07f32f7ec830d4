//! The subcommands that open no store, and what all subcommands share.
#![tactic(auto)]

mod archive;
mod callers;
mod configuration;
mod faults;
mod input;
pub mod laws;
mod listings;
mod object;
mod printed_reply;
mod sources;
mod stops;
mod stream;
mod texts;
mod verdicts;

pub use callers::parse_caller;
pub use configuration::{config_text, open_config, settings};
pub use input::{read_input, receive_archive, receive_input};
pub use listings::ls;
pub use object::{Object, parse_object, parse_reference, parse_references};
pub use printed_reply::print_reply;
pub use report::{Failure, Refusal};
pub use sources::source_path;
pub use stops::Stop;
pub use stream::{give, say};
pub use texts::{MOST_OF_CONTENTS, text_path};
pub use verdicts::{Verdict, judge, who};
