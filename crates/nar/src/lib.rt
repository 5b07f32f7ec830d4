//! Nix archives (NAR): reading, writing, listing, and checking in pieces.
#![tactic(auto)]

mod checker;
mod count;
mod error;
pub mod laws;
mod listing;
mod name;
mod nest;
mod node;
mod progress;
mod reader;
mod room;
mod string;
mod words;
mod writer;

pub use checker::Checker;
pub use error::NarError;
pub use listing::list;
pub use node::{Entry, Node};
pub use reader::read;
pub use room::is_writable;
pub use streams::Pieces;
pub use writer::write;
