//! Adds: texts, sources and imports.
#![tactic(auto)]

pub mod adds;
mod archives;
mod delivered;
mod derivations;
pub mod imports;
mod references;
pub mod sources;
mod summaries;
mod text_tests;
pub mod texts;

pub use summaries::Added;
