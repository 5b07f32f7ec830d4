//! The configuration, callers, classes and rules.
#![tactic(auto)]

mod caller;
mod classes;
mod config;
mod document;
mod entry;
mod error;
mod groups;
mod keys;
mod kinds;
pub mod laws;
mod rules;

pub use caller::Caller;
pub use classes::class;
pub use config::{Config, keep_derivations, keep_outputs, store_dir};
pub use document::MAX_CONFIG_BYTES;
pub use error::{CallerError, ConfigError, KeyWord};
pub use kinds::{Class, Op, Rule};
pub use rules::decide;
