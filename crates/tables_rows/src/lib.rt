//! The rows and the statements of each table.
#![tactic(auto)]

pub mod generations;
pub mod meta;
mod object_within;
pub mod objects;
pub mod outputs;
pub mod permanent;
pub mod pieces;
pub mod profiles;
mod queries;
pub mod references;
pub mod runtime;
mod statements;
pub mod temp_roots;
pub mod user_roots;
mod within;

pub use statements::{Delete, Find, Found, Insert};
