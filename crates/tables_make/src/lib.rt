//! Making the tables, and bringing those of an earlier schema to the third.
#![tactic(auto)]

mod archive_cuts;
mod creation;
pub mod further;
mod migration;
pub mod new_tables;

pub use migration::{from_first, from_second};
