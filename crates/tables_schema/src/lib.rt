//! The forms of the tables over SQLite.
#![tactic(auto)]

mod form;
mod further;
mod intact;
mod nine;
mod presence;
pub mod recognition;
mod schema;
pub mod store_table;

pub use schema::Schema;
