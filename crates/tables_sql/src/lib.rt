//! Queries, writes and transactions of the tables.
#![tactic(auto)]

pub mod entry;
pub mod failure;
pub mod query;
pub mod statement;
pub mod transaction;
