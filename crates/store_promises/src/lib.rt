//! What the requests share: tests on the outline, and what a call promises of the tables.
#![tactic(auto)]

pub mod answers;
pub mod validity;
