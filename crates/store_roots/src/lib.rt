//! Roots, profiles and sessions.
#![tactic(auto)]

mod generations;
mod names;
pub mod permanent;
pub mod profiles;
pub mod runtime;
pub mod temporary;
pub mod user_roots;
