//! What a store is: the world, requests, replies, and the step that relates them. Of these, refusals and failures are
//! code too, with the line of each.
#![tactic(auto)]

mod failures;
mod faults;
mod refusal;
mod refusal_lines;

pub use failures::{FAILED, Failure};
pub use refusal::Refusal;
pub use refusal_lines::refusal_line;
