//! What is live, collection and deletion.
#![tactic(auto)]

pub mod collection;
pub mod deletion;
mod first_root;
mod graph;
mod liveness;
mod reached;
mod reaching_roots;
mod removal;
mod seen;
mod sizes;

pub use collection::collected_paths;
pub use deletion::deleted_paths;
pub use first_root::first_live;
pub use liveness::{dead_paths, live_and_dead, live_paths};
pub use reaching_roots::seen_roots_of;
pub use removal::Found;
pub use seen::seen_roots;
pub use sizes::bytes_in;
