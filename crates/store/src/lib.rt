//! The store: each call is one step of the model.
#![tactic(auto)]

mod disk;
mod dispatch;
pub mod laws;
mod liveness;
mod records;
mod root_lists;
mod run;
mod store;

pub use intake::Intake;
pub use store::Store;
pub use store_types::{Answer, Failed, Info, Refusal, Reply, Request, Usage};
