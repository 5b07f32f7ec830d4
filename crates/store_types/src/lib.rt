//! Requests and replies as values.
#![tactic(auto)]

mod replies;
mod requests;

pub use model::Refusal;
pub use replies::{Answer, Info, Reply, Stop, Usage};
pub use requests::{Imported, Request, operation};
pub use tables_sql::failure::Failed;
