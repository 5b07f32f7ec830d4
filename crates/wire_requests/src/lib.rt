//! The routes, and the request that a message makes.
#![tactic(auto)]

mod adds;
mod blank;
mod body;
mod error;
mod held;
mod kind;
mod named;
mod parameters;
mod parted;
mod questions;
mod read;
mod requests;
mod router;
mod sweeps;
mod targets;

pub use adds::{import_body, read_import};
pub use body::Body;
pub use error::AskError;
pub use kind::Kind;
pub use parameters::Parameters;
pub use parted::Parted;
pub use read::read_request;
pub use requests::Requests;
pub use router::{Found, Routes};
pub use sweeps::runtime_body;
