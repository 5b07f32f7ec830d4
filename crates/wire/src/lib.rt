//! A store that is served over HTTP.
#![tactic(auto)]

mod admission;
mod connection;
mod listener;
mod port;
mod replies;
mod server;
mod stream;

pub use connection::{Count, serve};
pub use listener::serve_on;
pub use port::serve_port;
pub use stream::serve_streams;
pub use wire_bodies::BodyError;
pub use wire_requests::{import_body, runtime_body};
pub use wire_server::WireError;
