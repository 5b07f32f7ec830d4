//! A server over HTTP: messages, replies, connections and listeners.
#![tactic(auto)]

mod arrival;
mod caller;
mod connection;
mod error;
mod exchange;
mod fields;
mod head;
mod keeper;
pub mod laws;
mod listener;
mod message;
mod peer;
mod port;
mod reply_head;
mod responder;
mod response;

pub use caller::read_caller;
pub use connection::{End, serve, serve_connection};
pub use error::{Fault, WireError};
pub use fields::{HeadFields, MAX_BODY, Values, closes, length_of_body, values_of};
pub use head::{Head, MAX_HEAD, look_for_head};
pub use keeper::{Keeper, receive_body};
pub use listener::{Listener, serve_on};
pub use message::{Received, receive_head, receive_start};
pub use peer::{Incoming, Outgoing};
pub use port::Port;
pub use reply_head::{ReplyHead, write_reply_head};
pub use responder::{Begun, Responder};
pub use response::{Response, refusal_status};
