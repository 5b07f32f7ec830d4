//! Bytes in pieces, and the loops that write to a writer and read from a reader.
#![tactic(auto)]

mod buffer;
mod bytes;
mod error;
mod limits;
mod parts;
mod receive;
mod send;
mod sink;
mod whole;

pub use buffer::drain_prefix;
pub use bytes::Pieces;
pub use error::ReadError;
pub use limits::{MAX_ARCHIVE, MAX_REFERENCES, PIECE_SIZE};
pub use parts::{in_pieces, send_pieces};
pub use receive::receive_at_most;
pub use send::send_bytes;
pub use sink::Sink;
pub use whole::{Held, read_at_most};
