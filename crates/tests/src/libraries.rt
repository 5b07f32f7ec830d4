//! What no clause says of the libraries, and no command shows.

pub mod archives;
mod refused_memory;
mod stream_failures;
mod words;
