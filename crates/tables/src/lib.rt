//! The tables of a store: a file or a connection is opened as one, and then read and changed.
#![tactic(auto)]

mod adoption;
mod earlier;
mod files;
mod found;
mod laws;
mod memory;
mod rows;
mod unopened;

pub use adoption::adopt;
pub use files::open;
pub use laws::no_store_is_the_rest;
pub use memory::open_in_memory;
pub use tables_writes::{Close, Object, RootName, Snapshot, Tables, open_tables_have_a_world};
pub use unopened::{Cause, Unadopted, Unopened};

// What callers name besides, so that they need no library but this one and `paths`.
pub use paths::{Root, RootKind};
pub use sqlite::{Alter, Connection, FileFrom, FileStore, MemStore, Start, Unknown};
pub use streams::Pieces;
pub use tables_outline::{Details, Outline, Outputs, Profile, Summary};
pub use tables_recognize::Disk;
pub use tables_recognize::file::{Unfound, UnopenedFile, Unreadable};
pub use tables_sql::failure::Failed;
