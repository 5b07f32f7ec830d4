//! Opening a file or a connection: by which schema it has the store's tables, and of which directory.
#![tactic(auto)]

mod connection;
pub mod file;
mod files;
mod options;
mod page_count;
mod queries;
pub mod recognition;
mod row_tests;
mod rowids;
pub mod settings;
mod tested_rows;
mod texts;

// What callers name besides, so that they need no library for it.
pub use sqlite_disk::Disk;
