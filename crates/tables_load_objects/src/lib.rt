//! The objects of a file, tested when it is opened.
#![tactic(auto)]

mod address;
mod archive_bytes;
mod each_object;
mod groups;
mod joined;
mod load;
mod members;
mod object_rows;
mod outputs;
mod piece_sizes;
mod recorded;
mod references;
mod rows_ahead;
mod soundness;
mod source;
mod texts;

pub use load::load_objects;
