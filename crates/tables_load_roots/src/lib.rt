//! The roots of a file, tested when it is opened.
#![tactic(auto)]

mod generations;
mod numbers;
mod permanent;
pub mod profiles;
mod roots;
mod runtime;
mod table;
mod targets;
mod temporary;
mod user_roots;

pub use roots::load_roots;
pub use table::{RootTable, load_table};
