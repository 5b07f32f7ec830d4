//! An archive on its way in: checked, hashed and stored as it arrives.
#![tactic(auto)]

mod arrival;
mod checker;
mod contents;
mod digests;
mod held;
mod intake;
mod recorded;
mod text;
mod whole_archive;

pub use arrival::Arrived;
pub use intake::Intake;
pub use recorded::recorded_outputs;
pub use whole_archive::{file_contents, list};
