//! The outputs that derivation texts record.
#![tactic(auto)]

mod derivation;
mod error;
pub mod laws;
mod output;
mod recorded_outputs;
mod skipped_parts;
mod string;

pub use error::DrvError;
pub use recorded_outputs::outputs;
