//! Laws of the model: what follows from its definitions. Each law is the contract of a function with an empty body.
#![tactic(auto)]

pub mod adds;
pub mod collection;
pub mod faulty_rows;
pub mod listings;
pub mod privacy;
pub mod profiles;
pub mod refusals;
pub mod roots;
pub mod rows;
pub mod runs;
pub mod trust;
