//! The world that the rows describe, and when rows are sound.
#![tactic(auto)]
