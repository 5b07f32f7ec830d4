//! Small callers of `tool`, written as a stranger would write them.
#![tactic(auto)]

#[cfg(test)]
mod commands;
#[cfg(test)]
mod loopback;
