//! Tests of what no command reaches.
#![tactic(auto)]

#[cfg(test)]
mod fakes;
#[cfg(test)]
mod libraries;
#[cfg(test)]
mod served;
#[cfg(test)]
mod stops;
#[cfg(test)]
mod stores;
