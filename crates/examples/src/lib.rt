//! Small callers of the public crates, written as a stranger would write them.
#![tactic(auto)]

#[cfg(test)]
mod addresses;
#[cfg(test)]
mod archives;
#[cfg(test)]
mod bodies;
#[cfg(test)]
mod changes;
#[cfg(test)]
mod connections;
#[cfg(test)]
mod derivations;
#[cfg(test)]
mod fixtures;
#[cfg(test)]
mod imports;
#[cfg(test)]
mod liveness;
#[cfg(test)]
mod names;
#[cfg(test)]
mod open_tables;
#[cfg(test)]
mod recorded;
#[cfg(test)]
mod removal;
#[cfg(test)]
mod replies;
#[cfg(test)]
mod requests;
#[cfg(test)]
mod roots;
#[cfg(test)]
mod settings;
#[cfg(test)]
mod spent;
#[cfg(test)]
mod steps;
#[cfg(test)]
mod texts;
