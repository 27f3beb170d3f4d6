//! Tests alone, of lists: of hosts and scopes, address patterns, lines, whole lists and the filters that are active.
//!
//! A crate with tests is proved once with them and once without. These stand above the crates that they test, so that each of
//! those is proved once.
#![tactic(auto)]

#[cfg(test)]
mod active;
#[cfg(test)]
mod addresses;
#[cfg(test)]
mod hosts;
#[cfg(test)]
mod lines;
#[cfg(test)]
mod lists;
#[cfg(test)]
mod scopes;
