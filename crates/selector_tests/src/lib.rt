//! Tests alone, of the texts of selectors and what they are read as.
//!
//! A crate with tests is proved once with them and once without. These stand above the crates that they test, so that those are
//! proved once.
#![tactic(auto)]

#[cfg(test)]
mod selectors;
#[cfg(test)]
mod spellings;
