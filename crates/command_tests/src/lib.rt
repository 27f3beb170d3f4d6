//! Tests alone, of commands: of the words of a command line and of the texts of reports.
//!
//! A crate with tests is proved once with them and once without. These stand above the crates that they test, so that each of
//! those is proved once.
#![tactic(auto)]

#[cfg(test)]
mod reports;
#[cfg(test)]
mod words;
