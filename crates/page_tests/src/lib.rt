//! Tests alone, of pages: of the arena of their nodes and of the reader of their sources.
//!
//! A crate with tests is proved once with them and once without. These stand above the crates that they test, so that each of
//! those is proved once.
#![tactic(auto)]

#[cfg(test)]
mod arena;
#[cfg(test)]
mod pages;
#[cfg(test)]
mod shown;
