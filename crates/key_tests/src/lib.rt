//! Tests alone, of elements and filters by their keys.
//!
//! A crate with tests is proved once with them and once without. These stand above the crate that they test, so that it is proved
//! once.
#![tactic(auto)]

#[cfg(test)]
mod keys;
