//! Tests alone, of whole filters asked of single elements.
//!
//! A crate with tests is proved once with them and once without. These stand above the crate that they test, so that it is proved
//! once.
#![tactic(auto)]

#[cfg(test)]
mod asked;
#[cfg(test)]
mod bad_input;
#[cfg(test)]
mod literals;
#[cfg(test)]
mod small_page;
