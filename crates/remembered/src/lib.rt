//! Answers that are remembered while questions are asked about a page that stays as it is.
//!
//! `Noted` has those of the tests of one chain, by the test's place and the element; `Members` has those of `:others()`, by the
//! steps before it and the parent. They are tables alone: which answers are right is said where they are asked for.
#![tactic(auto)]

mod members;
mod notes;

pub use members::{Front, Members};
pub use notes::Noted;
