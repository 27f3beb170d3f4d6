//! The answers that are kept while a page changes: the pairs of a filter and an element whose answer was yes.
//!
//! `Marks` is a set of pairs. Only a `Verdict` puts a pair in, and a `Verdict` is made by asking alone.
#![tactic(auto)]

mod marks;
mod rows;

pub use marks::Marks;
