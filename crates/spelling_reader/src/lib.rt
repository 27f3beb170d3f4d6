//! The reader of selectors: from a text to its tree, the kind that it is set aside for, or its first finding and place.
//!
//! What each text means is said in `selector_spelling`, and each function here gives just that. A text is read by cutting it
//! into slices, by the calls of `selector_lexer`: chains between commas, compounds between combinators, arguments within
//! their brackets, each read as a text of its own at its place. Only arguments that are selectors are read by recursion, and
//! these nest at most 16 deep.
//!
//! `spelled.rt` tries balance and depth first, `reading.rt` goes down from chains to pieces, `tests_of.rt` and
//! `attributes.rt` read what begins without `:`, `tables.rt` knows the names behind one that take no argument, and
//! `operators.rt`, `pairs.rt` and `texts.rt` read the arguments of operators.
#![tactic(auto)]

mod attributes;
mod operators;
mod pairs;
mod reading;
mod spelled;
mod tables;
mod tests_of;
mod texts;

pub use selector_spelling::{Ask, Asks, Cause, Chains, Finding, Kind, Notes};
pub use spelled::read_spelling;
