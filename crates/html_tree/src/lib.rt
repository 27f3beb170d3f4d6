//! Pages and fragments of pages, read into trees.
//!
//! `html_meaning` says which nodes a source has and which tree they make. Here the tokens are gone through once, with a chain
//! of the elements that are open: `chain.rt` says how many of them a tag leaves, `tables.rt` has the tables of elements,
//! `references.rt` and `attributes.rt` read texts and attributes, and `reader.rt` makes the nodes. A law of `proofs/` says that
//! a tree where each node is the last child of the innermost open element is the tree by the depths of its nodes.
#![tactic(auto)]

mod attributes;
mod chain;
mod reader;
mod references;
mod spelled;
mod tables;

pub use reader::{PageError, read_fragment, read_page};
