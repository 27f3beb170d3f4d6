//! The address of a page, and patterns of addresses.
//!
//! `specs/Pages.antt` says what a page has of its address, and `Patterns.antt` what a pattern is and when it matches.
#![tactic(auto)]

mod options;
mod page;
mod pattern;
mod pieces;

pub use options::HideOptions;
pub use page::Page;
pub use pattern::{AddressPattern, Begin};
