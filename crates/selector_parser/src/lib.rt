//! The reader of selectors: from a text to a selector with its action, the kind that it is set aside for, or its cause and
//! place, with its patterns put into a table.
//!
//! `spelling_reader` reads a text up to its patterns. Here they are put, in text order, and the selector gets their numbers.
//! `specs/Readings.antt` says what a text is read as under what a maker refused, `Numbered.antt` which numbers a selector gets,
//! and `Lasting.antt` what stays true as the table grows. `proofs/Readings.antt` has laws on what is read, `Puts.antt` on puts of
//! patterns, and `Stages.antt` ties `spelling_reader` to whole readings.
#![tactic(auto)]

mod asks;
mod numbering;
mod read;

pub use read::{Read, read_selector};
pub use selector_spelling::{Cause, Kind};
