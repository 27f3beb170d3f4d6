//! The lists of a command and the rules of public suffixes, read from their bytes: what is said of them, and the filters that are
//! active on a page.
#![tactic(auto)]

mod reading;
#[cfg(test)]
mod tests;
mod writing;

pub use reading::{SourcesRead, active_filters, read_sources};
pub use writing::{write_all_notices, write_lists_report};
