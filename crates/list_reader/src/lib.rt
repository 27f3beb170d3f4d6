//! The reader of filter lists: each line gives nothing, a filter, an exception or a page option, or is noted for its kind or
//! its cause.
//!
//! `specs/Entries.antt` says what a list gives, and `Laws.antt` that a noted line leaves the others alone.
#![tactic(auto)]

mod entries;
mod list;
mod noted;
mod unclosed;

pub use list::read_list;
pub use noted::state;

/// How many bytes a line of a list has at most.
pub const LINE_LIMIT: usize = 65_536;
