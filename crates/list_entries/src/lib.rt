//! What a filter list gives: filters, exceptions and page options, and notices of the other lines.
#![tactic(auto)]

mod entry;
mod notice;

pub use entry::{Entries, Entry, ListRead, Lists};
pub use notice::{Notice, Notices};
