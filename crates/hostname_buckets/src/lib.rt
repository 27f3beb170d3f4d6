//! The filters that are active on a page, found by the page's host.
//!
//! `specs/Active.antt` says which filters are active, over all entries of all lists; `Held.antt` says where the numbers of the
//! entries stand by which they are found.
#![tactic(auto)]

mod by_name;
mod store;
mod tables;

pub use store::Store;
