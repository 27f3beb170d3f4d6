//! Names of hosts, and what of a host stands before its public suffix.
//!
//! `specs/Hosts.antt` says which texts name a host, `Suffixes.antt` what the public suffix and the rest of a host are, and
//! `SuffixLines.antt` what the lines of a file of rules say.
#![tactic(auto)]

mod ends;
mod host;
mod line;
mod suffixes;

pub use ends::Ends;
pub use host::{Host, is_under};
pub use suffixes::{Suffixes, SuffixesRead};
