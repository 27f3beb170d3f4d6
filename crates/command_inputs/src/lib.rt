//! What a command reads: its files in their order, the page of its address, and each refusal in its place.
//!
//! `specs/Inputs.antt` says what each command reads and what is refused, `Due.antt` how that is put together, and `Reads.antt`
//! what a call that reads promises of its shelf.
#![tactic(auto)]

mod files;
mod inputs;
mod page;
mod status;

pub use inputs::{ApplyInputs, Sources, read_apply, read_lists};
pub use page::tree_of_text;
pub use status::{File, InputRefusal, Status};

/// How many bytes a file has at most; of lists, all together.
pub const FILE_LIMIT: usize = 16_777_216;

/// How many bytes an address has at most.
pub const ADDRESS_LIMIT: usize = 65_536;

/// How many lists a command has at most.
pub const LIST_LIMIT: usize = 32;
