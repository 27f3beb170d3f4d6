//! A page and its script: what each line does to an engine, and the steps that are written of it.
#![tactic(auto)]

mod follow;
mod known;
mod writing;

pub use follow::{Followed, follow_line, follow_script};
pub use writing::write_steps;
