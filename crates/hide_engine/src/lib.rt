//! The engine of filters: it keeps a page, its filters and the marks of what they select, changes the page, and answers
//! which elements are hidden.
//!
//! Each event makes single changes of the page, and notes after each what it made dirty; at the end that is asked again, and the
//! marks are exact once more. Filters with the same sensors are one group, for which what is dirty is looked for once. A
//! filter is asked of the dirty elements of its group that carry a key of it, and of nothing else.
#![tactic(auto)]

mod asking;
mod engine;
mod filter_set;
mod groups;
mod making;
mod noting;
mod planned;
mod removing;
mod renewing;
mod rows;

pub use engine::{Applied, Engine};
