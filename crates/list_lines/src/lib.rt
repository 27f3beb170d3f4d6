//! The lines of filter lists by their bytes alone: which kind each is, what its conditions say, and which lines are live.
//!
//! Hosts and selectors are handed on as slices, with their places. `specs/Lines.antt` says what a line is, `Separators.antt` and
//! `Options.antt` what it is made of, `Conditions.antt` what a condition says, and `Parts.antt` which lines the parts between
//! `!#if` and `!#endif` hold.
#![tactic(auto)]

mod condition;
mod line;
mod nesting;
mod options;
mod separator;

pub use condition::read_condition;
pub use line::{Directive, HideLine, LineForm, PageLine, read_line};
pub use nesting::{OpenIf, OpenIfs, Unclosed};
pub use options::{Domain, PageOptions};
pub use separator::Separator;

/// How many bytes a line of a list has at most.
pub const LINE_LIMIT: usize = 65_536;
