//! Which filters may be asked, as contracts speak of them. This crate has definitions alone.
//!
//! `specs/Held.antt` says when the patterns of a selector stand in a table under their numbers, `Proper.antt` which
//! selectors a filter may have besides, with `:others()` in its own chains alone, and `Degrees.antt` that each `:upward(n)`
//! has a number of at least 1.
#![tactic(auto)]
