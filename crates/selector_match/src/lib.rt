//! Whether a test holds for an element of a page, and where a combinator leads, asked from the element.
//!
//! `holds_plain` answers tests that look at the page alone, without memory, and `holds` those with texts and patterns too;
//! each raises a counter, so that callers can bound how much is asked. `holds_by_page` counts nothing, for looks that spare a
//! question.
//! Selectors within tests are the matter of `procedural_ops`. What each test means is said in `selector_meaning`.
#![tactic(auto)]

mod around;
mod below;
mod full;
mod literals;
mod places;
mod plain;
mod siblings;
mod texts;
mod walks;
mod words;

pub use around::{is_element, next, parent, previous};
pub use below::next_below;
pub use full::holds;
pub use places::{in_place, source};
pub use plain::{holds_by_page, holds_plain, is_plain};
pub use walks::{first_child, first_target, next_element, next_element_below, next_target};
