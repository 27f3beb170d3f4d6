//! Asking again what changes of a page may have touched, and nothing else.
//!
//! After each change `Pending` notes what it made dirty, by groups of filters; `retest` then asks each filter of the elements at
//! which its group is pending and whose keys it has, each pair once, so that kept answers are exact again. `start` asks each
//! filter of all elements that carry a key of it. Before a filter without a key is asked of an element, a look at the tests at the
//! end of its chains may spare the question, where the answer is no.
#![tactic(auto)]

mod asking;
mod look;
mod noting;
mod pending;
mod pends;

pub use asking::{Asking, retest, start};
pub use noting::{drop_all, note_each, note_for_all};
pub use pending::Pending;
pub use pends::{Everything, Pends};
