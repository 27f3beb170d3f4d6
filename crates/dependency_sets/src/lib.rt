//! What a filter's answers depend on: the sensors of filters, whether a change is observed, and the elements that it can
//! have touched.
//!
//! `Sensors` is a filter's sensors as a set: filters with the same sensors have equal sets. `dirty` answers the elements that
//! a change can have touched, which are those that sensors lead to (`spread`, for all filters with these sensors) and those
//! that came or moved (`brought`, whatever the filter).
//!
//! A direction of a route is followed by a set of numbers: one step from each place, and where it leads on, one step from
//! each number that was reached, once. So it takes constant time for each child, parent or sibling that is looked at, and
//! looks once at each, however many places and routes meet there.
#![tactic(auto)]

ghost use Rattle.dependency_sets.specs.Laws.{OneOrder, SameDirty};

mod found;
mod near;
mod node_set;
mod observed;
mod reached;
mod sensing;
mod set;
mod steps;
mod touching;

pub use node_set::NodeSet;
pub use observed::is_observed;
pub use sensing::sensors_of;
pub use set::Sensors;
pub use touching::{brought, dirty, spread};

/// States the laws of sets of sensors: sets with the same members are equal, and what is dirty hangs on the members alone.
pub fn state()
    ensures one_order { OneOrder }
    ensures same_dirty { SameDirty }
{}
