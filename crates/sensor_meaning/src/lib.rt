//! What a change of a page can have touched, as contracts speak of it. This crate has types and definitions alone.
//!
//! A sensor is what a filter's answer observes, with the route from the place of a change to the elements whose answer it
//! is. `specs/Sensors.antt` has the sensors of each test, step and filter, `Changes.antt` what each kind of change says of
//! the trees before and after, and `Dirty.antt` the elements that a change can have touched. `proofs/Tables.antt` computes
//! the sensors row by row, and `proofs/Worked.antt` what is dirty on small pages.
#![tactic(auto)]

mod change;
mod order;
mod sensor;

pub use change::Change;
pub use sensor::{Observes, Route, Sensor, Way};
