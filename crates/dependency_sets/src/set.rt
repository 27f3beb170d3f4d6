//! The sensors of a filter as a set.
ghost use Rattle.std.specs.Prelude.{◌≡◌, IfOk};
ghost use Rattle.std.specs.List.{list_any};
ghost use Rattle.std.proofs.Common.{rules};
ghost use Rattle.std.specs.Cmp.{partial_equiv_from_equiv, partial_order_from_own_ties};
ghost use Rattle.std.specs.Cmp.Rules.{comparing};
ghost use Rattle.std.specs.Cmp.Lexicographic.{slice_cmp};
ghost use Rattle.std.specs.Ordering.{eq_by_cmp, as_partial_cmp};
ghost use Rattle.sensor_meaning.specs.Changes.{observes};
ghost use Rattle.sensor_meaning.specs.Order.{sensor_cmp};
ghost use Rattle.sensor_meaning.specs.Sensors.{sensors};
ghost use Rattle.dependency_sets.specs.Same.{AreSame, AreSorted};

use crate::observed::is_observed;
use crate::sensing::sensors_of;
use selector_tree::Filter;
use sensor_meaning::{Change, Sensor};
use std::alloc::{AllocError, Global};
use std::cmp::Ordering;
use std::marker::Model;

/// The sensors of a filter: a set, whose members stand in their one order. So filters with the same sensors have equal sets.
#[derive(Debug, Drop)]
pub struct Sensors {
    sorted: Vec<Sensor>,
}

impl Model for Sensors {
    ghost use Rattle.std.specs.Prelude.{List};
    ghost use Rattle.sensor_meaning.specs.declared.sensor.Sensor.{Sensor};

    ghost Value = { List Sensor };

    ghost use Rattle.dependency_sets.specs.Same.{AreSorted};

    ghost view = { λ set. set.sorted.items };

    ghost invariant = { λ set. AreSorted set.sorted.items };
}

impl Sensors {
    /// The sensors of a filter, by the rules of its steps and tests.
    pub fn of(alloc: Global, filter: &Filter) -> Result<Sensors, AllocError>
        ensures { IfOk result (λ set. AreSame set (sensors filter.now.selector)) }
    {
        let mut sorted = sensors_of(alloc, filter)?;
        sorted.sort()?;
        sorted.dedup();
        Ok(Sensors { sorted })
    }

    /// The sensors in their order, lent.
    pub fn as_slice(&self) -> &[Sensor]
        ensures value { result.now ≡ self.now }
        ensures sorted { AreSorted self.now }
    {
        self.sorted.as_slice()
    }

    /// Whether some of them observes a change. It takes no memory and walks no tree.
    pub fn is_observed(&self, change: &Change) -> bool
        ensures { result ≡ list_any (λ s. observes s.observes change.now) self.now }
    {
        is_observed(self.sorted.as_slice(), change)
    }
}

impl PartialEq for Sensors {
    ghost eq = { eq_by_cmp (slice_cmp sensor_cmp) };

    ghost laws = { partial_equiv_from_equiv (Prim.search (comparing, rules)) };

    fn eq(&self, other: &Sensors) -> bool {
        self.cmp(other).is_eq()
    }
}

impl Eq for Sensors {
    ghost laws = { Prim.search (comparing, rules) };
}

impl Ord for Sensors {
    ghost cmp = { slice_cmp sensor_cmp };

    ghost total = { Prim.search (comparing, rules) };

    ghost matches_partial_cmp = { Prim.search (comparing, rules) };

    ghost matches_eq = { Prim.search (comparing, rules) };

    fn cmp(&self, other: &Sensors) -> Ordering {
        self.sorted.as_slice().cmp(other.sorted.as_slice())
    }
}

impl PartialOrd for Sensors {
    ghost partial_cmp = { as_partial_cmp (slice_cmp sensor_cmp) };

    ghost laws = { partial_order_from_own_ties (Prim.search (comparing, rules)) (Prim.search (comparing, rules)) };

    fn partial_cmp(&self, other: &Sensors) -> Option<Ordering> {
        Some(self.cmp(other))
    }
}
