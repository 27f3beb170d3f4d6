//! The one order of sensors: by what is observed, and then by the route.
ghost use Rattle.std.specs.Prelude.{◌≡◌, nat_eq};
ghost use Rattle.std.proofs.Common.{rules};
ghost use Rattle.std.specs.Cmp.{partial_order_from_own_ties};
ghost use Rattle.std.specs.Cmp.Rules.{comparing};
ghost use Rattle.std.specs.Cmp.Lexicographic.{slice_cmp, pointwise};
ghost use Rattle.std.specs.Ordering.{nat_cmp, on, then_cmp, eq_of_both, as_partial_cmp};
ghost use Rattle.sensor_meaning.specs.Order.{kind_of, name_of, ways_of, ways, way_number, sensor_cmp, sensor_eq};

use crate::sensor::{Observes, Sensor, Way};
use std::cmp::Ordering;

// Where a way stands among the ways.
fn place_of(way: Way) -> u8
    ensures { result ≡ way_number way }
{
    match way {
        Way::ToChild => 0,
        Way::ToBelow => 1,
        Way::ToParent => 2,
        Way::ToAbove => 3,
        Way::ToNext => 4,
        Way::ToPrevious => 5,
        Way::ToAfter => 6,
        Way::ToBefore => 7,
        Way::Whole => 8,
    }
}

// Where a kind of what is observed stands among the kinds.
fn kind_of(observes: &Observes) -> u8
    ensures { result ≡ kind_of observes.now }
{
    match observes {
        Observes::Attr(_) => 0,
        Observes::AnyAttr => 1,
        Observes::Text => 2,
        Observes::Children => 3,
        Observes::Path => 4,
    }
}

// The name of the attribute that is observed, else nothing.
fn name_of(observes: &Observes) -> &str
    ensures { result.now ≡ name_of observes.now }
{
    match observes {
        Observes::Attr(name) => name.as_str(),
        Observes::AnyAttr | Observes::Text | Observes::Children | Observes::Path => "",
    }
}

// How two routes are ordered: the first ways that differ decide, and else the lengths do.
fn compare_routes(a: &[Way], b: &[Way]) -> Ordering
    ensures { result ≡ slice_cmp nat_cmp (ways a.now) (ways b.now) }
{
    let mut left = a;
    let mut right = b;
    'ways: loop {
        match left.split_first() {
            None => return if right.is_empty() {
                Ordering::Equal
            } else {
                Ordering::Less
            },
            Some((x, more)) => match right.split_first() {
                None => return Ordering::Greater,
                Some((y, others)) => match place_of(*x).cmp(&place_of(*y)) {
                    Ordering::Less => return Ordering::Less,
                    Ordering::Greater => return Ordering::Greater,
                    Ordering::Equal => {
                        left = more;
                        right = others;
                    }
                },
            },
        }
    }
}

impl PartialEq for Sensor {
    ghost eq = { sensor_eq };

    ghost laws = { Prim.search (comparing, rules) };

    fn eq(&self, other: &Sensor) -> bool {
        self.cmp(other).is_eq()
    }
}

impl Eq for Sensor {
    ghost laws = { Prim.search (comparing, rules) };
}

impl Ord for Sensor {
    ghost cmp = { sensor_cmp };

    ghost total = { Prim.search (comparing, rules) };

    ghost matches_partial_cmp = { Prim.search (comparing, rules) };

    ghost matches_eq = { Prim.search (comparing, rules) };

    fn cmp(&self, other: &Sensor) -> Ordering {
        kind_of(&self.observes)
            .cmp(&kind_of(&other.observes))
            .then(name_of(&self.observes).cmp(name_of(&other.observes)))
            .then(compare_routes(self.route.as_slice(), other.route.as_slice()))
    }
}

impl PartialOrd for Sensor {
    ghost partial_cmp = { as_partial_cmp sensor_cmp };

    ghost laws = { partial_order_from_own_ties (Prim.search (comparing, rules)) (Prim.search (comparing, rules)) };

    fn partial_cmp(&self, other: &Sensor) -> Option<Ordering> {
        Some(self.cmp(other))
    }
}
