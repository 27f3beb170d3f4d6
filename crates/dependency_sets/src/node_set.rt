//! Sets of elements by their numbers.
ghost use Rattle.std.specs.Prelude.{◌≡◌};
ghost use Rattle.std.specs.List.Sorted.{IsStrictlySortedBy};
ghost use Rattle.std.specs.Ordering.{nat_cmp};
ghost use Rattle.dependency_sets.specs.Reaching.{HasSame};

use std::marker::Model;

/// Elements by their numbers, rising and none twice.
#[derive(Debug, Drop)]
pub struct NodeSet {
    numbers: Vec<u32>,
}

impl Model for NodeSet {
    ghost use Rattle.std.specs.Prelude.{List, ℕ};
    ghost use Rattle.std.specs.List.Sorted.{IsStrictlySortedBy};
    ghost use Rattle.std.specs.Ordering.{nat_cmp};

    ghost Value = { List ℕ };

    ghost view = { λ set. set.numbers.items };

    ghost invariant = { λ set. IsStrictlySortedBy nat_cmp set.numbers.items };
}

impl NodeSet {
    // The set of some numbers, in any order and with repeats. It takes no memory.
    pub(crate) fn of(mut numbers: Vec<u32>) -> NodeSet
        ensures { HasSame result numbers.items }
    {
        numbers.sort_unstable();
        numbers.dedup();
        NodeSet { numbers }
    }

    /// The numbers, rising, lent.
    pub fn as_slice(&self) -> &[u32]
        ensures value { result.now ≡ self.now }
        ensures rising { IsStrictlySortedBy nat_cmp self.now }
    {
        self.numbers.as_slice()
    }
}
