//! Numbers that a walk has reached, each once.
ghost use Rattle.std.specs.Prelude.{◌≡◌, ◌<◌, ◌^◌, [], length, slice_get, OnOk, OnSome};
ghost use Rattle.dependency_sets.specs.Reaching.{with_number};

use indexmap::IndexSet;
use std::alloc::{AllocError, Global};
use std::marker::Model;

// Numbers in the order in which they were reached, none twice.
#[derive(Drop)]
pub(crate) struct Reached {
    numbers: IndexSet<u32>,
}

impl Model for Reached {
    ghost use Rattle.std.specs.Prelude.{List, ℕ};

    ghost Value = { List ℕ };

    ghost view = { λ reached. reached.numbers.keys };
}

impl Reached {
    // No number. It takes no memory.
    pub(crate) fn new(alloc: Global) -> Reached
        ensures { result ≡ [] }
    {
        Reached {
            numbers: IndexSet::new(alloc),
        }
    }

    // Adds a number, unless it is there.
    pub(crate) fn add(&mut self, n: u32) -> Result<(), AllocError>
        ensures { OnOk result (self.new ≡ with_number self.old n) }
    {
        self.numbers.insert_full(n)?;
        Ok(())
    }

    // The number that was reached at this turn, from 0.
    pub(crate) fn at(&self, turn: usize) -> Option<u32>
        ensures number { result ≡ slice_get self.now turn }
        ensures small { OnSome result (turn < 2 ^ 63) }
    {
        self.numbers.as_slice().get(turn).copied()
    }

    // All of them, in order.
    pub(crate) fn as_slice(&self) -> &[u32]
        ensures { result.now ≡ self.now }
    {
        self.numbers.as_slice()
    }
}
