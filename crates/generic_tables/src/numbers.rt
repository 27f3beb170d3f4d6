ghost use Rattle.std.specs.Prelude.{◌≡◌, ◌==◌, ◌↔◌, [], not, ◌&&◌, ◌||◌, ℕ, nat_eq, IsTrue, OnOk, OnErr};
ghost use Rattle.std.specs.List.{IsDistinct};
ghost use Rattle.page_tree.specs.Directions.{is_in};

use indexmap::IndexSet;
use std::alloc::{AllocError, Global};
use std::marker::Model;

/// A set of numbers, which contracts see as a list.
#[derive(Drop)]
pub struct NumberSet {
    numbers: IndexSet<u32>,
}

impl Model for NumberSet {
    ghost use Rattle.std.specs.Prelude.{List, ℕ};

    ghost Value = { List ℕ };

    ghost view = { λ set. set.numbers.keys };
}

impl NumberSet {
    /// No number. It takes no memory.
    pub fn new(alloc: Global) -> NumberSet
        ensures { result ≡ [] }
    {
        NumberSet {
            numbers: IndexSet::new(alloc),
        }
    }

    /// The numbers, lent.
    pub fn as_slice(&self) -> &[u32]
        ensures numbers { result.now ≡ self.now }
        ensures once { IsDistinct nat_eq result.now }
    {
        self.numbers.as_slice()
    }

    /// Whether there are none.
    pub fn is_empty(&self) -> bool
        ensures { IsTrue result ↔ (self.now ≡ []) }
    {
        self.numbers.as_slice().is_empty()
    }

    /// Puts a number in, unless it is there.
    pub fn put_in(&mut self, n: u32) -> Result<(), AllocError>
        ensures ok { OnOk result ((x : ℕ) → is_in self.new x ≡ (is_in self.old x || (x == n))) }
        ensures err { OnErr result (self.new ≡ self.old) }
    {
        self.numbers.insert(n)?;
        Ok(())
    }

    /// Takes a number out, in constant time and without memory.
    pub fn take_out(&mut self, n: u32)
        ensures { (x : ℕ) → is_in self.new x ≡ (is_in self.old x && not (x == n)) }
    {
        let _ = self.numbers.swap_remove(&n);
    }
}
