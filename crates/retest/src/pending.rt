ghost use Rattle.std.specs.Prelude.{◌≡◌, ◌==◌, [], ◌++◌, Bool, ◌&&◌, ◌||◌, ℕ, nat_eq, OnOk, true, false};
ghost use Rattle.page_tree.specs.Directions.{is_in};
ghost use Rattle.std.specs.List.{IsDistinct};
ghost use Rattle.retest.specs.Noted.{is_pending};

use indexmap::IndexSet;
use std::alloc::{AllocError, Global};
use std::marker::Model;

/// What must be asked again: pairs of a group of filters and an element, and elements for every group.
#[derive(Drop)]
pub struct Pending {
    elements: IndexSet<u32>,
    whole: IndexSet<u32>,
    pairs: IndexSet<(u32, u32)>,
}

impl Model for Pending {
    ghost use Rattle.retest.specs.Noted.{Noted};

    ghost Value = { Noted };

    ghost use Rattle.retest.specs.Noted.{IsCovered};

    ghost view = { λ p.
        record { elements = p.elements.keys; whole = p.whole.keys; pairs = p.pairs.keys } };

    ghost invariant = { λ p. IsCovered p.elements.keys p.whole.keys p.pairs.keys };
}

impl Pending {
    /// Nothing.
    pub fn new(alloc: Global) -> Pending
        ensures { (g x : ℕ) → is_pending result g x ≡ false }
    {
        Pending {
            elements: IndexSet::new(alloc),
            whole: IndexSet::new(alloc),
            pairs: IndexSet::new(alloc),
        }
    }

    /// The elements at which something is pending, each once.
    pub fn elements(&self) -> &[u32]
        ensures once { IsDistinct nat_eq result.now }
        ensures all { (g x : ℕ) → is_pending self.now g x ≡ true → is_in result.now x ≡ true }
    {
        self.elements.as_slice()
    }

    /// Whether a group is pending at an element.
    pub fn is_noted(&self, group: u32, x: u32) -> bool
        ensures { result ≡ is_pending self.now group x }
    {
        self.whole.contains(&x) || self.pairs.contains(&(group, x))
    }

    /// Notes an element for a group.
    pub fn note(&mut self, group: u32, x: u32) -> Result<(), AllocError>
        ensures { OnOk result ((g y : ℕ) →
            is_pending self.new g y ≡ (is_pending self.old g y || (g == group && y == x))) }
    {
        self.elements.insert(x)?;
        self.pairs.insert((group, x))?;
        Ok(())
    }

    /// Notes an element for every group.
    pub fn note_whole(&mut self, x: u32) -> Result<(), AllocError>
        ensures { OnOk result ((g y : ℕ) →
            is_pending self.new g y ≡ (is_pending self.old g y || (y == x))) }
    {
        self.elements.insert(x)?;
        self.whole.insert(x)?;
        Ok(())
    }
}
