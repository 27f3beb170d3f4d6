ghost use Rattle.std.specs.Prelude.{◌≡◌, ◌==◌, [], Bool, not, ◌&&◌, ◌||◌, ℕ, OnOk, OnErr};
ghost use Rattle.page_tree.specs.Directions.{is_in};
ghost use Rattle.kept_marks.specs.Rising.{IsRising};

use std::alloc::{AllocError, Global};
use std::marker::Model;

/// The filters that are marked at an element, rising.
#[derive(Drop)]
pub struct Row {
    filters: Vec<u32>,
}

impl Model for Row {
    ghost use Rattle.std.specs.Prelude.{List, ℕ};

    ghost Value = { List ℕ };

    ghost use Rattle.kept_marks.specs.Rising.{IsRising};

    ghost view = { λ row. row.filters.items };

    ghost invariant = { λ row. IsRising row.filters.items };
}

impl Row {
    /// No filter.
    pub fn new(alloc: Global) -> Row
        ensures { result ≡ [] }
    {
        Row {
            filters: Vec::new(alloc),
        }
    }

    /// The filters, lent.
    pub fn as_slice(&self) -> &[u32]
        ensures filters { result.now ≡ self.now }
        ensures rising { IsRising result.now }
    {
        self.filters.as_slice()
    }

    /// Takes a filter out.
    pub fn take_out(&mut self, f: u32)
        ensures { (g : ℕ) → is_in self.new g ≡ (is_in self.old g && not (g == f)) }
    {
        self.filters.retain(|g| *g != f);
    }

    /// Adds a filter, unless it is there.
    pub fn put_in(&mut self, f: u32) -> Result<(), AllocError>
        ensures ok { OnOk result ((g : ℕ) → is_in self.new g ≡ (is_in self.old g || (g == f))) }
        ensures err { OnErr result (self.new ≡ self.old) }
    {
        match self.filters.binary_search(&f) {
            Ok(_) => Ok(()),
            Err(place) => {
                self.filters.insert(place, f)?;
                Ok(())
            }
        }
    }
}
