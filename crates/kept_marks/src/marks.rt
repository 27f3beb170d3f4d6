ghost use Rattle.std.specs.Prelude.{◌≡◌, ◌==◌, Bool, true, false, not, ◌&&◌, ℕ, cond, length, nat_eq, OnOk, OnErr};
ghost use Rattle.std.specs.List.{IsDistinct};
ghost use Rattle.std.specs.Map.{keys_of};
ghost use Rattle.page_tree.specs.Directions.{is_in};
ghost use Rattle.kept_marks.specs.Rising.{IsRising};
ghost use Rattle.kept_marks.specs.Kept.{row, row_in, is_marked, Sets, IsSame};

use crate::rows::Row;
use indexmap::IndexMap;
use procedural_ops::Verdict;
use std::alloc::{AllocError, Global};
use std::marker::Model;

/// The pairs of a filter and an element whose answer was yes.
///
/// Filters go by their places among the active ones, elements by their numbers.
#[derive(Drop)]
pub struct Marks {
    alloc: Global,
    rows: IndexMap<u32, Row>,
}

impl Model for Marks {
    ghost use Rattle.std.specs.Prelude.{List, ℕ};

    ghost Value = { List (ℕ × List ℕ) };

    ghost view = { λ marks. marks.rows.entries };
}

impl Marks {
    /// No pair. It takes no memory.
    pub fn new(alloc: Global) -> Marks
        ensures { (f x : ℕ) → is_marked result f x ≡ false }
    {
        Marks {
            alloc,
            rows: IndexMap::new(alloc),
        }
    }

    /// Puts the pair of a yes in, and takes the pair of a no out. Without memory the pairs are as before.
    pub fn put(&mut self, verdict: Verdict) -> Result<(), AllocError>
        ensures ok { OnOk result (Sets self.old self.new verdict.filter verdict.element verdict.yes) }
        ensures err { OnErr result (IsSame self.old self.new) }
    {
        let f = verdict.filter();
        let x = verdict.element();
        if verdict.yes() {
            self.add(f, x)
        } else {
            self.clear(f, x);
            Ok(())
        }
    }

    // Puts a pair in.
    fn add(&mut self, f: u32, x: u32) -> Result<(), AllocError>
        ensures ok { OnOk result (Sets self.old self.new f x true) }
        ensures err { OnErr result (IsSame self.old self.new) }
    {
        match self.rows.get_mut(&x) {
            Some(row) => row.put_in(f),
            None => {
                let mut row = Row::new(self.alloc);
                row.put_in(f)?;
                self.rows.insert(x, row)?;
                Ok(())
            }
        }
    }

    /// Takes a pair out. It takes no memory.
    pub fn clear(&mut self, f: u32, x: u32)
        ensures { Sets self.old self.new f x false }
    {
        match self.rows.get_mut(&x) {
            Some(row) => row.take_out(f),
            None => {}
        }
    }

    /// Takes all pairs of an element out. It takes no memory.
    pub fn drop_node(&mut self, x: u32)
        ensures { (g y : ℕ) → is_marked self.new g y ≡ (is_marked self.old g y && not (y == x)) }
    {
        let _ = self.rows.swap_remove(&x);
    }

    /// How many elements have a row, each one. The filters of a row may be gone again. It takes no memory.
    pub fn len(&self) -> usize
        ensures len { result ≡ length self.now }
        ensures once { IsDistinct nat_eq (keys_of self.now) }
    {
        self.rows.len()
    }

    /// The filters of the row at a place, in any order of elements; none past the last. It takes no memory.
    pub fn row_at(&self, place: usize) -> &[u32]
        ensures { result.now ≡ row_in self.now place }
    {
        match self.rows.get_index(place) {
            Some((_, row)) => row.as_slice(),
            None => &[],
        }
    }

    /// The filters that are marked at an element, rising. It takes no memory.
    pub fn of(&self, x: u32) -> &[u32]
        ensures filters { result.now ≡ row self.now x }
        ensures rising { IsRising result.now }
    {
        match self.rows.get(&x) {
            Some(row) => row.as_slice(),
            None => &[],
        }
    }
}
