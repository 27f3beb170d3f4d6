// The parts that hold the line that is read.
ghost use Rattle.std.specs.Prelude.{◌≡◌, ◌<◌, [], ◌∷◌, length, slice_set, MatchOption, OnOk};
ghost use Rattle.list_lines.specs.OpenIfs.{divided_first, open_if, parts_of};
ghost use Rattle.list_lines.specs.Parts.{are_live, takes_else};

use std::alloc::{AllocError, Global};
use std::marker::Model;

/// What is to be said of an `if` where its part stays open.
#[derive(Clone, Copy, Debug, PartialEq, Eq)]
pub struct Unclosed {
    /// Its line.
    pub line: u32,
    /// The place of its `!`.
    pub at: usize,
}

/// A part that holds the line that is read.
#[derive(Clone, Copy, Debug, PartialEq, Eq)]
pub struct OpenIf {
    /// Whether its condition holds.
    pub condition: bool,
    /// Whether its `else` stands before that line.
    pub divided: bool,
    /// Whether its `if` stands on a live line.
    pub outside: bool,
    /// How many notices there were at its `if`.
    pub noticed: usize,
    /// What is said where it stays open.
    pub unclosed: Option<Unclosed>,
}

/// The parts that hold the line that is read. Contracts see them from the innermost on.
#[derive(Drop)]
pub struct OpenIfs {
    items: Vec<OpenIf>,
}

impl Model for OpenIfs {
    ghost use Rattle.std.specs.Prelude.{List, reverse};
    ghost use Rattle.list_lines.specs.declared.nesting.OpenIf.{OpenIf};
    ghost use Rattle.list_lines.specs.OpenIfs.{AreChained};

    ghost Value = { List OpenIf };

    ghost view = { λ ifs. reverse ifs.items.items };

    ghost invariant = { λ ifs. AreChained (reverse ifs.items.items) };
}

impl OpenIfs {
    /// No part. It takes no memory.
    pub fn new(alloc: Global) -> OpenIfs
        ensures { result ≡ [] }
    {
        OpenIfs {
            items: Vec::new(alloc),
        }
    }

    /// Whether each part makes the line that is read live.
    pub fn is_live(&self) -> bool
        ensures { result ≡ are_live (parts_of self.now) }
    {
        match self.items.last() {
            Some(part) => part.outside && part.condition != part.divided,
            None => true,
        }
    }

    /// Opens a part by its condition. `unclosed` is what is to be said where it stays open.
    pub fn enter(
        &mut self,
        condition: bool,
        noticed: usize,
        unclosed: Option<Unclosed>,
    ) -> Result<(), AllocError>
        ensures { OnOk result (self.new ≡ open_if condition noticed unclosed self.old ∷ self.old) }
    {
        let outside = self.is_live();
        self.items.push(OpenIf {
            condition,
            divided: false,
            outside,
            noticed,
            unclosed,
        })?;
        Ok(())
    }

    /// An `else`: whether the innermost part takes it.
    pub fn divide(&mut self) -> bool
        ensures taken { result ≡ takes_else (parts_of self.old) }
        ensures after { self.new ≡ divided_first self.old }
    {
        let count = self.items.as_slice().len();
        if count == 0 {
            return false;
        }
        let part = self.items[count - 1];
        let divided = OpenIf {
            divided: true,
            ..part
        };
        put(&mut self.items, count - 1, divided);
        !part.divided
    }

    /// An `endif`: the innermost part, which it closes.
    pub fn leave(&mut self) -> Option<OpenIf>
        ensures { MatchOption result ((self.old ≡ []) × (self.new ≡ [])) (λ part. self.old ≡ part ∷ self.new) }
    {
        self.items.pop()
    }
}

fn put(items: &mut Vec<OpenIf>, place: usize, part: OpenIf)
    requires { place < length items.old.items }
    ensures { items.new.items ≡ slice_set items.old.items place part }
{
    items[place] = part;
}
