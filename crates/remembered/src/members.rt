//! Whether steps lead to something below a parent.
ghost use Rattle.std.specs.Prelude.{◌≡◌, [], OnOk, OnErr};
ghost use Rattle.remembered.specs.Known.{known, Knows};

use indexmap::IndexMap;
use std::alloc::{AllocError, Global};
use std::marker::Model;

/// The first steps of a filter's chain, and a parent.
#[derive(Clone, Copy, Debug, PartialEq, Eq, Hash, Drop)]
pub struct Front {
    /// The filter's place among the active ones.
    pub filter: u32,
    /// The chain's place in the filter's selector.
    pub chain: usize,
    /// How many steps of the chain.
    pub steps: usize,
    /// The number of an element, or 0 for the document.
    pub parent: u32,
}

/// What was found out of the steps before `:others()`: whether they lead to something below a parent. Memory is taken for each
/// answer.
#[derive(Drop)]
pub struct Members {
    answers: IndexMap<Front, bool>,
}

impl Model for Members {
    ghost use Rattle.std.specs.Prelude.{List, Bool};
    ghost use Rattle.remembered.specs.declared.members.Front.{Front};

    ghost Value = { List (Front × Bool) };

    ghost view = { λ members. members.answers.entries };
}

impl Members {
    /// No answers.
    pub fn new(alloc: Global) -> Members
        ensures { result ≡ [] }
    {
        Members {
            answers: IndexMap::new(alloc),
        }
    }

    /// The answer that is remembered, if one is.
    pub fn answer(&self, front: Front) -> Option<bool>
        ensures { result ≡ known self.now front }
    {
        self.answers.get(&front).copied()
    }

    /// Remembers an answer; at want of memory it isn't.
    pub fn put(&mut self, front: Front, answer: bool) -> Result<(), AllocError>
        ensures ok { OnOk result (Knows self.old self.new front answer) }
        ensures err { OnErr result (self.new ≡ self.old) }
    {
        self.answers.insert(front, answer)?;
        Ok(())
    }
}
