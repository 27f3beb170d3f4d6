//! The rest of a chain, as it is walked through from an element.
ghost use Rattle.std.specs.Prelude.{◌≡◌, ◌≤◌, ◌+◌, ◌-◌, length, take, IfOk};
ghost use Rattle.procedural_ops.specs.Noted.{chain_cells};
ghost use Rattle.procedural_ops.specs.Rests.{steps_of};

use crate::count::behind;
use selector_tree::{Place, Step};
use std::alloc::AllocError;

/// The steps of a chain from a place on, and where the notes of their tests begin.
#[derive(Clone, Copy)]
pub(crate) struct Rest<'a> {
    pub(crate) chain: &'a [Step],
    pub(crate) from: usize,
    pub(crate) begin: usize,
}

impl<'a> Rest<'a> {
    /// Its steps.
    pub(crate) fn steps(&self) -> &'a [Step]
        requires { self.now.from ≤ length self.now.chain.now }
        ensures { result.now ≡ steps_of self.now }
    {
        &self.chain[self.from..]
    }

    /// How many steps it has.
    pub(crate) fn left(&self) -> usize
        requires { self.now.from ≤ length self.now.chain.now }
        ensures { result ≡ length self.now.chain.now - self.now.from }
    {
        self.chain.len() - self.from
    }

    /// What stands behind so many of its steps.
    pub(crate) fn behind(&self, many: usize) -> Result<Rest<'a>, AllocError>
        requires within { self.now.from ≤ length self.now.chain.now }
        requires some { self.now.from + many ≤ length self.now.chain.now }
        ensures chain { IfOk result (λ rest. rest.chain.now ≡ self.now.chain.now) }
        ensures from { IfOk result (λ rest. rest.from ≡ self.now.from + many) }
        ensures begin { IfOk result (λ rest. rest.begin ≡
            self.now.begin + length (chain_cells (take many (steps_of self.now)))) }
    {
        let begin = behind(self.begin, &self.steps()[..many])?;
        Ok(Rest {
            chain: self.chain,
            from: self.from + many,
            begin,
        })
    }
}

/// For rests of how many steps answers are remembered, counted from none: those that an element can be come to in several ways,
/// since two combinators before them lead to many elements.
pub(crate) fn asked_again(chain: &[Step]) -> usize {
    behind_far(behind_far(chain)).len()
}

// The steps behind the first that leads to many elements.
fn behind_far(steps: &[Step]) -> &[Step] {
    let mut left = steps;
    'steps: while let Some((first, more)) = left.split_first() {
        left = more;
        if is_far(first) {
            return left;
        }
    }
    left
}

// Whether a step leads to many elements.
fn is_far(step: &Step) -> bool {
    match step {
        Step::Move(Place::Descendant) | Step::Move(Place::After) => true,
        _ => false,
    }
}
