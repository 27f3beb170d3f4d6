ghost use Rattle.std.specs.Prelude.{◌≡◌, [], ◌∷◌, length, OnOk};
ghost use Rattle.std.specs.List.{list_all};
ghost use Rattle.selector_spelling.specs.Scan.{innermost, outer, is_selector};

use selector_spelling::Open;
use std::alloc::{AllocError, Global};
use std::marker::Model;

/// What is open, seen as a list from the innermost on.
#[derive(Drop)]
pub(crate) struct Stack {
    items: Vec<Open>,
}

impl Model for Stack {
    ghost use Rattle.std.specs.Prelude.{List, reverse};
    ghost use Rattle.selector_spelling.specs.declared.open.Open.{Open};

    ghost Value = { List Open };

    ghost view = { λ stack. reverse stack.items.items };
}

impl Stack {
    /// Nothing is open.
    pub fn new(alloc: Global) -> Stack
        ensures { result ≡ [] }
    {
        Stack {
            items: Vec::new(alloc),
        }
    }

    /// Opens one more.
    pub fn push(&mut self, opened: Open) -> Result<(), AllocError>
        ensures { OnOk result (self.new ≡ opened ∷ self.old) }
    {
        self.items.push(opened)?;
        Ok(())
    }

    /// Closes the innermost; nothing where none is open.
    pub fn pop(&mut self)
        ensures { self.new ≡ outer self.old }
    {
        let _ = self.items.pop();
    }

    /// The innermost that is open.
    pub fn innermost(&self) -> Option<Open>
        ensures { result ≡ innermost self.now }
    {
        self.items.last().copied()
    }

    /// How many are open.
    pub fn len(&self) -> usize
        ensures { result ≡ length self.now }
    {
        self.items.len()
    }

    /// Whether all that is open are arguments that are selectors. It looks from the outermost on, and stops at another.
    pub fn are_selectors(&self) -> bool
        ensures { result ≡ list_all is_selector self.now }
    {
        all_selectors(self.items.as_slice())
    }
}

fn all_selectors(items: &[Open]) -> bool
    ensures { result ≡ list_all is_selector items.now }
{
    items.iter().all(|opened| is_selector(*opened))
}

/// Whether an argument that is a selector is open.
pub(crate) fn is_selector(opened: Open) -> bool
    ensures { result ≡ is_selector opened }
{
    matches!(opened, Open::Selector)
}
