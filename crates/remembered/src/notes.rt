//! The answers of the tests of a chain.
ghost use Rattle.std.specs.Prelude.{◌≡◌, ◌<◌, ◌+◌, ◌==◌, length, None, Some, Bool, ℕ, [], cond, nat_eq, replicate, OnOk, OnErr, IfOk, IsSome};
ghost use Rattle.std.specs.Map.{lookup};
ghost use Rattle.remembered.specs.Noted.{answer_at, Notes};

use indexmap::IndexMap;
use std::alloc::{AllocError, Global};
use std::marker::Model;

/// The answers of one test, by the numbers of the elements.
#[derive(Drop)]
struct Column {
    answers: IndexMap<u32, bool>,
}

impl Model for Column {
    ghost use Rattle.std.specs.Prelude.{List, ℕ, Bool};

    ghost Value = { List (ℕ × Bool) };

    ghost view = { λ column. column.answers.entries };
}

impl Column {
    fn new(alloc: Global) -> Column
        ensures { result ≡ [] }
    {
        Column {
            answers: IndexMap::new(alloc),
        }
    }

    fn answer(&self, x: u32) -> Option<bool>
        ensures { result ≡ lookup (nat_eq x) self.now }
    {
        self.answers.get(&x).copied()
    }

    fn put(&mut self, x: u32, answer: bool) -> Result<(), AllocError>
        ensures ok { OnOk result ((z : ℕ) → lookup (nat_eq z) self.new ≡ cond (x == z) (Some answer) (lookup (nat_eq z) self.old)) }
        ensures err { OnErr result (self.new ≡ self.old) }
    {
        self.answers.insert(x, answer)?;
        Ok(())
    }
}

/// The answers of all tests of a chain, at any depth. Memory is taken for each answer.
#[derive(Drop)]
pub struct Noted {
    columns: Vec<Column>,
}

impl Model for Noted {
    ghost use Rattle.std.specs.Prelude.{List, ℕ, Bool};

    ghost Value = { List (List (ℕ × Bool)) };

    ghost view = { λ noted. noted.columns.items };
}

impl Noted {
    /// No answers, for so many tests.
    pub fn new(alloc: Global, many: usize) -> Result<Noted, AllocError>
        ensures { IfOk result (λ noted. noted ≡ replicate many []) }
    {
        let mut columns = Vec::new(alloc);
        'columns: while columns.len() < many {
            columns.push(Column::new(alloc))?;
        }
        Ok(Noted { columns })
    }

    /// For how many tests there are answers.
    pub fn len(&self) -> usize
        ensures { result ≡ length self.now }
    {
        self.columns.len()
    }

    /// The answer of the test at a place for an element, if it is there.
    pub fn answer(&self, place: usize, x: u32) -> Option<bool>
        requires { place < length self.now }
        ensures { result ≡ answer_at self.now place x }
    {
        self.columns[place].answer(x)
    }

    /// Puts an answer in.
    pub fn put(&mut self, place: usize, x: u32, answer: bool) -> Result<(), AllocError>
        requires { place < length self.old }
        ensures ok { OnOk result (Notes self.old self.new place x answer) }
        ensures err { OnErr result (self.new ≡ self.old) }
    {
        let column = &mut self.columns[place];
        column.put(x, answer)
    }
}
