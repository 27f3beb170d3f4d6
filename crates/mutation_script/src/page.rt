// The state of a page between two lines of a script, and how a mutation changes it.
ghost use Rattle.std.specs.Prelude.{◌≡◌, ◌+◌, ◌≤◌, length, IfOk, OnOk, OnErr};
ghost use Rattle.mutation_script.specs.Changes.{change, changed, outcome_of};
ghost use Rattle.mutation_script.specs.Inserted.{inserted};
ghost use Rattle.mutation_script.specs.Told.{refused, told};
ghost use Rattle.mutation_script.specs.declared.mutation.Mutation.TheVariants.{Insert};

use crate::{Mutation, Outcome};
use dom_arena::{Dom, DomError};
use html_tree::{PageError, read_fragment};
use listed::Text;
use std::alloc::{AllocError, Global};

/// A page between two lines of a script.
#[derive(Drop)]
pub struct PageState {
    /// Its nodes.
    pub tree: Dom,
    /// The path of its address, followed by `?` and the query where there is one.
    pub path: Text,
}

impl PageState {
    /// Makes the change that a mutation asks for, or answers its first refusal, after which the page is as it was; so it is
    /// where there was no memory. The HTML of an insert gives no more numbers than it has bytes.
    pub fn apply(&mut self, alloc: Global, mutation: Mutation) -> Result<Outcome, AllocError>
        requires { self.old.tree.next + inserted mutation ≤ 4294967295 }
        ensures outcome { IfOk result (λ outcome. outcome ≡ outcome_of (change mutation self.old)) }
        ensures page { OnOk result (self.new ≡ changed mutation self.old) }
        ensures err { OnErr result (self.new ≡ self.old) }
    {
        match mutation {
            Mutation::SetAttr { n, name, value } => told(
                self.tree.set_attr(n, name.as_str(), value.as_str()),
            ),
            Mutation::DropAttr { n, name } => told(self.tree.drop_attr(n, name.as_str())),
            Mutation::SetText { n, text } => told(self.tree.set_text(n, text.as_str())),
            Mutation::Insert {
                parent,
                place,
                html,
            } => self.insert(alloc, parent, place, html.as_str()),
            Mutation::Delete { n } => told(self.tree.detach(n)),
            Mutation::Relink { n, parent, place } => told(self.tree.relink(n, parent, place)),
            Mutation::Path { path } => {
                self.path = path;
                Ok(Outcome::Done)
            }
        }
    }

    // Puts the nodes of a fragment at a place among the children of the parent.
    fn insert(
        &mut self,
        alloc: Global,
        parent: u32,
        place: u32,
        html: &str,
    ) -> Result<Outcome, AllocError>
        requires { self.old.tree.next + length html.now ≤ 4294967295 }
        ensures outcome { IfOk result (λ outcome. outcome ≡ outcome_of (change (Insert parent place html.now) self.old)) }
        ensures page { OnOk result (self.new ≡ changed (Insert parent place html.now) self.old) }
        ensures err { OnErr result (self.new ≡ self.old) }
    {
        if let Err(error) = self.tree.check_place(parent, place) {
            return refused(error);
        }
        let Some(depth) = self.tree.depth(parent) else {
            return refused(DomError::NoSuchNode(parent));
        };
        match read_fragment(alloc, html, depth, self.tree.count()) {
            Ok(part) => match self.tree.graft(parent, place, part) {
                Ok(_) => Ok(Outcome::Done),
                Err(error) => refused(error),
            },
            Err(PageError::TooDeep) => refused(DomError::TooDeep),
            Err(PageError::TooManyNodes) => refused(DomError::TooManyNodes),
            Err(PageError::NoMemory) => Err(AllocError),
        }
    }
}

// What came of a call on a tree.
fn told(done: Result<(), DomError>) -> Result<Outcome, AllocError>
    ensures { result ≡ told done }
{
    match done {
        Ok(()) => Ok(Outcome::Done),
        Err(error) => refused(error),
    }
}

// What a call on a tree answered that is refused.
fn refused(error: DomError) -> Result<Outcome, AllocError>
    ensures { result ≡ refused error }
{
    match error {
        DomError::NoMemory => Err(AllocError),
        error => Ok(Outcome::Refused(error)),
    }
}
