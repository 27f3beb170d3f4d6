//! Where combinators lead.
ghost use Rattle.std.specs.Prelude.{◌≡◌, [], ◌∷◌, MatchOption, IfSome};
ghost use Rattle.selector_meaning.specs.Meaning.{is_there};
ghost use Rattle.selector_match.specs.Asked.{IsElement, sources, is_one_step};

use crate::around::{parent, previous};
use dom_arena::Dom;
use selector_tree::Place;

/// Whether x is there from `from`: its child, below it, its next element sibling or a later one. It takes no memory.
pub fn in_place(dom: &Dom, place: Place, from: u32, x: u32) -> bool
    requires { IsElement dom.now x }
    ensures { result ≡ is_there dom.now place from x }
{
    let mut at = x;
    'sources: while let Some(y) = source(dom, place, at) {
        if y == from {
            return true;
        }
        if is_one_step(place) {
            return false;
        }
        at = y;
    }
    false
}

/// The nearest element from which a combinator may lead to an element.
pub fn source(dom: &Dom, place: Place, x: u32) -> Option<u32>
    requires { IsElement dom.now x }
    ensures first { MatchOption result (sources dom.now place x ≡ []) (λ y. sources dom.now place x ≡ y ∷ sources dom.now place y) }
    ensures element { IfSome result (λ y. IsElement dom.now y) }
{
    match place {
        Place::Child | Place::Descendant => parent(dom, x),
        Place::Next | Place::After => previous(dom, x),
    }
}

// Whether a combinator leads from the nearest of its sources alone.
fn is_one_step(place: Place) -> bool
    ensures { result ≡ is_one_step place }
{
    match place {
        Place::Child | Place::Next => true,
        Place::Descendant | Place::After => false,
    }
}
