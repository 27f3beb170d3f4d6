//! Walks from element to element.
ghost use Rattle.std.specs.Prelude.{◌≡◌, true, [], ◌∷◌, MatchOption, IfSome};
ghost use Rattle.page_tree.specs.Directions.{is_in};
ghost use Rattle.page_tree.specs.Forest.{rooted, find, children};
ghost use Rattle.page_tree.specs.Standings.{siblings_of, after};
ghost use Rattle.selector_match.specs.Asked.{IsElement, below, sibling};
ghost use Rattle.selector_match.specs.Walks.{elements_behind, order, targets, targets_behind, among};

use crate::around::{is_element, next};
use crate::below::next_below;
use dom_arena::Dom;
use selector_tree::Place;

/// The first child of an element that is an element.
pub fn first_child(dom: &Dom, x: u32) -> Option<u32>
    requires { IsElement dom.now x }
    ensures first { MatchOption result (siblings_of (children (find x (rooted dom.now.nodes))) ≡ [])
        (λ y. siblings_of (children (find x (rooted dom.now.nodes))) ≡ sibling dom.now y ∷ after dom.now y) }
    ensures element { IfSome result (λ y. IsElement dom.now y) }
{
    dom.is_tree();
    let mut at = dom.first_child(x);
    'nodes: while let Some(n) = at {
        if is_element(dom, n) {
            return Some(n);
        }
        at = dom.next(n);
    }
    None
}

/// The element behind a node in document order, among those below an element.
pub fn next_element_below(dom: &Dom, top: u32, from: u32) -> Option<u32>
    requires element { IsElement dom.now top }
    requires there { is_in (below dom.now top) from ≡ true }
    ensures first { MatchOption result (elements_behind dom.now (below dom.now top) from ≡ [])
        (λ y. elements_behind dom.now (below dom.now top) from ≡ y ∷ elements_behind dom.now (below dom.now top) y) }
    ensures element { IfSome result (λ y. IsElement dom.now y) }
    ensures there { IfSome result (λ y. is_in (below dom.now top) y ≡ true) }
{
    dom.is_tree();
    let mut at = next_below(dom, top, from);
    'nodes: while let Some(n) = at {
        if is_element(dom, n) {
            return Some(n);
        }
        at = next_below(dom, top, n);
    }
    None
}

/// The element behind a node in document order.
pub fn next_element(dom: &Dom, from: u32) -> Option<u32>
    requires { is_in (order dom.now) from ≡ true }
    ensures first { MatchOption result (elements_behind dom.now (order dom.now) from ≡ [])
        (λ y. elements_behind dom.now (order dom.now) from ≡ y ∷ elements_behind dom.now (order dom.now) y) }
    ensures element { IfSome result (λ y. IsElement dom.now y) }
    ensures there { IfSome result (λ y. is_in (order dom.now) y ≡ true) }
{
    dom.is_tree();
    let mut at = dom.next_in_order(from);
    'nodes: while let Some(n) = at {
        if is_element(dom, n) {
            return Some(n);
        }
        at = dom.next_in_order(n);
    }
    None
}

/// The first element to which a combinator leads from an element.
pub fn first_target(dom: &Dom, place: Place, x: u32) -> Option<u32>
    requires { IsElement dom.now x }
    ensures first { MatchOption result (targets dom.now place x ≡ []) (λ y. targets dom.now place x ≡ y ∷ targets_behind dom.now place x y) }
    ensures element { IfSome result (λ y. IsElement dom.now y) }
    ensures there { IfSome result (λ y. is_in (among dom.now place x) y ≡ true) }
{
    dom.is_tree();
    match place {
        Place::Child => first_child(dom, x),
        Place::Descendant => next_element_below(dom, x, x),
        Place::Next | Place::After => next(dom, x),
    }
}

/// The next one behind it.
pub fn next_target(dom: &Dom, place: Place, x: u32, from: u32) -> Option<u32>
    requires element { IsElement dom.now x }
    requires from { IsElement dom.now from }
    requires there { is_in (among dom.now place x) from ≡ true }
    ensures first { MatchOption result (targets_behind dom.now place x from ≡ []) (λ y. targets_behind dom.now place x from ≡ y ∷ targets_behind dom.now place x y) }
    ensures element { IfSome result (λ y. IsElement dom.now y) }
    ensures there { IfSome result (λ y. is_in (among dom.now place x) y ≡ true) }
{
    dom.is_tree();
    match place {
        Place::Child | Place::After => next(dom, from),
        Place::Descendant => next_element_below(dom, x, from),
        Place::Next => None,
    }
}
