//! An element's place among its siblings.
ghost use Rattle.std.specs.Prelude.{◌≡◌, ◌+◌, [], ◌∷◌, length, not, MatchOption, IfSome};
ghost use Rattle.page_tree.specs.Standings.{name};
ghost use Rattle.selector_meaning.specs.Meaning.{is_nth, of_same_name};
ghost use Rattle.selector_meaning.specs.Texts.{is_empty};
ghost use Rattle.selector_match.specs.Asked.{IsElement, sibling, side};

use crate::around::{next, previous};
use dom_arena::Dom;

/// The name of an element.
pub(crate) fn name_of(dom: &Dom, x: u32) -> &str
    ensures { result.now ≡ name dom.now x }
{
    dom.is_tree();
    match dom.node(x) {
        None => "",
        Some(node) => node.name(),
    }
}

// The nearest element sibling on one side.
fn nearest_sibling(dom: &Dom, later: bool, x: u32) -> Option<u32>
    requires { IsElement dom.now x }
    ensures first { MatchOption result (side dom.now later x ≡ []) (λ y. side dom.now later x ≡ sibling dom.now y ∷ side dom.now later y) }
    ensures element { IfSome result (λ y. IsElement dom.now y) }
{
    if later {
        next(dom, x)
    } else {
        previous(dom, x)
    }
}

/// The place of an element among its siblings or those of its name, from 1, counted from the first or from the last.
pub(crate) fn place_of(dom: &Dom, x: u32, from_end: bool, of_name: bool) -> u32
    requires { IsElement dom.now x }
    ensures { result ≡ length (of_same_name of_name (name dom.now x) (side dom.now from_end x)) + 1 }
{
    dom.is_tree();
    let own = name_of(dom, x);
    let mut place = 1;
    let mut at = x;
    'siblings: while let Some(y) = nearest_sibling(dom, from_end, at) {
        if !of_name || name_of(dom, y) == own {
            place += 1;
        }
        at = y;
    }
    place
}

/// Whether an element has a sibling, or one of its name, on one side.
pub(crate) fn has_sibling(dom: &Dom, x: u32, later: bool, of_name: bool) -> bool
    requires { IsElement dom.now x }
    ensures { result ≡ not (is_empty (of_same_name of_name (name dom.now x) (side dom.now later x))) }
{
    let own = name_of(dom, x);
    let mut at = x;
    'siblings: while let Some(y) = nearest_sibling(dom, later, at) {
        if !of_name || name_of(dom, y) == own {
            return true;
        }
        at = y;
    }
    false
}

/// Whether a place is `a*k+b` for some k of 0 or more.
pub(crate) fn is_nth(a: i32, b: i32, place: u32) -> bool
    ensures { result ≡ is_nth a b place }
{
    let place = i64::from(place);
    let offset = i64::from(b);
    let distance = place.abs_diff(offset);
    let step = u64::from(a.unsigned_abs());
    if distance == 0 {
        return true;
    }
    if offset < place {
        a > 0 && distance % step == 0
    } else {
        a < 0 && distance % step == 0
    }
}
