//! The elements around an element: its parent and its siblings.
ghost use Rattle.std.specs.Prelude.{◌≡◌, [], ◌∷◌, MatchOption, IfSome};
ghost use Rattle.page_tree.specs.Directions.{is_in};
ghost use Rattle.page_tree.specs.Standings.{all, above, before, after};
ghost use Rattle.selector_match.specs.Asked.{IsElement, is_element_kind, sibling};

use dom_arena::{Dom, NodeKind};

/// Whether the number is that of an element.
pub fn is_element(dom: &Dom, n: u32) -> bool
    ensures { result ≡ is_in (all dom.now) n }
{
    dom.is_tree();
    match dom.node(n) {
        None => false,
        Some(node) => is_element_kind(node.kind()),
    }
}

fn is_element_kind(kind: NodeKind) -> bool
    ensures { result ≡ is_element_kind kind }
{
    match kind {
        NodeKind::Element => true,
        _ => false,
    }
}

/// The nearest ancestor of an element that is an element.
pub fn parent(dom: &Dom, x: u32) -> Option<u32>
    requires { IsElement dom.now x }
    ensures first { MatchOption result (above dom.now x ≡ []) (λ y. above dom.now x ≡ y ∷ above dom.now y) }
    ensures element { IfSome result (λ y. IsElement dom.now y) }
{
    dom.is_tree();
    match dom.parent(x) {
        None => None,
        Some(parent) => { if parent == 0 { None } else { Some(parent) } }
    }
}

/// The nearest earlier sibling of an element that is an element.
pub fn previous(dom: &Dom, x: u32) -> Option<u32>
    requires { IsElement dom.now x }
    ensures first { MatchOption result (before dom.now x ≡ []) (λ y. before dom.now x ≡ sibling dom.now y ∷ before dom.now y) }
    ensures element { IfSome result (λ y. IsElement dom.now y) }
{
    dom.is_tree();
    let mut at = dom.previous(x);
    'nodes: while let Some(n) = at {
        if is_element(dom, n) {
            return Some(n);
        }
        at = dom.previous(n);
    }
    None
}

/// The nearest later sibling of an element that is an element.
pub fn next(dom: &Dom, x: u32) -> Option<u32>
    requires { IsElement dom.now x }
    ensures first { MatchOption result (after dom.now x ≡ []) (λ y. after dom.now x ≡ sibling dom.now y ∷ after dom.now y) }
    ensures element { IfSome result (λ y. IsElement dom.now y) }
{
    dom.is_tree();
    let mut at = dom.next(x);
    'nodes: while let Some(n) = at {
        if is_element(dom, n) {
            return Some(n);
        }
        at = dom.next(n);
    }
    None
}
