ghost use Rattle.std.specs.Prelude.{◌≡◌, ◌++◌, ◌∷◌, [], filter, IfOk, OnOk, OnErr, if◌then◌else◌};
ghost use Rattle.std.specs.List.{All};
ghost use Rattle.page_tree.specs.Standings.{all};
ghost use Rattle.selector_meaning.specs.Meaning.{is_other};
ghost use Rattle.selector_match.specs.Asked.{IsElement};

use crate::places::{is_apart, is_beside_by_now, is_shown};
use dom_arena::Dom;
use listed::Numbers;
use selector_match::next_element;
use std::alloc::{AllocError, Global};

/// The elements to which `:others()` leads from some elements, in document order.
pub fn others(alloc: Global, dom: &Dom, members: &[u32]) -> Result<Numbers, AllocError>
    requires { All (λ y. IsElement dom.now y) members.now }
    ensures { IfOk result (λ found. found ≡ filter (is_other dom.now members.now) (all dom.now)) }
{
    dom.is_tree();
    let mut found = Numbers::new(alloc);
    let mut at = next_element(dom, 0);
    'elements: while let Some(x) = at {
        push_if(&mut found, is_other_of_members(dom, members, x), x)?;
        at = next_element(dom, x);
    }
    Ok(found)
}

// Adds a number, if it belongs there.
fn push_if(found: &mut Numbers, belongs: bool, x: u32) -> Result<(), AllocError>
    ensures ok { OnOk result (found.new ≡ found.old ++ (if belongs then x ∷ [] else [])) }
    ensures err { OnErr result (found.new ≡ found.old) }
{
    if belongs { found.push(x) } else { Ok(()) }
}

// Whether `:others()` leads to an element from some elements.
fn is_other_of_members(dom: &Dom, members: &[u32], x: u32) -> bool
    requires element { IsElement dom.now x }
    requires members { All (λ y. IsElement dom.now y) members.now }
    ensures { result ≡ is_other dom.now members.now x }
{
    if !is_shown(dom, x) {
        return false;
    }
    let mut beside = false;
    for y in members {
        if !is_apart(dom, *y, x) {
            return false;
        }
        beside = is_beside_by_now(dom, beside, *y, x);
    }
    beside
}
