//! Steps that go up, and where elements stand to one another.
ghost use Rattle.std.specs.Prelude.{◌≡◌, ◌≤◌, ◌||◌, ◌&&◌, true, length, take, drop, All, IfSome, IsSomeAnd};
ghost use Rattle.page_tree.specs.Directions.{is_in};
ghost use Rattle.procedural_ops.specs.Blocked.{BeginsBelow, TestBelow, KeepsBelow, LooksBelow, LooksLater, is_level};
ghost use Rattle.page_tree.specs.Standings.{above};
ghost use Rattle.selector_meaning.specs.Meaning.{ancestor, is_apart, is_beside, is_shown};
ghost use Rattle.selector_match.specs.Asked.{IsElement};
ghost use Rattle.procedural_ops.specs.Reaching.{goes_up, first_up_of, is_shown_name};

use crate::runs::is_single;
use dom_arena::Dom;
use selector_match::{in_place, parent};
use selector_tree::{Chain, Place, Step, Test};

/// The n-th ancestor of an element, from 1.
pub(crate) fn ancestor(dom: &Dom, y: u32, n: u8) -> Option<u32>
    requires { IsElement dom.now y }
    ensures ancestor { result ≡ ancestor n (above dom.now y) }
    ensures element { IfSome result (λ z. IsElement dom.now z) }
{
    if n == 0 {
        return None;
    }
    let mut at = y;
    let mut left = n;
    while left > 1 {
        match parent(dom, at) {
            None => return None,
            Some(above) => at = above,
        }
        left -= 1;
    }
    parent(dom, at)
}

/// Whether a step goes up.
pub(crate) fn goes_up(step: &Step) -> bool
    ensures { result ≡ goes_up step.now }
{
    match step {
        Step::Upward(_) | Step::UpwardTo(_) => true,
        _ => false,
    }
}

/// The place of the first step that goes up, or the length.
pub(crate) fn first_up(chain: &[Step]) -> usize
    ensures place { result ≡ first_up_of chain.now }
    ensures within { result ≤ length chain.now }
{
    for (i, step) in chain.iter().enumerate() {
        if goes_up(step) {
            return i;
        }
    }
    chain.len()
}

/// Whether neither x nor anything above or below it is y.
pub(crate) fn is_apart(dom: &Dom, y: u32, x: u32) -> bool
    requires y { IsElement dom.now y }
    requires x { IsElement dom.now x }
    ensures { result ≡ is_apart dom.now y x }
{
    y != x && !in_place(dom, Place::Descendant, x, y) && !in_place(dom, Place::Descendant, y, x)
}

/// Whether the parent of x is above y.
pub(crate) fn is_beside(dom: &Dom, y: u32, x: u32) -> bool
    requires y { IsElement dom.now y }
    requires x { IsElement dom.now x }
    ensures { result ≡ is_beside dom.now y x }
{
    dom.is_tree();
    match parent(dom, x) {
        None => true,
        Some(above) => in_place(dom, Place::Descendant, above, y),
    }
}

/// Whether the parent of x is above y, or was above one of the elements before.
pub(crate) fn is_beside_by_now(dom: &Dom, before: bool, y: u32, x: u32) -> bool
    requires y { IsElement dom.now y }
    requires x { IsElement dom.now x }
    ensures { result ≡ (before || is_beside dom.now y x) }
{
    before || is_beside(dom, y, x)
}

/// Whether an element has none of the names that `:others()` leaves out.
pub fn is_shown(dom: &Dom, x: u32) -> bool
    ensures { result ≡ is_shown dom.now x }
{
    dom.is_tree();
    match dom.node(x) {
        None => true,
        Some(node) => is_shown_name(node.name()),
    }
}

fn is_shown_name(name: &str) -> bool
    ensures { result ≡ is_shown_name name.now }
{
    match name {
        "head" | "link" | "meta" | "script" | "style" | "title" | "html" | "body" => false,
        _ => true,
    }
}

/// Whether an element stands below another one, if there is one.
pub(crate) fn is_under(dom: &Dom, top: Option<u32>, z: u32) -> bool
    requires { IsElement dom.now z }
    ensures { result ≡ true → IsSomeAnd top (λ f. is_in (above dom.now z) f ≡ true) }
{
    match top {
        Some(f) => in_place(dom, Place::Descendant, f, z),
        None => false,
    }
}

/// Whether each step of a run keeps by a test without selectors in it, or by a `:has()` whose chains go down first, to whatever
/// is below, and what stands behind the run goes down first too. Where those tests hold for an element and the steps lead to
/// nothing from it, they lead to nothing from all that is below it.
pub(crate) fn looks_below(run: &[Step], rest: &[Step]) -> bool
    ensures { result ≡ true → LooksBelow run.now rest.now }
{
    if !all_keep_below(run) {
        return false;
    }
    rest.is_empty() || begins_below(rest)
}

/// How many steps stand before the first that is neither a test nor a `+`, where that is a `~` and the steps are asked of
/// siblings, one after another.
pub(crate) fn looks_later(place: Place, steps: &[Step]) -> Option<usize>
    ensures level { IfSome result (λ n. is_level place ≡ true) }
    ensures within { IfSome result (λ n. n ≤ length steps.now) }
    ensures later { IfSome result (λ n. LooksLater (take n steps.now) (drop n steps.now)) }
{
    if place == Place::Descendant {
        return None;
    }
    for (i, step) in steps.iter().enumerate() {
        match step {
            Step::Keep(_) => (),
            Step::Move(way) => match way {
                Place::Next => (),
                Place::After => return Some(i),
                Place::Child | Place::Descendant => return None,
            },
            _ => return None,
        }
    }
    None
}

fn all_keep_below(run: &[Step]) -> bool
    ensures { result ≡ true → All KeepsBelow run.now }
{
    for step in run {
        if !keeps_below(step) {
            return false;
        }
    }
    true
}

fn keeps_below(step: &Step) -> bool
    ensures { result ≡ true → KeepsBelow step.now }
{
    match step {
        Step::Keep(test) => is_single(test) || is_test_below(test),
        _ => false,
    }
}

fn is_test_below(test: &Test) -> bool
    ensures { result ≡ true → TestBelow test.now }
{
    match test {
        Test::Has(selector) => all_begin_below(selector.get().as_slice()),
        _ => false,
    }
}

fn all_begin_below(selector: &[Chain]) -> bool
    ensures { result ≡ true → All BeginsBelow selector.now }
{
    for chain in selector {
        if !begins_below(chain.as_slice()) {
            return false;
        }
    }
    true
}

fn begins_below(chain: &[Step]) -> bool
    ensures { result ≡ true → BeginsBelow chain.now }
{
    match chain {
        [Step::Move(Place::Descendant), ..] => true,
        _ => false,
    }
}
