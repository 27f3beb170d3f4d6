//! The nodes below an element, and their texts.
ghost use Rattle.std.specs.Prelude.{◌≡◌, ◌-◌, true, IfOk, nat_le, nat_lt, if◌then◌else◌};
ghost use Rattle.page_tree.specs.Directions.{is_in};
ghost use Rattle.page_tree.specs.Facts.{text_content, text_length, is_blank};
ghost use Rattle.page_tree.specs.Forest.{rooted, find, content, behind};
ghost use Rattle.page_tree.specs.Standings.{inner};
ghost use Rattle.page_tree.specs.Words.{utf16_length};
ghost use Rattle.selector_match.specs.Asked.{IsElement, below, own_text, fills};

use dom_arena::{Dom, NodeKind, NodeRef};
use listed::Text;
use std::alloc::{AllocError, Global};

/// The node behind `from` in document order, among an element and all nodes below it; `None` behind the last of them.
pub fn next_below(dom: &Dom, top: u32, from: u32) -> Option<u32>
    requires element { IsElement dom.now top }
    requires there { is_in (below dom.now top) from ≡ true }
    ensures { result ≡ behind from (below dom.now top) }
{
    dom.is_tree();
    if let Some(child) = dom.first_child(from) {
        return Some(child);
    }
    let mut at = from;
    'up: while at != top {
        if let Some(next) = dom.next(at) {
            return Some(next);
        }
        match dom.parent(at) {
            Some(parent) => at = parent,
            None => return None,
        }
    }
    None
}

/// Whether no element is in an element, and no text that isn't empty.
pub(crate) fn is_blank(dom: &Dom, x: u32) -> bool
    requires { IsElement dom.now x }
    ensures { result ≡ is_blank (inner dom.now x) }
{
    dom.is_tree();
    let mut at = dom.first_child(x);
    'nodes: while let Some(n) = at {
        if is_filled(dom, n) {
            return false;
        }
        at = dom.next(n);
    }
    true
}

// Whether a node is an element, or a text that isn't empty.
fn is_filled(dom: &Dom, n: u32) -> bool
    ensures { result ≡ fills (content (find n (rooted dom.now.nodes))) }
{
    match dom.node(n) {
        None => false,
        Some(node) => fills(&node),
    }
}

fn fills(node: &NodeRef<'_>) -> bool
    ensures { result ≡ fills (Some node.now) }
{
    match node.kind() {
        NodeKind::Element => true,
        NodeKind::Text => !node.text().is_empty(),
        _ => false,
    }
}

/// The text content of an element.
pub(crate) fn text_of(alloc: Global, dom: &Dom, x: u32) -> Result<Text, AllocError>
    requires { IsElement dom.now x }
    ensures { IfOk result (λ text. text ≡ text_content dom.now x) }
{
    dom.is_tree();
    let mut text = Text::new(alloc);
    let mut at = next_below(dom, x, x);
    'nodes: while let Some(n) = at {
        text.push_str(own_text(dom, n))?;
        at = next_below(dom, x, n);
    }
    Ok(text)
}

/// Whether the text content of an element has at least so many UTF-16 units.
pub(crate) fn has_units(dom: &Dom, x: u32, wanted: u32) -> bool
    requires { IsElement dom.now x }
    ensures { result ≡ nat_le wanted (text_length dom.now x) }
{
    dom.is_tree();
    let mut left = wanted;
    let mut at = next_below(dom, x, x);
    'nodes: while let Some(n) = at {
        if left == 0 {
            return true;
        }
        left = units_left(own_text(dom, n), left);
        at = next_below(dom, x, n);
    }
    left == 0
}

// The text of a node itself, if it is a text.
pub(crate) fn own_text(dom: &Dom, n: u32) -> &str
    ensures { result.now ≡ own_text dom.now n }
{
    match dom.node(n) {
        None => "",
        Some(node) => match node.kind() {
            NodeKind::Text => node.text(),
            _ => "",
        },
    }
}

// How many of so many UTF-16 units are left when those of a text are taken.
fn units_left(text: &str, wanted: u32) -> u32
    ensures { result ≡ wanted - utf16_length text.now }
{
    let mut left = wanted;
    for c in text.chars() {
        if left == 0 {
            return 0;
        }
        left = left.saturating_sub(units_of(c));
    }
    left
}

// How many UTF-16 units a character takes.
fn units_of(c: char) -> u32
    ensures { result ≡ (if nat_lt c 65536 then 1 else 2) }
{
    if (c as u32) < 65536 { 1 } else { 2 }
}
