//! Looking for a literal in the texts below an element, as they lie.
ghost use Rattle.std.specs.Prelude.{◌≡◌, ◌≤◌, ◌||◌, ℕ, List, ◌++◌, length, drop, IfOk, OnOk};
ghost use Rattle.page_tree.specs.Facts.{text_content};
ghost use Rattle.selector_meaning.specs.Texts.{has_part};
ghost use Rattle.selector_match.specs.Asked.{IsElement, end_of};

use crate::below::{next_below, own_text};
use dom_arena::Dom;
use memchr::memmem::Finder;
use std::alloc::{AllocError, Global};

// Texts up to so many bytes are searched together.
const SHORT: usize = 256;

/// Whether a literal stands in the text content of an element.
///
/// The texts aren't joined. Of those that went by only the end is kept, in which the literal may have begun, and short ones
/// until they are worth a search: at most three times the bytes of the literal, or a few hundred. The time is linear in the
/// texts.
pub(crate) fn has_literal(
    alloc: Global,
    dom: &Dom,
    x: u32,
    literal: &str,
) -> Result<bool, AllocError>
    requires { IsElement dom.now x }
    ensures { IfOk result (λ found. found ≡ has_part literal.now (text_content dom.now x)) }
{
    dom.is_tree();
    let finder = Finder::new(literal.as_bytes());
    let mut pending = Vec::new(alloc);
    let mut at = next_below(dom, x, x);
    'nodes: while let Some(n) = at {
        if found_by_now(&finder, &mut pending, own_text(dom, n).as_bytes())? {
            return Ok(true);
        }
        at = next_below(dom, x, n);
    }
    Ok(stands_in(&finder, pending.as_slice()))
}

// Whether a literal is found by now in what is pending and the next text behind it. Where it isn't, what is pending then
// tells with what comes later whether it stands anywhere.
fn found_by_now(finder: &Finder<'_>, pending: &mut Vec<u8>, text: &[u8]) -> Result<bool, AllocError>
    ensures { IfOk result (λ found. (later : List ℕ) →
        has_part finder.now (pending.old.items ++ (text.now ++ later)) ≡
        (found || has_part finder.now (pending.new.items ++ later))) }
{
    // A literal that begins before the text and ends in it ends in its first bytes.
    let reach = finder.needle().len().saturating_sub(1);
    let window = reach.max(SHORT);
    let (front, rest) = text.split_at(window.min(text.len()));
    pending.extend_from_slice(front)?;
    // So each byte is searched and moved a few times alone, however short the texts are.
    if rest.is_empty() && pending.len() / 2 <= window {
        return Ok(false);
    }
    if stands_in(finder, text) || stands_in(finder, pending.as_slice()) {
        return Ok(true);
    }
    push_end(pending, rest, reach)?;
    Ok(false)
}

// Whether a literal stands somewhere in some bytes.
fn stands_in(finder: &Finder<'_>, bytes: &[u8]) -> bool
    ensures { result ≡ has_part finder.now bytes.now }
{
    finder.find(bytes).is_some()
}

// Puts bytes behind others, and keeps so many at the end.
fn push_end(bytes: &mut Vec<u8>, more: &[u8], count: usize) -> Result<(), AllocError>
    ensures { OnOk result (bytes.new.items ≡ end_of count (bytes.old.items ++ more.now)) }
{
    let spare = (bytes.len() + more.len()).saturating_sub(count);
    let gone = spare.min(bytes.len());
    drop_front(bytes, gone);
    bytes.extend_from_slice(&more[spare - gone..])?;
    Ok(())
}

// Takes so many bytes away at the front.
fn drop_front(bytes: &mut Vec<u8>, count: usize)
    requires { count ≤ length bytes.old.items }
    ensures { bytes.new.items ≡ drop count bytes.old.items }
{
    let left = bytes.len() - count;
    bytes.rotate_left(count);
    bytes.truncate(left);
}
