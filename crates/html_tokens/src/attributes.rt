// The attributes of a tag, one after another, as slices of its text.

ghost use Rattle.std.specs.Prelude.{◌≡◌, ◌<◌, ◌≤◌, IsTrue, length, slice_index, take, drop, [], ◌∷◌, false, MatchOption};
ghost use Rattle.std.specs.Str.{IsCharBoundary};
ghost use Rattle.html_meaning.specs.Tokens.{attribute, attributes, attribute_pairs, is_between};

use crate::places::{byte, is_between};
use crate::rules::behind;
use crate::scan::attribute;

/// An attribute at the front of a text, and what stands behind it.
#[derive(Clone, Copy)]
pub struct FoundAttribute<'a> {
    pub name: &'a str,
    pub value: &'a str,
    pub rest: &'a str,
}

/// The first attribute in a text of attributes, or `None` where there is none.
pub fn next_attribute(text: &str) -> Option<FoundAttribute<'_>>
    ensures found { MatchOption result (attribute_pairs text.now ≡ [])
        (λ found. attribute_pairs text.now ≡ (found.name.now, found.value.now) ∷ attribute_pairs found.rest.now) }
    ensures shorter { MatchOption result (attribute_pairs text.now ≡ []) (λ found. length found.rest.now < length text.now) }
{
    let inner = behind_between(text);
    if inner.is_empty() {
        None
    } else {
        Some(attribute_at(inner))
    }
}

// What stands behind the space and `/` at the front.
fn behind_between(text: &str) -> &str
    ensures same { attribute_pairs result.now ≡ attribute_pairs text.now }
    ensures within { length result.now ≤ length text.now }
    ensures stops { 0 < length result.now → is_between (slice_index result.now 0) ≡ false }
{
    let mut rest = text;
    while !rest.is_empty() {
        if !is_between(byte(rest.as_bytes(), 0)) {
            return rest;
        }
        rest = behind(rest, 1);
    }
    rest
}

// The attribute that begins with the first byte.
fn attribute_at(text: &str) -> FoundAttribute<'_>
    requires { 0 < length text.now }
    ensures name { result.name.now ≡ (attribute text.now).name }
    ensures value { result.value.now ≡ (attribute text.now).value }
    ensures rest { result.rest.now ≡ drop (attribute text.now).size text.now }
{
    let extent = attribute(text.as_bytes());
    FoundAttribute {
        name: text.split_at(extent.name).0,
        value: text.split_at(extent.from).1.split_at(extent.value).0,
        rest: behind_attribute(text, extent.size),
    }
}

// What stands behind an attribute of this size, which is past the end where a quote isn't closed.
fn behind_attribute(text: &str, size: usize) -> &str
    requires { size ≤ length text.now → IsCharBoundary text.now size }
    ensures { result.now ≡ drop size text.now }
{
    if size <= text.len() {
        text.split_at(size).1
    } else {
        ""
    }
}
