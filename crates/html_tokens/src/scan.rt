// How far it is to a place.

ghost use Rattle.std.specs.Prelude.{◌≡◌, ◌<◌, ◌≤◌, ◌-◌, ℕ, List, length, slice_index, take, drop, suc, true, false};
ghost use Rattle.html_meaning.specs.Bytes.{up_to};
ghost use Rattle.html_meaning.specs.Tokens.{no_space, attribute, to_tag_end, is_self_closing, more_in_tag, with_value};
ghost use Rattle.html_tokens.specs.Extents.{AreCuts, IsExtent};
ghost use Rattle.std.specs.Str.{IsCharBoundary, IsUtf8};

use crate::places::{AttributeNameEnd, Place, UnquotedValueEnd, after, byte, is_between, is_quote};
use memchr::memchr;

/// How many bytes stand before the first place that passes, all where none does.
pub fn up_to<P: Place>(place: &P, bytes: &[u8]) -> usize
    ensures value { result ≡ up_to (P.here place.now) bytes.now }
    ensures within { result ≤ length bytes.now }
    ensures ascii { result < length bytes.now → slice_index bytes.now result < 128 }
    ensures here { result < length bytes.now → P.here place.now (drop result bytes.now) ≡ true }
{
    let mut passed = 0;
    while passed < bytes.len() {
        if place.holds(after(bytes, passed)) {
            return passed;
        }
        passed += 1;
    }
    passed
}

/// The same for a place that begins with this byte wherever it passes, which is looked for first.
pub fn up_to_lead<P: Place>(place: &P, lead: u8, bytes: &[u8]) -> usize
    requires { (rest : List ℕ) → P.here place.now rest ≡ true → slice_index rest 0 ≡ lead }
    ensures value { result ≡ up_to (P.here place.now) bytes.now }
    ensures within { result ≤ length bytes.now }
    ensures ascii { result < length bytes.now → slice_index bytes.now result < 128 }
    ensures here { result < length bytes.now → P.here place.now (drop result bytes.now) ≡ true }
{
    let mut passed = 0;
    while let Some(more) = memchr(lead, after(bytes, passed)) {
        passed += more;
        if place.holds(after(bytes, passed)) {
            return passed;
        }
        passed += 1;
    }
    bytes.len()
}

/// How many bytes of white space stand at the front.
pub fn spaces(bytes: &[u8]) -> usize
    ensures value { result ≡ up_to no_space bytes.now }
    ensures within { result ≤ length bytes.now }
{
    let mut passed = 0;
    while passed < bytes.len() {
        if !byte(bytes, passed).is_ascii_whitespace() {
            return passed;
        }
        passed += 1;
    }
    passed
}

/// Where an attribute at the front lies: its name's length, its value's place and length, and how many bytes it takes,
/// which passes the end where a quote isn't closed.
#[derive(Clone, Copy)]
pub struct Extent {
    pub name: usize,
    pub from: usize,
    pub value: usize,
    pub size: usize,
}

/// The byte that closes a value.
#[derive(Drop)]
pub struct Quote {
    pub quote: u8,
}

impl Place for Quote {
    ghost use Rattle.std.specs.Prelude.{◌≡◌, true, ◌==◌, ◌&&◌, slice_index};
    ghost use Rattle.html_meaning.specs.Tokens.{is_quote};
    ghost use Rattle.html_tokens.specs.Ascii.{quote-ascii};

    ghost here = { λ p bytes. is_quote p.quote && slice_index bytes 0 == p.quote };

    fn holds(&self, rest: &[u8]) -> bool {
        is_quote(self.quote) && byte(rest, 0) == self.quote
    }

    ghost ascii = { λ p bytes e. quote-ascii p.quote bytes e };
}

// The value at a place of an attribute.
fn value_at(name: usize, bytes: &[u8], from: usize) -> Extent
    requires { from ≤ length bytes.now }
    ensures extent { IsExtent result (with_value (take name bytes.now) from (drop from bytes.now)) bytes.now }
    ensures cuts { IsUtf8 bytes.now → IsCharBoundary bytes.now name → IsCharBoundary bytes.now from → AreCuts result bytes.now }
{
    let text = after(bytes, from);
    let quote = byte(text, 0);
    if is_quote(quote) {
        let value = up_to_lead(&Quote { quote }, quote, after(text, 1));
        Extent {
            name,
            from: from + 1,
            value,
            size: from + value + 2,
        }
    } else {
        let value = up_to(&UnquotedValueEnd, text);
        Extent {
            name,
            from,
            value,
            size: from + value,
        }
    }
}

/// The attribute at the front.
pub fn attribute(bytes: &[u8]) -> Extent
    requires { 0 < length bytes.now }
    ensures extent { IsExtent result (attribute bytes.now) bytes.now }
    ensures cuts { IsUtf8 bytes.now → AreCuts result bytes.now }
{
    let name = 1 + up_to(&AttributeNameEnd, after(bytes, 1));
    let equals = name + spaces(after(bytes, name));
    if byte(after(bytes, equals), 0) == b'=' {
        let from = equals + 1 + spaces(after(bytes, equals + 1));
        value_at(name, bytes, from)
    } else {
        Extent {
            name,
            from: name,
            value: 0,
            size: name,
        }
    }
}

// How many bytes the piece inside a tag takes that begins here: an attribute, or one byte between.
fn piece_size(bytes: &[u8]) -> usize
    requires { 0 < length bytes.now }
    ensures { result ≡ suc (more_in_tag bytes.now) }
{
    if is_between(bytes[0]) {
        1
    } else {
        attribute(bytes).size
    }
}

/// How many bytes stand before the `>` that ends the tag, all where none does.
pub fn to_tag_end(bytes: &[u8]) -> usize
    ensures value { result ≡ to_tag_end 0 bytes.now }
    ensures within { result ≤ length bytes.now }
    ensures angle { result < length bytes.now → slice_index bytes.now result ≡ 62 }
{
    let mut passed = 0;
    while passed < bytes.len() && bytes[passed] != b'>' {
        let size = piece_size(after(bytes, passed));
        passed = if size < bytes.len() - passed {
            passed + size
        } else {
            bytes.len()
        };
    }
    passed
}

// A `/` stands last, where the tag may be self-closing.
fn ends_in_slash(bytes: &[u8]) -> bool
    ensures { result ≡ false → is_self_closing 0 bytes.now ≡ false }
{
    if bytes.is_empty() {
        return false;
    }
    bytes[bytes.len() - 1] == b'/'
}

/// A `/` stands last, and is part of no attribute.
pub fn is_self_closing(bytes: &[u8]) -> bool
    ensures { result ≡ is_self_closing 0 bytes.now }
{
    // the attributes are gone through again only where that `/` may be part of one
    if !ends_in_slash(bytes) {
        return false;
    }
    let mut passed = 0;
    while bytes.len() - passed > 1 {
        let size = piece_size(after(bytes, passed));
        if size >= bytes.len() - passed {
            return false;
        }
        passed += size;
    }
    byte(after(bytes, passed), 0) == b'/'
}
