//! Values of attributes against wanted ones, letter case ignored or not.
ghost use Rattle.std.specs.Prelude.{◌≡◌, nat_eq, codes, ◌++◌, ◌||◌};
ghost use Rattle.std.specs.List.{starts_with, ends_with};
ghost use Rattle.std.specs.Str.{bytes_eq};
ghost use Rattle.selector_meaning.specs.Texts.{spelled, has_part, fits};

use crate::words::has_word;
use selector_tree::AttrOp;

// Whether the value of an attribute fits.
pub(crate) fn fits(op: AttrOp, wanted: &str, value: &str, ignore_case: bool) -> bool
    ensures { result ≡ fits op (spelled ignore_case wanted.now) (spelled ignore_case value.now) }
{
    fits_bytes(op, wanted.as_bytes(), value.as_bytes(), ignore_case)
}

fn fits_bytes(op: AttrOp, wanted: &[u8], value: &[u8], ignore_case: bool) -> bool
    ensures { result ≡ fits op (spelled ignore_case wanted.now) (spelled ignore_case value.now) }
{
    match op {
        AttrOp::Exists => true,
        AttrOp::Equals => is_same(value, wanted, ignore_case),
        AttrOp::Word => has_word(value, wanted, ignore_case),
        AttrOp::Dash => is_same(value, wanted, ignore_case) || goes_on(value, wanted, ignore_case),
        AttrOp::Prefix => !wanted.is_empty() && begins(value, wanted, ignore_case),
        AttrOp::Suffix => !wanted.is_empty() && ends(value, wanted, ignore_case),
        AttrOp::Part => !wanted.is_empty() && holds_part(value, wanted, ignore_case),
    }
}

// Whether two texts are the same.
pub(crate) fn is_same(a: &[u8], b: &[u8], ignore_case: bool) -> bool
    ensures { result ≡ bytes_eq (spelled ignore_case a.now) (spelled ignore_case b.now) }
{
    if ignore_case {
        a.eq_ignore_ascii_case(b)
    } else {
        a == b
    }
}

// Whether a value begins with the wanted text and a dash.
fn goes_on(value: &[u8], wanted: &[u8], ignore_case: bool) -> bool
    ensures { result ≡ starts_with nat_eq (spelled ignore_case value.now) (spelled ignore_case wanted.now ++ codes "-") }
{
    if value.len() <= wanted.len() {
        return false;
    }
    value[wanted.len()] == b'-' && begins(value, wanted, ignore_case)
}

// Whether a value begins with the wanted text.
fn begins(value: &[u8], wanted: &[u8], ignore_case: bool) -> bool
    ensures { result ≡ starts_with nat_eq (spelled ignore_case value.now) (spelled ignore_case wanted.now) }
{
    if value.len() < wanted.len() {
        return false;
    }
    is_same(wanted, &value[..wanted.len()], ignore_case)
}

// Whether a value ends with the wanted text.
fn ends(value: &[u8], wanted: &[u8], ignore_case: bool) -> bool
    ensures { result ≡ ends_with nat_eq (spelled ignore_case value.now) (spelled ignore_case wanted.now) }
{
    if value.len() < wanted.len() {
        return false;
    }
    is_same(wanted, &value[value.len() - wanted.len()..], ignore_case)
}

// Whether the wanted text stands somewhere in a value.
fn holds_part(value: &[u8], wanted: &[u8], ignore_case: bool) -> bool
    ensures { result ≡ has_part (spelled ignore_case wanted.now) (spelled ignore_case value.now) }
{
    let mut rest = value;
    'places: loop {
        if begins(rest, wanted, ignore_case) {
            return true;
        }
        match rest.split_first() {
            Some((_, more)) => rest = more,
            None => return false,
        }
    }
}

// Whether a part stands somewhere in a text.
pub(crate) fn holds_text(text: &str, part: &str) -> bool
    ensures { result ≡ has_part part.now text.now }
{
    text.contains(part)
}
