ghost use Rattle.selector_spelling.specs.Bytes.{Bytes};
ghost use Rattle.std.specs.Prelude.{◌≡◌, [], Some, None, IfOk, MatchOption};
ghost use Rattle.std.specs.Str.{str_to_ascii_lowercase};
ghost use Rattle.selector_tree.specs.declared.selector.AttrOp.{AttrOp as Op};
ghost use Rattle.selector_spelling.specs.Attributes.{with_equals, comparison, value as read_value, flag, compared, attribute};

use cos_source::trim_text;
use listed::Text;
use selector_lexer::{begins_with, is, push_name, push_string, split_behind, trim_start};
use selector_tree::{AttrOp, Test};
use std::alloc::{AllocError, Global};

/// What stands behind a `=` at the front.
fn behind_equals(text: &str) -> Option<&str>
    ensures { (op : Op) → MatchOption result (with_equals op text.now ≡ None) (λ rest. with_equals op text.now ≡ Some (record { op = op; rest = rest.now })) }
{
    if begins_with(b'=', text.as_bytes()) {
        Some(split_behind(text, 1).1)
    } else {
        None
    }
}

/// A sign of two bytes, by its first.
fn two_signs(op: AttrOp, text: &str) -> Option<(AttrOp, &str)>
    ensures { MatchOption result (with_equals op text.now ≡ None) (λ p. with_equals op text.now ≡ Some (record { op = p.0; rest = p.1.now })) }
{
    Some((op, behind_equals(text)?))
}

/// How values are compared, by the sign at the front, and what stands behind it.
fn comparison(text: &str) -> Option<(AttrOp, &str)>
    ensures { MatchOption result (comparison text.now ≡ None) (λ p. comparison text.now ≡ Some (record { op = p.0; rest = p.1.now })) }
{
    let first = *text.as_bytes().first()?;
    if first == b'=' {
        return Some((AttrOp::Equals, split_behind(text, 1).1));
    }
    if first == b'~' {
        return two_signs(AttrOp::Word, split_behind(text, 1).1);
    }
    if first == b'|' {
        return two_signs(AttrOp::Dash, split_behind(text, 1).1);
    }
    if first == b'^' {
        return two_signs(AttrOp::Prefix, split_behind(text, 1).1);
    }
    if first == b'$' {
        return two_signs(AttrOp::Suffix, split_behind(text, 1).1);
    }
    if first == b'*' {
        return two_signs(AttrOp::Part, split_behind(text, 1).1);
    }
    None
}

/// Adds the name or the string at the front, and gives what stands behind it; `None` where there is none.
fn push_value<'a>(value: &mut Text, text: &'a str) -> Result<Option<&'a str>, AllocError>
    requires { value.old ≡ [] }
    ensures { IfOk result (λ read. MatchOption read (read_value text.now ≡ None) (λ rest. read_value text.now ≡ Some (record { value = value.new; rest = rest.now }))) }
{
    let Some(first) = text.as_bytes().first() else {
        return Ok(None);
    };
    if *first == b'"' || *first == b'\'' {
        return push_string(value, *first, split_behind(text, 1).1);
    }
    push_name(value, text)
}

/// Whether letter case is ignored, by a flag.
fn flag(text: &str) -> Option<bool>
    ensures { result ≡ flag (str_to_ascii_lowercase text.now) }
{
    if text.is_empty() {
        Some(false)
    } else if is(text.as_bytes(), b"i") {
        Some(true)
    } else if is(text.as_bytes(), b"s") {
        Some(false)
    } else {
        None
    }
}

/// The test of an attribute with a value, by its name and what stands behind that.
fn compared(alloc: Global, name: Text, text: &str) -> Result<Option<Test>, AllocError>
    ensures { IfOk result (λ test. (key : Bytes) → name ≡ str_to_ascii_lowercase key → test ≡ compared key text.now) }
{
    let Some((op, rest)) = comparison(text) else {
        return Ok(None);
    };
    let mut value = Text::new(alloc);
    let Some(rest) = push_value(&mut value, trim_start(rest))? else {
        return Ok(None);
    };
    let Some(ignore_case) = flag(trim_text(rest)) else {
        return Ok(None);
    };
    Ok(Some(Test::Attr {
        name,
        op,
        value,
        ignore_case,
    }))
}

/// The test that stands in `[..]`.
pub(crate) fn attribute(alloc: Global, text: &str) -> Result<Option<Test>, AllocError>
    ensures { IfOk result (λ test. test ≡ attribute text.now) }
{
    let mut key = Text::new(alloc);
    let Some(rest) = push_name(&mut key, trim_start(text))? else {
        return Ok(None);
    };
    let name = Text::lower(alloc, key.as_str())?;
    let rest = trim_start(rest);
    if !rest.is_empty() {
        return compared(alloc, name, rest);
    }
    Ok(Some(Test::Attr {
        name,
        op: AttrOp::Exists,
        value: Text::new(alloc),
        ignore_case: false,
    }))
}
