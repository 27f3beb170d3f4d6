// The condition of `!#if`.
ghost use Rattle.std.specs.Prelude.{◌≡◌, ◌+◌, ◌<◌, ◌≤◌, ◌^◌, ℕ, Bool, List, Option, true, false, length, IfSome, MatchOption};
ghost use Rattle.std.specs.List.{list_all, list_any};
ghost use Rattle.cos_source.specs.Classes.{is_in};
ghost use Rattle.std.specs.Option.{option_copied};
ghost use Rattle.std.specs.Str.{bytes_eq};
ghost use Rattle.cos_source.specs.Spaces.{trimmed};
ghost use Rattle.list_lines.specs.Conditions.{base_of, between, condition_of, depth_behind, is_cut, is_name, is_nested, is_true, nested_in, not_of, and_of, or_of, parts_between};
ghost use Rattle.list_lines.specs.FirstParts.{split_parts, turned};

use cos_source::{Class, is_space, trim};
use listed::{Names, Text};

// How many parentheses may stand in one another.
const NESTING: u32 = 16;

/// Whether a condition holds where `ext_ublock` and these names are true; `None` where it isn't read. It takes no memory.
pub fn read_condition(text: &[u8], given: &Names) -> Option<bool>
    ensures { result ≡ condition_of given.now text.now }
{
    any_of(text, NESTING, given)
}

// Names between `||`.
#[cycle(condition)]
fn any_of(text: &[u8], levels: u32, given: &Names) -> Option<bool>
    ensures { result ≡ or_of given.now (nested_in given.now levels) text.now }
{
    let mut value = false;
    let mut rest = text;
    'parts: loop {
        let (part, behind) = first_part(b'|', rest);
        value = all_of(part, levels, given)? || value;
        let Some(more) = behind else {
            return Some(value);
        };
        rest = more;
    }
}

// Names between `&&`.
#[cycle(condition)]
fn all_of(text: &[u8], levels: u32, given: &Names) -> Option<bool>
    ensures { result ≡ and_of given.now (nested_in given.now levels) text.now }
{
    let mut value = true;
    let mut rest = text;
    'parts: loop {
        let (part, behind) = first_part(b'&', rest);
        value = not_of(part, levels, given)? && value;
        let Some(more) = behind else {
            return Some(value);
        };
        rest = more;
    }
}

// A name or a text in parentheses behind any number of `!`.
#[cycle(condition)]
fn not_of(text: &[u8], levels: u32, given: &Names) -> Option<bool>
    ensures { result ≡ not_of given.now (nested_in given.now levels) text.now }
{
    let (negated, rest) = behind_signs(text);
    let value = base_of(trim(rest), levels, given)?;
    Some(if negated { !value } else { value })
}

// Whether an odd number of `!` stands before a text, with white space, and what stands behind them.
fn behind_signs(text: &[u8]) -> (bool, &[u8])
    ensures { (given : List (List ℕ)) (nested : List ℕ → Option Bool) →
        not_of given nested text.now ≡ turned result.0 (base_of given nested (trimmed result.1.now)) }
{
    let mut negated = false;
    let mut rest = text;
    'signs: loop {
        match rest.split_first() {
            Some((b'!', more)) => {
                negated = !negated;
                rest = more;
            }
            Some((first, more)) if is_space(*first) => rest = more,
            _ => return (negated, rest),
        }
    }
}

// A name, or a text in parentheses.
#[cycle(condition)]
fn base_of(text: &[u8], levels: u32, given: &Names) -> Option<bool>
    ensures { result ≡ base_of given.now (nested_in given.now levels) text.now }
{
    if is_name(text) {
        return Some(is_true(text, given));
    }
    let inner = inside(text)?;
    if levels == 0 {
        return None;
    }
    any_of(inner, levels - 1, given)
}

fn is_name(text: &[u8]) -> bool
    ensures { result ≡ is_name text.now }
{
    !text.is_empty() && are_name_bytes(text)
}

fn are_name_bytes(text: &[u8]) -> bool
    ensures { result ≡ list_all (is_in Class.Name) text.now }
{
    text.iter().all(|byte| Class::Name.holds(*byte))
}

// Whether a name is `ext_ublock` or is given.
fn is_true(name: &[u8], given: &Names) -> bool
    ensures { result ≡ is_true given.now name.now }
{
    name == b"ext_ublock".as_slice() || is_given(name, given.as_slice())
}

fn is_given(name: &[u8], given: &[Text]) -> bool
    ensures { result ≡ list_any (λ g. bytes_eq g name.now) given.now }
{
    given.iter().any(|one| one.as_str().as_bytes() == name)
}

// What stands between the parentheses of a text.
fn inside(text: &[u8]) -> Option<&[u8]>
    ensures { MatchOption result (is_nested text.now ≡ false) (λ inner.
        (is_nested text.now ≡ true) × (inner.now ≡ between text.now)) }
{
    match text {
        [b'(', inner @ .., b')'] => Some(inner),
        _ => None,
    }
}

// The first part of a text between signs of two of these bytes, as `||`, in no parentheses, and what stands behind its sign.
fn first_part(sign: u8, text: &[u8]) -> (&[u8], Option<&[u8]>)
    ensures parts { parts_between sign text.now ≡ split_parts sign result.0.now (option_copied result.1) }
    ensures shorter { IfSome result.1 (λ behind. length behind.now < length text.now) }
{
    let mut depth: usize = 0;
    let mut at = 0;
    while at < text.len() {
        let (front, rest) = text.split_at(at);
        if is_cut(sign, depth, rest) {
            return (front, Some(rest.split_at(2).1));
        }
        depth = depth_behind(text[at], depth);
        at += 1;
    }
    (text, None)
}

// Whether a text begins with a sign of two of these bytes, where so many parentheses are open.
fn is_cut(sign: u8, depth: usize, text: &[u8]) -> bool
    ensures cut { result ≡ is_cut sign depth text.now }
    ensures room { result ≡ true → 2 ≤ length text.now }
{
    match text {
        [first, second, ..] => depth == 0 && *first == sign && *second == sign,
        _ => false,
    }
}

// How many parentheses are open behind a byte.
fn depth_behind(byte: u8, depth: usize) -> usize
    requires { depth + 1 < 2 ^ 64 }
    ensures { result ≡ depth_behind byte depth }
{
    match byte {
        b'(' => depth + 1,
        b')' => depth.saturating_sub(1),
        _ => depth,
    }
}
