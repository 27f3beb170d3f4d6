ghost use Rattle.std.specs.Prelude.{◌≡◌, ◌+◌, ◌<◌, ◌++◌, [], ◌∷◌, length, take, drop, slice_index, false, None, Some, MatchOption, IfOk, IfSome};
ghost use Rattle.std.specs.List.{list_all, slice_split};
ghost use Rattle.std.specs.Str.{str_to_ascii_lowercase};
ghost use Rattle.std.specs.Char.{is_ascii_alphabetic};
ghost use Rattle.selector_spelling.specs.Bytes.{front, behind, slash};
ghost use Rattle.selector_spelling.specs.Arguments.{up_to, name_part, value_part, lower_name, attribute_pair, is_watched_byte, watched_name, watched_names, is_comma, watched};
ghost use Rattle.spelling_reader.specs.Texts.{EndsAt, parts_behind};

use crate::texts::{is_quote, sought, text_argument};
use cos_source::trim_text;
use listed::{Listed, Names, Text};
use selector_lexer::{Class, front_length, is_blank, split_before, split_behind};
use selector_tree::Arg;
use std::alloc::{AllocError, Global};

/// The place of the first such sign that is behind no odd run of `\`.
fn closing_sign(sign: u8, bytes: &[u8]) -> Option<usize>
    ensures { MatchOption result (up_to sign false bytes.now ≡ None) (EndsAt sign bytes.now) }
{
    let mut odd = false;
    for (place, byte) in bytes.iter().enumerate() {
        if *byte == sign && !odd {
            return Some(place);
        }
        odd = *byte == b'\\' && !odd;
    }
    None
}

/// The name part of a trimmed argument, and what stands behind it.
fn name_part(text: &str) -> Option<(&str, &str)>
    ensures { MatchOption result (name_part text.now ≡ None) (λ p. name_part text.now ≡ Some (record { front = p.0.now; rest = p.1.now })) }
{
    let (first, rest) = text.as_bytes().split_first()?;
    if is_quote(*first) {
        let place = closing_sign(*first, rest)?;
        return Some(split_behind(text, place + 2));
    }
    if *first == b'/' {
        return Some(slashed_part(text, closing_sign(b'/', rest)?));
    }
    Some(split_before(b'=', text))
}

/// A part that is closed by a `/` at a place behind the first one, with the letters behind it.
fn slashed_part(text: &str, place: usize) -> (&str, &str)
    requires inside { place + 1 < length text.now }
    requires is { slice_index text.now (place + 1) ≡ slash }
    ensures front { result.0.now ≡ take (place + 2) text.now ++ front is_ascii_alphabetic (drop (place + 2) text.now) }
    ensures back { result.1.now ≡ behind is_ascii_alphabetic (drop (place + 2) text.now) }
{
    let letters = front_length(Class::Letter, &text.as_bytes()[place + 2..]);
    split_behind(text, place + 2 + letters)
}

/// What stands behind the name part: nothing, or `=` and the value part.
fn value_part(alloc: Global, rest: &str) -> Result<Option<Option<Arg>>, AllocError>
    ensures { IfOk result (λ value. value ≡ value_part rest.now) }
{
    let Some(first) = rest.as_bytes().first() else {
        return Ok(Some(None));
    };
    if *first != b'=' {
        return Ok(None);
    }
    Ok(Some(Some(text_argument(alloc, split_behind(rest, 1).1)?)))
}

fn lower_name(alloc: Global, arg: Arg) -> Result<Arg, AllocError>
    ensures { IfOk result (λ lower. lower ≡ lower_name arg) }
{
    match arg {
        Arg::Literal(text) => Ok(Arg::Literal(Text::lower(alloc, text.as_str())?)),
        Arg::Pattern {
            body,
            flags,
            number,
        } => Ok(Arg::Pattern {
            body,
            flags,
            number,
        }),
    }
}

/// What a name and a value of an attribute are compared with.
#[derive(Drop)]
pub(crate) struct Pair {
    /// The name.
    pub name: Arg,
    /// The value, if one is asked for.
    pub value: Option<Arg>,
}

/// The name and the value that the argument of `:matches-attr(..)` spells.
pub(crate) fn attribute_pair(alloc: Global, argument: &str) -> Result<Option<Pair>, AllocError>
    ensures { IfOk result (λ pair. MatchOption pair (attribute_pair argument.now ≡ None) (λ p. attribute_pair argument.now ≡ Some (record { name = p.name; value = p.value }))) }
{
    let Some((name, rest)) = name_part(trim_text(argument)) else {
        return Ok(None);
    };
    let Some(name) = sought(text_argument(alloc, name)?) else {
        return Ok(None);
    };
    let Some(value) = value_part(alloc, rest)? else {
        return Ok(None);
    };
    Ok(Some(Pair {
        name: lower_name(alloc, name)?,
        value,
    }))
}

/// Whether a byte may stand in a name of `:watch-attr(..)`.
fn is_watched_byte(byte: u8) -> bool
    ensures { result ≡ is_watched_byte byte }
{
    byte.is_ascii_alphanumeric() || byte == b'-' || byte == b'_' || byte == b':' || byte == b'.'
}

fn are_watched(bytes: &[u8]) -> bool
    ensures { result ≡ list_all is_watched_byte bytes.now }
{
    bytes.iter().all(|byte| is_watched_byte(*byte))
}

fn watched_name(alloc: Global, text: &str) -> Result<Option<Text>, AllocError>
    ensures { IfOk result (λ name. name ≡ watched_name text.now) }
{
    if text.is_empty() || !are_watched(text.as_bytes()) {
        return Ok(None);
    }
    Ok(Some(Text::lower(alloc, text)?))
}

/// What stands before the first comma, and what stands behind it.
fn split_comma(text: &str) -> (&str, Option<&str>)
    ensures parts { slice_split is_comma text.now ≡ result.0.now ∷ parts_behind result.1 }
    ensures shorter { IfSome result.1 (λ rest. length rest.now < length text.now) }
{
    let (front, behind) = split_before(b',', text);
    if behind.is_empty() {
        return (front, None);
    }
    (front, Some(split_behind(behind, 1).1))
}

/// The names that stand between commas.
fn watched_names(alloc: Global, argument: &str) -> Result<Option<Names>, AllocError>
    ensures { IfOk result (λ names. names ≡ watched_names (slice_split is_comma argument.now)) }
{
    let mut names = Listed::new(alloc);
    let mut next = Some(argument);
    while let Some(text) = next {
        let (part, behind) = split_comma(text);
        let Some(name) = watched_name(alloc, trim_text(part))? else {
            return Ok(None);
        };
        names.push(name)?;
        next = behind;
    }
    Ok(Some(names))
}

/// The names that the argument of `:watch-attr(..)` spells.
pub(crate) fn watched(alloc: Global, argument: &str) -> Result<Option<Names>, AllocError>
    ensures { IfOk result (λ names. names ≡ watched argument.now) }
{
    if is_blank(argument.as_bytes()) {
        return Ok(Some(Listed::new(alloc)));
    }
    watched_names(alloc, argument)
}
