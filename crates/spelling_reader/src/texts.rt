ghost use Rattle.std.specs.Prelude.{◌≡◌, ◌++◌, ◌<◌, ◌==◌, ◌&&◌, not, [], false, true, None, Some, MatchOption, IfOk, OnOk};
ghost use Rattle.selector_spelling.specs.Bytes.{is_quote};
ghost use Rattle.selector_spelling.specs.Arguments.{unquoted, holds_byte, are_flags, flags_of, closing, unescaped, pattern_form, text_argument, sought};
ghost use Rattle.spelling_reader.specs.Texts.{marked, pushed, ClosesAt};

use cos_source::trim_text;
use listed::Text;
use selector_lexer::{begins_with, split_behind, split_first};
use selector_tree::Arg;
use std::alloc::{AllocError, Global};

/// Before which characters a `\` is dropped.
#[derive(Clone, Copy)]
pub(crate) enum Marks {
    /// Before `/`.
    BeforeSlash,
    /// Before one of `( ) \ / " '`.
    BeforeSigns,
}

fn marked(marks: Marks, c: char) -> bool
    ensures { result ≡ marked marks c }
{
    match marks {
        Marks::BeforeSlash => c == '/',
        Marks::BeforeSigns => c == '('
            || c == ')'
            || c == '\\'
            || c == '/'
            || (c == '"' || c == '\''),
    }
}

pub(crate) fn is_quote(byte: u8) -> bool
    ensures { result ≡ is_quote byte }
{
    byte == b'"' || byte == b'\''
}

/// The text without the quotes at its ends, where both are the same.
fn unquoted(text: &str) -> &str
    ensures { result.now ≡ unquoted text.now }
{
    let bytes = text.as_bytes();
    if bytes.len() < 2 {
        return text;
    }
    let first = bytes[0];
    if !is_quoted(first, bytes[bytes.len() - 1]) {
        return text;
    }
    split_behind(text.split_at(bytes.len() - 1).0, 1).1
}

/// Whether both ends of a text are the same quote.
pub(crate) fn is_quoted(first: u8, last: u8) -> bool
    ensures { result ≡ (is_quote first && last == first) }
{
    is_quote(first) && last == first
}

fn holds_byte(byte: u8, bytes: &[u8]) -> bool
    ensures { result ≡ holds_byte byte bytes.now }
{
    bytes.iter().any(|other| *other == byte)
}

/// Whether a text is letters among `i m s u`, each at most once.
fn are_flags(bytes: &[u8]) -> bool
    ensures { result ≡ are_flags bytes.now }
{
    let mut rest = bytes;
    while let Some((byte, more)) = rest.split_first() {
        if !holds_byte(*byte, b"imsu") || holds_byte(*byte, more) {
            return false;
        }
        rest = more;
    }
    true
}

/// The flags of a pattern: 1 for `i`, 2 for `m`, 4 for `s`.
fn flags_of(bytes: &[u8]) -> u8
    ensures value { result ≡ flags_of bytes.now }
    ensures below { result < 8 }
{
    let ignores_case = if holds_byte(b'i', bytes) { 1 } else { 0 };
    let many_lines = if holds_byte(b'm', bytes) { 2 } else { 0 };
    let dot_takes_all = if holds_byte(b's', bytes) { 4 } else { 0 };
    ignores_case + many_lines + dot_takes_all
}

/// The place of the `/` that closes a pattern, counted from behind its first.
fn closing(bytes: &[u8]) -> Option<usize>
    ensures { MatchOption result (closing false true bytes.now ≡ None) (ClosesAt bytes.now) }
{
    let mut odd = false;
    for (place, byte) in bytes.iter().enumerate() {
        if *byte == b'/' && !odd && place > 0 && are_flags(&bytes[place + 1..]) {
            return Some(place);
        }
        odd = *byte == b'\\' && !odd;
    }
    None
}

/// Whether a character begins a pair.
fn begins_pair(paired: bool, c: char) -> bool
    ensures { result ≡ (c == 92 && not paired) }
{
    c == '\\' && !paired
}

/// A text in which `\` is dropped before some characters.
fn unescaped(alloc: Global, marks: Marks, text: &str) -> Result<Text, AllocError>
    ensures { IfOk result (λ out. out ≡ unescaped (marked marks) false text.now) }
{
    let mut out = Text::new(alloc);
    let mut paired = false;
    let mut rest = text;
    while let Some((c, behind)) = split_first(rest) {
        push_unescaped(&mut out, marks, paired, c)?;
        paired = begins_pair(paired, c);
        rest = behind;
    }
    if paired {
        out.push('\\')?;
    }
    Ok(out)
}

/// Adds a character, of which a `\` that begins a pair adds nothing yet.
fn push_unescaped(out: &mut Text, marks: Marks, paired: bool, c: char) -> Result<(), AllocError>
    ensures { OnOk result (out.new ≡ out.old ++ pushed (marked marks) paired c) }
{
    if !paired {
        if c == '\\' {
            return Ok(());
        }
        return out.push(c);
    }
    if !marked(marks, c) {
        out.push('\\')?;
    }
    out.push(c)
}

/// The body and the flags of a text in pattern form.
fn pattern_form(text: &str) -> Option<(&str, &[u8])>
    ensures { MatchOption result (pattern_form text.now ≡ None) (λ p. pattern_form text.now ≡ Some (record { body = p.0.now; flags = p.1.now })) }
{
    if !begins_with(b'/', text.as_bytes()) {
        return None;
    }
    let behind = split_behind(text, 1).1;
    let place = closing(behind.as_bytes())?;
    Some((behind.split_at(place).0, &behind.as_bytes()[place + 1..]))
}

/// What a text argument says, with 0 for the number of a pattern.
pub(crate) fn text_argument(alloc: Global, argument: &str) -> Result<Arg, AllocError>
    ensures { IfOk result (λ arg. arg ≡ text_argument argument.now) }
{
    let text = unquoted(trim_text(argument));
    match pattern_form(text) {
        Some((body, flags)) => Ok(Arg::Pattern {
            body: unescaped(alloc, Marks::BeforeSlash, body)?,
            flags: flags_of(flags),
            number: 0,
        }),
        None => Ok(Arg::Literal(unescaped(alloc, Marks::BeforeSigns, text)?)),
    }
}

/// The argument, unless it is an empty literal.
pub(crate) fn sought(arg: Arg) -> Option<Arg>
    ensures { result ≡ sought arg }
{
    match arg {
        Arg::Literal(text) => {
            if text.as_str().is_empty() {
                None
            } else {
                Some(Arg::Literal(text))
            }
        }
        Arg::Pattern {
            body,
            flags,
            number,
        } => Some(Arg::Pattern {
            body,
            flags,
            number,
        }),
    }
}
